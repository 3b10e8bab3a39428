//! The kinds of metadata objects.

/// The kinds of metadata objects, in the order in which their keys are tried.
#[derive(Clone, Copy, PartialEq, Eq)]
pub enum Kind {
    OrganisationUnit,
    OrganisationUnitGroup,
    CategoryOption,
    Category,
    CategoryCombo,
    CategoryOptionCombo,
    DataElement,
    ApprovalLevel,
    Workflow,
    DataSet,
    Constant,
    IndicatorType,
    Indicator,
    ValidationRule,
    TrackedEntityType,
    TrackedEntityAttribute,
    Program,
    ProgramStage,
    ProgramIndicator,
    UserRole,
    User,
    UserGroup,
}

ghost use Rattle.std.specs.Prelude.{◌≡◌};
ghost use Rattle.dh_metadata.specs.Keys.{key_of};

// The keys, in the order of `Kind`, which the proof of `key` holds them to.
const KEYS: [&str; 22] = [
    "organisationUnits",
    "organisationUnitGroups",
    "categoryOptions",
    "categories",
    "categoryCombos",
    "categoryOptionCombos",
    "dataElements",
    "dataApprovalLevels",
    "dataApprovalWorkflows",
    "dataSets",
    "constants",
    "indicatorTypes",
    "indicators",
    "validationRules",
    "trackedEntityTypes",
    "trackedEntityAttributes",
    "programs",
    "programStages",
    "programIndicators",
    "userRoles",
    "users",
    "userGroups",
];

impl Kind {
    /// The key of the metadata file under which the objects of this kind stand.
    #[tactic(auto, unfolding(crate::specs::Keys::key_of))]
    pub fn key(self) -> &'static str
        ensures { result.now ≡ key_of self }
    {
        KEYS[self as usize]
    }
}
