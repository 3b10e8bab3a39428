//! How many objects metadata may have.

ghost use Rattle.std.specs.Prelude.{◌≡◌, ◌<◌, length, nat_lt};
ghost use Rattle.std.specs.List.{list_any};
ghost use Rattle.meta_rules.specs.Limits.{limit_text, objects_of, most_of, passes, first_passed};

use dh_base::items::Items;
use dh_metadata::kind::Kind;
use dh_metadata::parts::MetaParts;

/// A limit that is passed.
#[derive(Clone, Copy)]
pub enum LimitFault {
    /// A key has too many objects of this kind.
    Objects(Kind),
    /// A workflow has too many levels.
    Levels,
    /// There are too many tokens.
    Tokens,
}

impl LimitFault {
    /// The key with too many objects, or `levels`.
    #[tactic(auto, unfolding(crate::specs::Limits::limit_text))]
    pub fn text(self) -> &'static str
        ensures { result.now ≡ limit_text self }
    {
        match self {
            LimitFault::Objects(kind) => kind.key(),
            LimitFault::Levels => "levels",
            LimitFault::Tokens => "apiTokens",
        }
    }
}

/// The most organisation units.
pub const MOST_UNITS: usize = 65_536;

/// The most objects of another kind, and the most tokens.
pub const MOST_OBJECTS: usize = 16_384;

/// The most levels of a workflow.
pub const MOST_LEVELS: usize = 8;

/// The limits in the order in which they are tried.
const LIMITS: [LimitFault; 24] = [
    LimitFault::Objects(Kind::OrganisationUnit),
    LimitFault::Objects(Kind::OrganisationUnitGroup),
    LimitFault::Objects(Kind::CategoryOption),
    LimitFault::Objects(Kind::Category),
    LimitFault::Objects(Kind::CategoryCombo),
    LimitFault::Objects(Kind::CategoryOptionCombo),
    LimitFault::Objects(Kind::DataElement),
    LimitFault::Objects(Kind::ApprovalLevel),
    LimitFault::Objects(Kind::Workflow),
    LimitFault::Levels,
    LimitFault::Objects(Kind::DataSet),
    LimitFault::Objects(Kind::Constant),
    LimitFault::Objects(Kind::IndicatorType),
    LimitFault::Objects(Kind::Indicator),
    LimitFault::Objects(Kind::ValidationRule),
    LimitFault::Objects(Kind::TrackedEntityType),
    LimitFault::Objects(Kind::TrackedEntityAttribute),
    LimitFault::Objects(Kind::Program),
    LimitFault::Objects(Kind::ProgramStage),
    LimitFault::Objects(Kind::ProgramIndicator),
    LimitFault::Objects(Kind::UserRole),
    LimitFault::Objects(Kind::User),
    LimitFault::Objects(Kind::UserGroup),
    LimitFault::Tokens,
];

/// How many objects of a kind the file has, without the built-in ones.
fn objects(parts: &MetaParts, kind: Kind) -> usize
    ensures { result ≡ objects_of parts.now kind }
{
    match kind {
        Kind::OrganisationUnit => parts.organisation_units.len(),
        Kind::OrganisationUnitGroup => parts.organisation_unit_groups.len(),
        Kind::CategoryOption => parts.category_options.len(),
        Kind::Category => parts.categories.len(),
        Kind::CategoryCombo => parts.category_combos.len(),
        Kind::CategoryOptionCombo => parts.category_option_combos.len(),
        Kind::DataElement => parts.data_elements.len(),
        Kind::ApprovalLevel => parts.data_approval_levels.len(),
        Kind::Workflow => parts.data_approval_workflows.len(),
        Kind::DataSet => parts.data_sets.len(),
        Kind::Constant => parts.constants.len(),
        Kind::IndicatorType => parts.indicator_types.len(),
        Kind::Indicator => parts.indicators.len(),
        Kind::ValidationRule => parts.validation_rules.len(),
        Kind::TrackedEntityType => parts.tracked_entity_types.len(),
        Kind::TrackedEntityAttribute => parts.tracked_entity_attributes.len(),
        Kind::Program => parts.programs.len(),
        Kind::ProgramStage => parts.program_stages.len(),
        Kind::ProgramIndicator => parts.program_indicators.len(),
        Kind::UserRole => parts.user_roles.len(),
        Kind::User => parts.users.len(),
        Kind::UserGroup => parts.user_groups.len(),
    }
}

fn most(kind: Kind) -> usize
    ensures { result ≡ most_of kind }
{
    match kind {
        Kind::OrganisationUnit => MOST_UNITS,
        _ => MOST_OBJECTS,
    }
}

fn are_many(positions: &[Items<i64>]) -> bool
    ensures { result ≡ list_any (λ own. nat_lt 8 (length own)) positions.now }
{
    for own in positions {
        if own.len() > MOST_LEVELS {
            return true;
        }
    }
    false
}

fn passes(parts: &MetaParts, positions: &[Items<i64>], limit: LimitFault) -> bool
    ensures { result ≡ passes parts.now positions.now limit }
{
    match limit {
        LimitFault::Objects(kind) => objects(parts, kind) > most(kind),
        LimitFault::Levels => are_many(positions),
        LimitFault::Tokens => parts.api_tokens.len() > MOST_OBJECTS,
    }
}

/// The first limit that the file passes. `positions` has for each workflow its different levels.
#[tactic(auto, unfolding(crate::specs::Limits::first_passed))]
pub fn first_passed(parts: &MetaParts, positions: &[Items<i64>]) -> Option<LimitFault>
    ensures { result ≡ first_passed parts.now positions.now }
{
    LIMITS
        .iter()
        .copied()
        .find(|limit| passes(parts, positions, *limit))
}
