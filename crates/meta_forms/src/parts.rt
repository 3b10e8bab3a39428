//! All that a metadata file says.

ghost use Rattle.std.specs.Prelude.{◌≡◌};
ghost use Rattle.json_read.specs.Views.{data_of};
ghost use Rattle.json_read.specs.Given.{Gives};
ghost use Rattle.meta_forms.specs.Parts.{groups_of, joined, parts_of};

use crate::entries::Entries;
use crate::entry::{AcceptanceRequired, Token};
use crate::object::Objects;
use crate::part::Part;
use dh_base::items::Items;
use dh_base::uid::Uid;
use dh_metadata::parts::MetaParts;
use dh_metadata::raw::{
    RawApprovalLevel, RawAttribute, RawCategory, RawCategoryCombo, RawCategoryOption, RawConstant,
    RawDataSet, RawElement, RawEntityType, RawIndicator, RawIndicatorType, RawOptionCombo,
    RawProgram, RawProgramIndicator, RawRole, RawRule, RawStage, RawUnit, RawUnitGroup, RawUser,
    RawUserGroup, RawWorkflow,
};
use json::Value;
use json_read::fault::FormFault;
use json_read::form::require_object;
use std::alloc::Global;
use std::marker::PhantomData;

// The units, and what categories are made of.
type Hierarchy = (
    Items<RawUnit>,
    (
        Items<RawUnitGroup>,
        (Items<RawCategoryOption>, Items<RawCategory>),
    ),
);

// Combinations, data elements and approval levels.
type Elements = (
    Items<RawCategoryCombo>,
    (
        Items<RawOptionCombo>,
        (Items<RawElement>, Items<RawApprovalLevel>),
    ),
);

// Workflows, data sets, constants and indicator types.
type Sets = (
    Items<RawWorkflow>,
    (
        Items<RawDataSet>,
        (Items<RawConstant>, Items<RawIndicatorType>),
    ),
);

// Indicators, validation rules, and what tracked entities are made of.
type Indicators = (
    Items<RawIndicator>,
    (Items<RawRule>, (Items<RawEntityType>, Items<RawAttribute>)),
);

// Programs, their stages and indicators, and user roles.
type Programs = (
    Items<RawProgram>,
    (
        Items<RawStage>,
        (Items<RawProgramIndicator>, Items<RawRole>),
    ),
);

// Users, their groups and tokens, and the settings of the system.
type Users = (
    Items<RawUser>,
    (Items<RawUserGroup>, (Items<(Items<u8>, Uid)>, bool)),
);

// All groups.
type Groups = (
    Hierarchy,
    (Elements, (Sets, (Indicators, (Programs, Users)))),
);

fn read_groups(alloc: Global, value: &Value<'_>) -> Result<Groups, FormFault>
    ensures { Gives (groups_of (data_of value.now)) result }
{
    let organisation_units = Objects::<RawUnit>("organisationUnits", PhantomData);
    let organisation_unit_groups = Objects::<RawUnitGroup>("organisationUnitGroups", PhantomData);
    let category_options = Objects::<RawCategoryOption>("categoryOptions", PhantomData);
    let categories = Objects::<RawCategory>("categories", PhantomData);
    let hierarchy = (
        organisation_units,
        (organisation_unit_groups, (category_options, categories)),
    );
    let category_combos = Objects::<RawCategoryCombo>("categoryCombos", PhantomData);
    let category_option_combos = Objects::<RawOptionCombo>("categoryOptionCombos", PhantomData);
    let data_elements = Objects::<RawElement>("dataElements", PhantomData);
    let data_approval_levels = Objects::<RawApprovalLevel>("dataApprovalLevels", PhantomData);
    let elements = (
        category_combos,
        (
            category_option_combos,
            (data_elements, data_approval_levels),
        ),
    );
    let data_approval_workflows = Objects::<RawWorkflow>("dataApprovalWorkflows", PhantomData);
    let data_sets = Objects::<RawDataSet>("dataSets", PhantomData);
    let constants = Objects::<RawConstant>("constants", PhantomData);
    let indicator_types = Objects::<RawIndicatorType>("indicatorTypes", PhantomData);
    let sets = (
        data_approval_workflows,
        (data_sets, (constants, indicator_types)),
    );
    let indicators = Objects::<RawIndicator>("indicators", PhantomData);
    let validation_rules = Objects::<RawRule>("validationRules", PhantomData);
    let tracked_entity_types = Objects::<RawEntityType>("trackedEntityTypes", PhantomData);
    let tracked_entity_attributes = Objects::<RawAttribute>("trackedEntityAttributes", PhantomData);
    let rules = (
        indicators,
        (
            validation_rules,
            (tracked_entity_types, tracked_entity_attributes),
        ),
    );
    let programs = Objects::<RawProgram>("programs", PhantomData);
    let program_stages = Objects::<RawStage>("programStages", PhantomData);
    let program_indicators = Objects::<RawProgramIndicator>("programIndicators", PhantomData);
    let user_roles = Objects::<RawRole>("userRoles", PhantomData);
    let tracking = (programs, (program_stages, (program_indicators, user_roles)));
    let users = Objects::<RawUser>("users", PhantomData);
    let user_groups = Objects::<RawUserGroup>("userGroups", PhantomData);
    let tokens = Entries::<Token>("apiTokens", PhantomData);
    let people = (users, (user_groups, (tokens, AcceptanceRequired {})));
    let groups = (hierarchy, (elements, (sets, (rules, (tracking, people)))));
    groups.read(alloc, value)
}

// All that the groups of a file say.
fn joined(groups: Groups) -> MetaParts
    ensures { result ≡ joined groups }
{
    let (hierarchy, (elements, (sets, (rules, (tracking, people))))) = groups;
    let (organisation_units, (organisation_unit_groups, (category_options, categories))) =
        hierarchy;
    let (category_combos, (category_option_combos, (data_elements, data_approval_levels))) =
        elements;
    let (data_approval_workflows, (data_sets, (constants, indicator_types))) = sets;
    let (indicators, (validation_rules, (tracked_entity_types, tracked_entity_attributes))) = rules;
    let (programs, (program_stages, (program_indicators, user_roles))) = tracking;
    let (users, (user_groups, (api_tokens, acceptance_required))) = people;
    MetaParts {
        organisation_units,
        organisation_unit_groups,
        category_options,
        categories,
        category_combos,
        category_option_combos,
        data_elements,
        data_approval_levels,
        data_approval_workflows,
        data_sets,
        constants,
        indicator_types,
        indicators,
        validation_rules,
        tracked_entity_types,
        tracked_entity_attributes,
        programs,
        program_stages,
        program_indicators,
        user_roles,
        users,
        user_groups,
        api_tokens,
        acceptance_required,
    }
}

/// What a metadata file says whose JSON data this is. A fault has the path of the first place that isn't
/// in the form of the file: by the order of the keys, then that of the objects in the file, then `id`,
/// `name` and the order of the fields.
#[tactic(auto, unfolding(crate::specs::Parts::parts_of))]
pub fn read_parts(alloc: Global, value: &Value<'_>) -> Result<MetaParts, FormFault>
    ensures { Gives (parts_of (data_of value.now)) result }
{
    require_object(alloc, value)?;
    match read_groups(alloc, value) {
        Ok(groups) => Ok(joined(groups)),
        Err(fault) => Err(fault),
    }
}
