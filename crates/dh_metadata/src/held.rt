//! All objects as they are held.

ghost use Rattle.std.specs.Prelude.{◌≡◌};
ghost use Rattle.dh_metadata.specs.Records.{held_with};

use crate::records::{
    ApprovalLevel, Attribute, Category, CategoryCombo, CategoryOption, Constant, DataSet, Element,
    EntityType, Indicator, IndicatorLinks, IndicatorType, OptionCombo, Program, ProgramIndicator,
    ProgramIndicatorLinks, Role, Rule, Stage, Unit, UnitGroup, User, UserGroup, Workflow,
};
use dh_base::items::Items;
use dh_sharing::rule::Sharing;

/// All objects with their references, where the expressions of indicators, validation rules and
/// program indicators are not read yet.
pub struct Links {
    pub organisation_units: Items<Unit>,
    pub organisation_unit_groups: Items<UnitGroup>,
    pub category_options: Items<CategoryOption>,
    pub categories: Items<Category>,
    pub category_combos: Items<CategoryCombo>,
    pub category_option_combos: Items<OptionCombo>,
    pub data_elements: Items<Element>,
    pub data_approval_levels: Items<ApprovalLevel>,
    pub data_approval_workflows: Items<Workflow>,
    pub data_sets: Items<DataSet>,
    pub constants: Items<Constant>,
    pub indicator_types: Items<IndicatorType>,
    pub indicators: Items<IndicatorLinks>,
    pub validation_rules: Items<Sharing>,
    pub tracked_entity_types: Items<EntityType>,
    pub tracked_entity_attributes: Items<Attribute>,
    pub programs: Items<Program>,
    pub program_stages: Items<Stage>,
    pub program_indicators: Items<ProgramIndicatorLinks>,
    pub user_roles: Items<Role>,
    pub users: Items<User>,
    pub user_groups: Items<UserGroup>,
    /// Tokens, each with the number of its user.
    pub api_tokens: Items<(Items<u8>, u32)>,
}

// By hand, so that it is proved here alone and not in each crate above, and in groups: what is still held is told at each step.
impl Drop for Links {
    fn drop(self) {
        let Links {
            organisation_units,
            organisation_unit_groups,
            category_options,
            categories,
            category_combos,
            category_option_combos,
            data_elements,
            data_approval_levels,
            data_approval_workflows,
            data_sets,
            constants,
            indicator_types,
            indicators,
            validation_rules,
            tracked_entity_types,
            tracked_entity_attributes,
            programs,
            program_stages,
            program_indicators,
            user_roles,
            users,
            user_groups,
            api_tokens,
        } = self;
        drop((
            organisation_units,
            organisation_unit_groups,
            category_options,
            categories,
            category_combos,
            category_option_combos,
        ));
        drop((
            data_elements,
            data_approval_levels,
            data_approval_workflows,
            data_sets,
            constants,
            indicator_types,
        ));
        drop((
            indicators,
            validation_rules,
            tracked_entity_types,
            tracked_entity_attributes,
            programs,
            program_stages,
        ));
        drop((
            program_indicators,
            user_roles,
            users,
            user_groups,
            api_tokens,
        ));
    }
}

impl Links {
    /// All objects as they are held: those that are linked, with those whose expressions were read.
    pub fn with(
        self,
        indicators: Items<Indicator>,
        validation_rules: Items<Rule>,
        program_indicators: Items<ProgramIndicator>,
        acceptance_required: bool,
    ) -> Records
        ensures { result ≡ held_with self indicators validation_rules program_indicators acceptance_required }
    {
        let Links {
            organisation_units,
            organisation_unit_groups,
            category_options,
            categories,
            category_combos,
            category_option_combos,
            data_elements,
            data_approval_levels,
            data_approval_workflows,
            data_sets,
            constants,
            indicator_types,
            indicators: _,
            validation_rules: _,
            tracked_entity_types,
            tracked_entity_attributes,
            programs,
            program_stages,
            program_indicators: _,
            user_roles,
            users,
            user_groups,
            api_tokens,
        } = self;
        Records {
            organisation_units,
            organisation_unit_groups,
            category_options,
            categories,
            category_combos,
            category_option_combos,
            data_elements,
            data_approval_levels,
            data_approval_workflows,
            data_sets,
            constants,
            indicator_types,
            indicators,
            validation_rules,
            tracked_entity_types,
            tracked_entity_attributes,
            programs,
            program_stages,
            program_indicators,
            user_roles,
            users,
            user_groups,
            api_tokens,
            acceptance_required,
        }
    }
}

/// All objects as they are held, in the order of the file, a built-in object before those of its kind.
pub struct Records {
    pub organisation_units: Items<Unit>,
    pub organisation_unit_groups: Items<UnitGroup>,
    pub category_options: Items<CategoryOption>,
    pub categories: Items<Category>,
    pub category_combos: Items<CategoryCombo>,
    pub category_option_combos: Items<OptionCombo>,
    pub data_elements: Items<Element>,
    pub data_approval_levels: Items<ApprovalLevel>,
    pub data_approval_workflows: Items<Workflow>,
    pub data_sets: Items<DataSet>,
    pub constants: Items<Constant>,
    pub indicator_types: Items<IndicatorType>,
    pub indicators: Items<Indicator>,
    pub validation_rules: Items<Rule>,
    pub tracked_entity_types: Items<EntityType>,
    pub tracked_entity_attributes: Items<Attribute>,
    pub programs: Items<Program>,
    pub program_stages: Items<Stage>,
    pub program_indicators: Items<ProgramIndicator>,
    pub user_roles: Items<Role>,
    pub users: Items<User>,
    pub user_groups: Items<UserGroup>,
    /// Tokens, each with the number of its user.
    pub api_tokens: Items<(Items<u8>, u32)>,
    /// Whether an approval has to be accepted before the level above may approve.
    pub acceptance_required: bool,
}

// By hand, so that it is proved here alone and not in each crate above, and in groups: what is still held is told at each step.
impl Drop for Records {
    fn drop(self) {
        let Records {
            organisation_units,
            organisation_unit_groups,
            category_options,
            categories,
            category_combos,
            category_option_combos,
            data_elements,
            data_approval_levels,
            data_approval_workflows,
            data_sets,
            constants,
            indicator_types,
            indicators,
            validation_rules,
            tracked_entity_types,
            tracked_entity_attributes,
            programs,
            program_stages,
            program_indicators,
            user_roles,
            users,
            user_groups,
            api_tokens,
            acceptance_required: _,
        } = self;
        drop((
            organisation_units,
            organisation_unit_groups,
            category_options,
            categories,
            category_combos,
            category_option_combos,
        ));
        drop((
            data_elements,
            data_approval_levels,
            data_approval_workflows,
            data_sets,
            constants,
            indicator_types,
        ));
        drop((
            indicators,
            validation_rules,
            tracked_entity_types,
            tracked_entity_attributes,
            programs,
            program_stages,
        ));
        drop((
            program_indicators,
            user_roles,
            users,
            user_groups,
            api_tokens,
        ));
    }
}
