//! All that a metadata file says.

use crate::raw::{
    RawApprovalLevel, RawAttribute, RawCategory, RawCategoryCombo, RawCategoryOption, RawConstant,
    RawDataSet, RawElement, RawEntityType, RawIndicator, RawIndicatorType, RawOptionCombo,
    RawProgram, RawProgramIndicator, RawRole, RawRule, RawStage, RawUnit, RawUnitGroup, RawUser,
    RawUserGroup, RawWorkflow,
};
use dh_base::items::Items;
use dh_base::uid::Uid;

/// All that a metadata file says, without the built-in objects and those that were passed over.
pub struct MetaParts {
    pub organisation_units: Items<RawUnit>,
    pub organisation_unit_groups: Items<RawUnitGroup>,
    pub category_options: Items<RawCategoryOption>,
    pub categories: Items<RawCategory>,
    pub category_combos: Items<RawCategoryCombo>,
    pub category_option_combos: Items<RawOptionCombo>,
    pub data_elements: Items<RawElement>,
    pub data_approval_levels: Items<RawApprovalLevel>,
    pub data_approval_workflows: Items<RawWorkflow>,
    pub data_sets: Items<RawDataSet>,
    pub constants: Items<RawConstant>,
    pub indicator_types: Items<RawIndicatorType>,
    pub indicators: Items<RawIndicator>,
    pub validation_rules: Items<RawRule>,
    pub tracked_entity_types: Items<RawEntityType>,
    pub tracked_entity_attributes: Items<RawAttribute>,
    pub programs: Items<RawProgram>,
    pub program_stages: Items<RawStage>,
    pub program_indicators: Items<RawProgramIndicator>,
    pub user_roles: Items<RawRole>,
    pub users: Items<RawUser>,
    pub user_groups: Items<RawUserGroup>,
    /// Tokens, each with the identifier of its user.
    pub api_tokens: Items<(Items<u8>, Uid)>,
    /// Whether an approval has to be accepted before the level above may approve.
    pub acceptance_required: bool,
}

// By hand, so that it is proved here alone and not in each crate above, and in groups: what is still held is told at each step.
impl Drop for MetaParts {
    fn drop(self) {
        let MetaParts {
            organisation_units,
            organisation_unit_groups,
            category_options,
            categories,
            category_combos,
            category_option_combos,
            data_elements,
            data_approval_levels,
            data_approval_workflows,
            data_sets,
            constants,
            indicator_types,
            indicators,
            validation_rules,
            tracked_entity_types,
            tracked_entity_attributes,
            programs,
            program_stages,
            program_indicators,
            user_roles,
            users,
            user_groups,
            api_tokens,
            acceptance_required: _,
        } = self;
        drop((
            organisation_units,
            organisation_unit_groups,
            category_options,
            categories,
            category_combos,
            category_option_combos,
        ));
        drop((
            data_elements,
            data_approval_levels,
            data_approval_workflows,
            data_sets,
            constants,
            indicator_types,
        ));
        drop((
            indicators,
            validation_rules,
            tracked_entity_types,
            tracked_entity_attributes,
            programs,
            program_stages,
        ));
        drop((
            program_indicators,
            user_roles,
            users,
            user_groups,
            api_tokens,
        ));
    }
}
