//! The references of an object of each kind.
ghost use Rattle.std.specs.Prelude.{IfOk, OnOk};
ghost use Rattle.meta_links.specs.Table.{unit_references, unit_group_references, category_option_references, category_references, category_combo_references};
ghost use Rattle.meta_links.specs.Table.{option_combo_references, element_references, approval_level_references, workflow_references, data_set_references};
ghost use Rattle.meta_links.specs.Table.{constant_references, indicator_type_references, indicator_references, rule_references, entity_type_references};
ghost use Rattle.meta_links.specs.Table.{attribute_references, program_references, stage_references, program_indicator_references, role_references};
ghost use Rattle.meta_links.specs.Table.{user_references, user_group_references};
ghost use Rattle.meta_links.specs.Held.{unit_held, unit_group_held, category_option_held, category_held, category_combo_held, option_combo_held};
ghost use Rattle.meta_links.specs.Held.{element_held, approval_level_held, workflow_held, data_set_held, constant_held, indicator_type_held, indicator_held};
ghost use Rattle.meta_links.specs.Held.{rule_held, entity_type_held, attribute_held, program_held, stage_held, program_indicator_held, role_held, user_held};
ghost use Rattle.meta_links.specs.Held.{user_group_held};

use crate::copies::{Text, copies_of, copy_of};
use crate::entries::Listed;
use crate::fields::{One, Optional, SetElements, Several, SeveralIn};
use crate::link_each::Link;
use crate::path::Field;
use crate::sharing::Shared;
use crate::unknown::Unknown;
use dh_base::memory::Memory;
use dh_metadata::ids::Ids;
use dh_metadata::kind::Kind;
use dh_metadata::raw::{
    RawApprovalLevel, RawAttribute, RawCategory, RawCategoryCombo, RawCategoryOption, RawConstant,
    RawDataSet, RawElement, RawEntityType, RawIndicator, RawIndicatorType, RawOptionCombo,
    RawProgram, RawProgramIndicator, RawRole, RawRule, RawStage, RawUnit, RawUnitGroup, RawUser,
    RawUserGroup, RawWorkflow,
};
use dh_metadata::records::{
    ApprovalLevel, Attribute, Category, CategoryCombo, CategoryOption, Constant, DataSet, Element,
    EntityType, IndicatorLinks, IndicatorType, OptionCombo, Program, ProgramIndicatorLinks, Role,
    Stage, Unit, UnitGroup, User, UserGroup, Workflow,
};
use dh_sharing::rule::Sharing;
use std::alloc::Global;

impl Link for RawUnit {
    type Held = Unit;

    ghost references = { unit_references };

    ghost held = { unit_held };

    #[tactic(auto, unfolding(crate::specs::Table::unit_references, crate::specs::Held::unit_held))]
    fn link(&self, alloc: Global, ids: &Ids, unknown: &mut Unknown) -> Result<Unit, Memory> {
        let (kind, place) = (Kind::OrganisationUnit, self.place);
        let name = Text { text: &self.name };
        let parent = Optional {
            at: Field {
                kind,
                place,
                name: "parent",
            },
            of: Kind::OrganisationUnit,
            uid: self.parent,
        };
        let fields = (name, parent);
        let (name, parent) = fields.link(alloc, ids, unknown)?;
        Ok(Unit {
            id: self.id,
            name,
            parent,
        })
    }
}

impl Link for RawUnitGroup {
    type Held = UnitGroup;

    ghost references = { unit_group_references };

    ghost held = { unit_group_held };

    #[tactic(auto, unfolding(crate::specs::Table::unit_group_references, crate::specs::Held::unit_group_held, crate::specs::Reference::several))]
    fn link(&self, alloc: Global, ids: &Ids, unknown: &mut Unknown) -> Result<UnitGroup, Memory> {
        let (kind, place) = (Kind::OrganisationUnitGroup, self.place);
        let name = Text { text: &self.name };
        let organisation_units = Listed {
            each: Several {
                at: Field {
                    kind,
                    place,
                    name: "organisationUnits",
                },
                of: Kind::OrganisationUnit,
            },
            entries: &self.organisation_units,
        };
        let fields = (name, organisation_units);
        let (name, organisation_units) = fields.link(alloc, ids, unknown)?;
        Ok(UnitGroup {
            id: self.id,
            name,
            organisation_units,
        })
    }
}

impl Link for RawCategoryOption {
    type Held = CategoryOption;

    ghost references = { category_option_references };

    ghost held = { category_option_held };

    #[tactic(auto, unfolding(crate::specs::Table::category_option_references, crate::specs::Held::category_option_held))]
    fn link(
        &self,
        alloc: Global,
        ids: &Ids,
        unknown: &mut Unknown,
    ) -> Result<CategoryOption, Memory> {
        let (kind, place) = (Kind::CategoryOption, self.place);
        let name = Text { text: &self.name };
        let sharing = Shared {
            kind,
            place,
            sharing: &self.sharing,
        };
        let fields = (name, sharing);
        let (name, sharing) = fields.link(alloc, ids, unknown)?;
        Ok(CategoryOption {
            id: self.id,
            name,
            sharing,
        })
    }
}

impl Link for RawCategory {
    type Held = Category;

    ghost references = { category_references };

    ghost held = { category_held };

    #[tactic(auto, unfolding(crate::specs::Table::category_references, crate::specs::Held::category_held, crate::specs::Reference::several))]
    fn link(&self, alloc: Global, ids: &Ids, unknown: &mut Unknown) -> Result<Category, Memory> {
        let (kind, place) = (Kind::Category, self.place);
        let name = Text { text: &self.name };
        let category_options = Listed {
            each: Several {
                at: Field {
                    kind,
                    place,
                    name: "categoryOptions",
                },
                of: Kind::CategoryOption,
            },
            entries: &self.category_options,
        };
        let fields = (name, category_options);
        let (name, category_options) = fields.link(alloc, ids, unknown)?;
        Ok(Category {
            id: self.id,
            name,
            category_options,
        })
    }
}

impl Link for RawCategoryCombo {
    type Held = CategoryCombo;

    ghost references = { category_combo_references };

    ghost held = { category_combo_held };

    #[tactic(auto, unfolding(crate::specs::Table::category_combo_references, crate::specs::Held::category_combo_held, crate::specs::Reference::several))]
    fn link(
        &self,
        alloc: Global,
        ids: &Ids,
        unknown: &mut Unknown,
    ) -> Result<CategoryCombo, Memory> {
        let (kind, place) = (Kind::CategoryCombo, self.place);
        let name = Text { text: &self.name };
        let categories = Listed {
            each: Several {
                at: Field {
                    kind,
                    place,
                    name: "categories",
                },
                of: Kind::Category,
            },
            entries: &self.categories,
        };
        let fields = (name, categories);
        let (name, categories) = fields.link(alloc, ids, unknown)?;
        Ok(CategoryCombo {
            id: self.id,
            name,
            categories,
        })
    }
}

impl Link for RawOptionCombo {
    type Held = OptionCombo;

    ghost references = { option_combo_references };

    ghost held = { option_combo_held };

    #[tactic(auto, unfolding(crate::specs::Table::option_combo_references, crate::specs::Held::option_combo_held, crate::specs::Reference::several))]
    fn link(&self, alloc: Global, ids: &Ids, unknown: &mut Unknown) -> Result<OptionCombo, Memory> {
        let (kind, place) = (Kind::CategoryOptionCombo, self.place);
        let name = Text { text: &self.name };
        let category_combo = One {
            at: Field {
                kind,
                place,
                name: "categoryCombo",
            },
            of: Kind::CategoryCombo,
            uid: self.category_combo,
        };
        let category_options = Listed {
            each: Several {
                at: Field {
                    kind,
                    place,
                    name: "categoryOptions",
                },
                of: Kind::CategoryOption,
            },
            entries: &self.category_options,
        };
        let fields = (name, (category_combo, category_options));
        let (name, (category_combo, category_options)) = fields.link(alloc, ids, unknown)?;
        Ok(OptionCombo {
            id: self.id,
            name,
            category_combo,
            category_options,
        })
    }
}

impl Link for RawElement {
    type Held = Element;

    ghost references = { element_references };

    ghost held = { element_held };

    #[tactic(auto, unfolding(crate::specs::Table::element_references, crate::specs::Held::element_held))]
    fn link(&self, alloc: Global, ids: &Ids, unknown: &mut Unknown) -> Result<Element, Memory> {
        let (kind, place) = (Kind::DataElement, self.place);
        let name = Text { text: &self.name };
        let category_combo = One {
            at: Field {
                kind,
                place,
                name: "categoryCombo",
            },
            of: Kind::CategoryCombo,
            uid: self.category_combo,
        };
        let sharing = Shared {
            kind,
            place,
            sharing: &self.sharing,
        };
        let fields = (name, (category_combo, sharing));
        let (name, (category_combo, sharing)) = fields.link(alloc, ids, unknown)?;
        Ok(Element {
            id: self.id,
            name,
            value_type: self.value_type,
            aggregation_type: self.aggregation_type,
            zero_is_significant: self.zero_is_significant,
            category_combo,
            sharing,
        })
    }
}

impl Link for RawApprovalLevel {
    type Held = ApprovalLevel;

    ghost references = { approval_level_references };

    ghost held = { approval_level_held };

    #[tactic(auto, using(crate::proofs::Walk::parts), unfolding(crate::specs::Table::approval_level_references, crate::specs::Held::approval_level_held))]
    fn link(
        &self,
        alloc: Global,
        _ids: &Ids,
        _unknown: &mut Unknown,
    ) -> Result<ApprovalLevel, Memory> {
        let name = copy_of(alloc, &self.name)?;
        Ok(ApprovalLevel {
            id: self.id,
            name,
            level: self.level,
            org_unit_level: self.org_unit_level,
        })
    }
}

impl Link for RawWorkflow {
    type Held = Workflow;

    ghost references = { workflow_references };

    ghost held = { workflow_held };

    #[tactic(auto, unfolding(crate::specs::Table::workflow_references, crate::specs::Held::workflow_held, crate::specs::Reference::several))]
    fn link(&self, alloc: Global, ids: &Ids, unknown: &mut Unknown) -> Result<Workflow, Memory> {
        let (kind, place) = (Kind::Workflow, self.place);
        let name = Text { text: &self.name };
        let data_approval_levels = Listed {
            each: Several {
                at: Field {
                    kind,
                    place,
                    name: "dataApprovalLevels",
                },
                of: Kind::ApprovalLevel,
            },
            entries: &self.data_approval_levels,
        };
        let fields = (name, data_approval_levels);
        let (name, data_approval_levels) = fields.link(alloc, ids, unknown)?;
        Ok(Workflow {
            id: self.id,
            name,
            period_type: self.period_type,
            data_approval_levels,
        })
    }
}

impl Link for RawDataSet {
    type Held = DataSet;

    ghost references = { data_set_references };

    ghost held = { data_set_held };

    #[tactic(auto, unfolding(crate::specs::Table::data_set_references, crate::specs::Held::data_set_held))]
    fn link(&self, alloc: Global, ids: &Ids, unknown: &mut Unknown) -> Result<DataSet, Memory> {
        let (kind, place) = (Kind::DataSet, self.place);
        let name = Text { text: &self.name };
        let data_set_elements = Listed {
            each: SetElements {
                at: Field {
                    kind,
                    place,
                    name: "dataSetElements",
                },
            },
            entries: &self.data_set_elements,
        };
        let organisation_units = Listed {
            each: Several {
                at: Field {
                    kind,
                    place,
                    name: "organisationUnits",
                },
                of: Kind::OrganisationUnit,
            },
            entries: &self.organisation_units,
        };
        let category_combo = One {
            at: Field {
                kind,
                place,
                name: "categoryCombo",
            },
            of: Kind::CategoryCombo,
            uid: self.category_combo,
        };
        let workflow = Optional {
            at: Field {
                kind,
                place,
                name: "workflow",
            },
            of: Kind::Workflow,
            uid: self.workflow,
        };
        let sharing = Shared {
            kind,
            place,
            sharing: &self.sharing,
        };
        let fields = (
            name,
            (
                data_set_elements,
                (organisation_units, (category_combo, (workflow, sharing))),
            ),
        );
        let (
            name,
            (data_set_elements, (organisation_units, (category_combo, (workflow, sharing)))),
        ) = fields.link(alloc, ids, unknown)?;
        Ok(DataSet {
            id: self.id,
            name,
            period_type: self.period_type,
            open_future_periods: self.open_future_periods,
            expiry_days: self.expiry_days,
            timely_days: self.timely_days,
            data_set_elements,
            organisation_units,
            category_combo,
            workflow,
            sharing,
        })
    }
}

impl Link for RawConstant {
    type Held = Constant;

    ghost references = { constant_references };

    ghost held = { constant_held };

    #[tactic(auto, using(crate::proofs::Walk::parts), unfolding(crate::specs::Table::constant_references, crate::specs::Held::constant_held))]
    fn link(&self, alloc: Global, _ids: &Ids, _unknown: &mut Unknown) -> Result<Constant, Memory> {
        let name = copy_of(alloc, &self.name)?;
        Ok(Constant {
            id: self.id,
            name,
            value: self.value,
        })
    }
}

impl Link for RawIndicatorType {
    type Held = IndicatorType;

    ghost references = { indicator_type_references };

    ghost held = { indicator_type_held };

    #[tactic(auto, using(crate::proofs::Walk::parts), unfolding(crate::specs::Table::indicator_type_references, crate::specs::Held::indicator_type_held))]
    fn link(
        &self,
        alloc: Global,
        _ids: &Ids,
        _unknown: &mut Unknown,
    ) -> Result<IndicatorType, Memory> {
        let name = copy_of(alloc, &self.name)?;
        Ok(IndicatorType {
            id: self.id,
            name,
            factor: self.factor,
        })
    }
}

impl Link for RawIndicator {
    type Held = IndicatorLinks;

    ghost references = { indicator_references };

    ghost held = { indicator_held };

    #[tactic(auto, unfolding(crate::specs::Table::indicator_references, crate::specs::Held::indicator_held))]
    fn link(
        &self,
        alloc: Global,
        ids: &Ids,
        unknown: &mut Unknown,
    ) -> Result<IndicatorLinks, Memory> {
        let (kind, place) = (Kind::Indicator, self.place);
        let indicator_type = One {
            at: Field {
                kind,
                place,
                name: "indicatorType",
            },
            of: Kind::IndicatorType,
            uid: self.indicator_type,
        };
        let sharing = Shared {
            kind,
            place,
            sharing: &self.sharing,
        };
        let fields = (indicator_type, sharing);
        let (indicator_type, sharing) = fields.link(alloc, ids, unknown)?;
        Ok(IndicatorLinks {
            indicator_type,
            sharing,
        })
    }
}

impl Link for RawRule {
    type Held = Sharing;

    ghost references = { rule_references };

    ghost held = { rule_held };

    #[tactic(auto, unfolding(crate::specs::Table::rule_references, crate::specs::Held::rule_held))]
    fn link(&self, alloc: Global, ids: &Ids, unknown: &mut Unknown) -> Result<Sharing, Memory> {
        let (kind, place) = (Kind::ValidationRule, self.place);
        let sharing = &self.sharing;
        Shared {
            kind,
            place,
            sharing,
        }
        .link(alloc, ids, unknown)
    }
}

impl Link for RawEntityType {
    type Held = EntityType;

    ghost references = { entity_type_references };

    ghost held = { entity_type_held };

    #[tactic(auto, unfolding(crate::specs::Table::entity_type_references, crate::specs::Held::entity_type_held))]
    fn link(&self, alloc: Global, ids: &Ids, unknown: &mut Unknown) -> Result<EntityType, Memory> {
        let (kind, place) = (Kind::TrackedEntityType, self.place);
        let name = Text { text: &self.name };
        let sharing = Shared {
            kind,
            place,
            sharing: &self.sharing,
        };
        let fields = (name, sharing);
        let (name, sharing) = fields.link(alloc, ids, unknown)?;
        Ok(EntityType {
            id: self.id,
            name,
            sharing,
        })
    }
}

impl Link for RawAttribute {
    type Held = Attribute;

    ghost references = { attribute_references };

    ghost held = { attribute_held };

    #[tactic(auto, using(crate::proofs::Walk::parts), unfolding(crate::specs::Table::attribute_references, crate::specs::Held::attribute_held))]
    fn link(&self, alloc: Global, _ids: &Ids, _unknown: &mut Unknown) -> Result<Attribute, Memory> {
        let name = copy_of(alloc, &self.name)?;
        Ok(Attribute {
            id: self.id,
            name,
            value_type: self.value_type,
        })
    }
}

impl Link for RawProgram {
    type Held = Program;

    ghost references = { program_references };

    ghost held = { program_held };

    #[tactic(auto, unfolding(crate::specs::Table::program_references, crate::specs::Held::program_held, crate::specs::Reference::several_in))]
    fn link(&self, alloc: Global, ids: &Ids, unknown: &mut Unknown) -> Result<Program, Memory> {
        let (kind, place) = (Kind::Program, self.place);
        let name = Text { text: &self.name };
        let tracked_entity_type = Optional {
            at: Field {
                kind,
                place,
                name: "trackedEntityType",
            },
            of: Kind::TrackedEntityType,
            uid: self.tracked_entity_type,
        };
        let program_tracked_entity_attributes = Listed {
            each: SeveralIn {
                at: Field {
                    kind,
                    place,
                    name: "programTrackedEntityAttributes",
                },
                name: b"trackedEntityAttribute",
                of: Kind::TrackedEntityAttribute,
            },
            entries: &self.program_tracked_entity_attributes,
        };
        let sharing = Shared {
            kind,
            place,
            sharing: &self.sharing,
        };
        let fields = (
            name,
            (
                (tracked_entity_type, program_tracked_entity_attributes),
                sharing,
            ),
        );
        let (name, ((tracked_entity_type, program_tracked_entity_attributes), sharing)) =
            fields.link(alloc, ids, unknown)?;
        Ok(Program {
            id: self.id,
            name,
            program_type: self.program_type,
            tracked_entity_type,
            program_tracked_entity_attributes,
            sharing,
        })
    }
}

impl Link for RawStage {
    type Held = Stage;

    ghost references = { stage_references };

    ghost held = { stage_held };

    #[tactic(auto, unfolding(crate::specs::Table::stage_references, crate::specs::Held::stage_held, crate::specs::Reference::several_in))]
    fn link(&self, alloc: Global, ids: &Ids, unknown: &mut Unknown) -> Result<Stage, Memory> {
        let (kind, place) = (Kind::ProgramStage, self.place);
        let name = Text { text: &self.name };
        let program = One {
            at: Field {
                kind,
                place,
                name: "program",
            },
            of: Kind::Program,
            uid: self.program,
        };
        let program_stage_data_elements = Listed {
            each: SeveralIn {
                at: Field {
                    kind,
                    place,
                    name: "programStageDataElements",
                },
                name: b"dataElement",
                of: Kind::DataElement,
            },
            entries: &self.program_stage_data_elements,
        };
        let fields = (name, (program, program_stage_data_elements));
        let (name, (program, program_stage_data_elements)) = fields.link(alloc, ids, unknown)?;
        Ok(Stage {
            id: self.id,
            name,
            program,
            program_stage_data_elements,
        })
    }
}

impl Link for RawProgramIndicator {
    type Held = ProgramIndicatorLinks;

    ghost references = { program_indicator_references };

    ghost held = { program_indicator_held };

    #[tactic(auto, unfolding(crate::specs::Table::program_indicator_references, crate::specs::Held::program_indicator_held))]
    fn link(
        &self,
        alloc: Global,
        ids: &Ids,
        unknown: &mut Unknown,
    ) -> Result<ProgramIndicatorLinks, Memory> {
        let (kind, place) = (Kind::ProgramIndicator, self.place);
        let program = One {
            at: Field {
                kind,
                place,
                name: "program",
            },
            of: Kind::Program,
            uid: self.program,
        };
        let sharing = Shared {
            kind,
            place,
            sharing: &self.sharing,
        };
        let fields = (program, sharing);
        let (program, sharing) = fields.link(alloc, ids, unknown)?;
        Ok(ProgramIndicatorLinks { program, sharing })
    }
}

impl Link for RawRole {
    type Held = Role;

    ghost references = { role_references };

    ghost held = { role_held };

    #[tactic(auto, using(crate::proofs::Walk::parts), unfolding(crate::specs::Table::role_references, crate::specs::Held::role_held))]
    fn link(&self, alloc: Global, _ids: &Ids, _unknown: &mut Unknown) -> Result<Role, Memory> {
        let name = copy_of(alloc, &self.name)?;
        let authorities = copies_of(alloc, self.authorities.as_slice())?;
        Ok(Role {
            id: self.id,
            name,
            authorities,
        })
    }
}

impl Link for RawUser {
    type Held = User;

    ghost references = { user_references };

    ghost held = { user_held };

    #[tactic(auto, unfolding(crate::specs::Table::user_references, crate::specs::Held::user_held, crate::specs::Reference::several))]
    fn link(&self, alloc: Global, ids: &Ids, unknown: &mut Unknown) -> Result<User, Memory> {
        let (kind, place) = (Kind::User, self.place);
        let name = Text { text: &self.name };
        let organisation_units = Listed {
            each: Several {
                at: Field {
                    kind,
                    place,
                    name: "organisationUnits",
                },
                of: Kind::OrganisationUnit,
            },
            entries: &self.organisation_units,
        };
        let data_view_organisation_units = Listed {
            each: Several {
                at: Field {
                    kind,
                    place,
                    name: "dataViewOrganisationUnits",
                },
                of: Kind::OrganisationUnit,
            },
            entries: &self.data_view_organisation_units,
        };
        let user_roles = Listed {
            each: Several {
                at: Field {
                    kind,
                    place,
                    name: "userRoles",
                },
                of: Kind::UserRole,
            },
            entries: &self.user_roles,
        };
        let fields = (
            name,
            (
                (organisation_units, data_view_organisation_units),
                user_roles,
            ),
        );
        let (name, ((organisation_units, data_view_organisation_units), user_roles)) = fields.link(
            alloc, ids, unknown,
        )?;
        Ok(User {
            id: self.id,
            name,
            organisation_units,
            data_view_organisation_units,
            user_roles,
        })
    }
}

impl Link for RawUserGroup {
    type Held = UserGroup;

    ghost references = { user_group_references };

    ghost held = { user_group_held };

    #[tactic(auto, unfolding(crate::specs::Table::user_group_references, crate::specs::Held::user_group_held, crate::specs::Reference::several))]
    fn link(&self, alloc: Global, ids: &Ids, unknown: &mut Unknown) -> Result<UserGroup, Memory> {
        let (kind, place) = (Kind::UserGroup, self.place);
        let name = Text { text: &self.name };
        let users = Listed {
            each: Several {
                at: Field {
                    kind,
                    place,
                    name: "users",
                },
                of: Kind::User,
            },
            entries: &self.users,
        };
        let fields = (name, users);
        let (name, users) = fields.link(alloc, ids, unknown)?;
        Ok(UserGroup {
            id: self.id,
            name,
            users,
        })
    }
}
