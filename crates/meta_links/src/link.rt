//! All objects of a file with their references as numbers.
ghost use Rattle.std.specs.Prelude.{◌≡◌, IfOk, OnOk};
ghost use Rattle.meta_links.specs.Groups.{AreAssembled};
ghost use Rattle.meta_links.specs.Held.{links_of};
ghost use Rattle.meta_links.specs.Table.{references};
ghost use Rattle.dh_base.specs.Memory.{Finds};
ghost use Rattle.meta_links.specs.Reference.{first_unknown};
ghost use Rattle.meta_links.specs.Told.{after, link_cause};

use crate::built_in::{AllCombos, AllOptionCombos};
use crate::entries::Listed;
use crate::fault::LinkFault;
use crate::link_each::Link;
use crate::tokens::Tokens;
use crate::unknown::Unknown;
use dh_base::items::Items;
use dh_base::memory::Memory;
use dh_metadata::held::Links;
use dh_metadata::ids::Ids;
use dh_metadata::parts::MetaParts;
use dh_metadata::records::{
    ApprovalLevel, Attribute, Category, CategoryCombo, CategoryOption, Constant, DataSet, Element,
    EntityType, IndicatorLinks, IndicatorType, OptionCombo, Program, ProgramIndicatorLinks, Role,
    Stage, Unit, UnitGroup, User, UserGroup, Workflow,
};
use dh_sharing::rule::Sharing;
use std::alloc::Global;

// The objects of a file by their kinds, in the order of the kinds, and the tokens last.
type Units = (
    Items<Unit>,
    (Items<UnitGroup>, (Items<CategoryOption>, Items<Category>)),
);

type Combos = (
    Items<CategoryCombo>,
    (Items<OptionCombo>, (Items<Element>, Items<ApprovalLevel>)),
);

type Sets = (
    Items<Workflow>,
    (Items<DataSet>, (Items<Constant>, Items<IndicatorType>)),
);

type Rules = (
    Items<IndicatorLinks>,
    (Items<Sharing>, (Items<EntityType>, Items<Attribute>)),
);

type Programs = (Items<Program>, (Items<Stage>, Items<ProgramIndicatorLinks>));

type Users = (Items<Role>, (Items<User>, Items<UserGroup>));

type Others = (Users, Items<(Items<u8>, u32)>);

type Groups = (Units, (Combos, (Sets, (Rules, (Programs, Others)))));

/// All objects with their references as numbers, a built-in object before those of its kind.
#[tactic(auto, using(crate::proofs::Walk::after_nothing))]
pub fn link(alloc: Global, ids: &Ids, parts: &MetaParts) -> Result<Links, LinkFault>
    ensures { Finds link_cause (first_unknown ids.now (references parts.now)) (λ links. links ≡ links_of ids.now parts.now) result }
{
    let mut unknown = Unknown::new();
    let links = look_up(alloc, ids, &mut unknown, parts)?;
    match unknown.into_first() {
        None => Ok(links),
        Some((uid, path)) => {
            drop(links);
            Err(LinkFault::Unknown { uid, path })
        }
    }
}

fn look_up(
    alloc: Global,
    ids: &Ids,
    unknown: &mut Unknown,
    parts: &MetaParts,
) -> Result<Links, Memory>
    ensures held { IfOk result (λ links. links ≡ links_of ids.now parts.now) }
    ensures told { OnOk result (unknown.new ≡ after ids.now unknown.old (references parts.now)) }
{
    let combos = AllCombos {
        named: &parts.category_combos,
    };
    let option_combos = AllOptionCombos {
        named: &parts.category_option_combos,
    };
    let units = (
        &parts.organisation_units,
        (
            &parts.organisation_unit_groups,
            (&parts.category_options, &parts.categories),
        ),
    );
    let combos = (
        combos,
        (
            option_combos,
            (&parts.data_elements, &parts.data_approval_levels),
        ),
    );
    let sets = (
        &parts.data_approval_workflows,
        (&parts.data_sets, (&parts.constants, &parts.indicator_types)),
    );
    let rules = (
        &parts.indicators,
        (
            &parts.validation_rules,
            (
                &parts.tracked_entity_types,
                &parts.tracked_entity_attributes,
            ),
        ),
    );
    let programs = (
        &parts.programs,
        (&parts.program_stages, &parts.program_indicators),
    );
    let users = (&parts.user_roles, (&parts.users, &parts.user_groups));
    let tokens = Listed {
        each: Tokens {},
        entries: &parts.api_tokens,
    };
    let groups = (
        units,
        (combos, (sets, (rules, (programs, (users, tokens))))),
    );
    all_links(groups.link(alloc, ids, unknown))
}

// The objects of all kinds, if they were found.
fn all_links(found: Result<Groups, Memory>) -> Result<Links, Memory>
    ensures { AreAssembled found result }
{
    let (units, (combos, (sets, (rules, (programs, (users, api_tokens)))))) = match found {
        Ok(groups) => groups,
        Err(error) => return Err(error),
    };
    let (organisation_units, (organisation_unit_groups, (category_options, categories))) = units;
    let (category_combos, (category_option_combos, (data_elements, data_approval_levels))) = combos;
    let (data_approval_workflows, (data_sets, (constants, indicator_types))) = sets;
    let (indicators, (validation_rules, (tracked_entity_types, tracked_entity_attributes))) = rules;
    let (programs, (program_stages, program_indicators)) = programs;
    let (user_roles, (users, user_groups)) = users;
    Ok(Links {
        organisation_units,
        organisation_unit_groups,
        category_options,
        categories,
        category_combos,
        category_option_combos,
        data_elements,
        data_approval_levels,
        data_approval_workflows,
        data_sets,
        constants,
        indicator_types,
        indicators,
        validation_rules,
        tracked_entity_types,
        tracked_entity_attributes,
        programs,
        program_stages,
        program_indicators,
        user_roles,
        users,
        user_groups,
        api_tokens,
    })
}
