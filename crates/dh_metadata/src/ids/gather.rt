//! The identifiers of each kind, taken out of the records of a file.

ghost use Rattle.std.specs.Prelude.{◌≡◌, ◌++◌, ◌∷◌, [], IfOk, map};
ghost use Rattle.dh_metadata.specs.Ids.{ids_in, ids_of};
ghost use Rattle.dh_metadata.specs.declared.kind.Kind.TheVariants.{CategoryCombo, CategoryOptionCombo, DataElement, ApprovalLevel, Workflow, DataSet};
ghost use Rattle.dh_metadata.specs.declared.kind.Kind.TheVariants.{Constant, IndicatorType, Indicator, ValidationRule, TrackedEntityType};
ghost use Rattle.dh_metadata.specs.declared.kind.Kind.TheVariants.{TrackedEntityAttribute, Program, ProgramStage};

use crate::built_in::{default_combo, default_option_combo};
use crate::ids::has_id::HasId;
use crate::ids::lists::Lists;
use crate::parts::MetaParts;
use dh_base::items::Items;
use dh_base::memory::Memory;
use std::alloc::Global;

/// The identifiers of each kind, in the order of the kinds.
#[tactic(auto, unfolding(crate::specs::Ids::ids_of))]
pub fn lists_of(alloc: Global, parts: &MetaParts) -> Result<Lists, Memory>
    ensures { IfOk result (λ lists. lists ≡ ids_of parts.now) }
{
    let lists = add_four(
        Lists::new(alloc),
        &parts.organisation_units,
        &parts.organisation_unit_groups,
        &parts.category_options,
        &parts.categories,
    )?;
    let lists = add_combos(lists, parts)?;
    let lists = add_middle(lists, parts)?;
    add_four(
        lists,
        &parts.program_indicators,
        &parts.user_roles,
        &parts.users,
        &parts.user_groups,
    )
}

fn add_combos(lists: Lists, parts: &MetaParts) -> Result<Lists, Memory>
    ensures { IfOk result (λ all. all ≡ lists ++ map (ids_in parts.now) (CategoryCombo ∷ CategoryOptionCombo ∷ [])) }
{
    let lists = lists.add(&[default_combo()], &parts.category_combos)?;
    lists.add(&[default_option_combo()], &parts.category_option_combos)
}

// The kinds that stand after the combinations and before the last four.
fn add_middle(lists: Lists, parts: &MetaParts) -> Result<Lists, Memory>
    ensures { IfOk result (λ all. all ≡ lists ++ map (ids_in parts.now)
        (DataElement ∷ ApprovalLevel ∷ Workflow ∷ DataSet ∷ Constant ∷ IndicatorType ∷ Indicator ∷ ValidationRule ∷ TrackedEntityType ∷
        TrackedEntityAttribute ∷ Program ∷ ProgramStage ∷ [])) }
{
    let lists = add_four(
        lists,
        &parts.data_elements,
        &parts.data_approval_levels,
        &parts.data_approval_workflows,
        &parts.data_sets,
    )?;
    let lists = add_four(
        lists,
        &parts.constants,
        &parts.indicator_types,
        &parts.indicators,
        &parts.validation_rules,
    )?;
    add_four(
        lists,
        &parts.tracked_entity_types,
        &parts.tracked_entity_attributes,
        &parts.programs,
        &parts.program_stages,
    )
}

// With the identifiers of four kinds more that have no built-in objects.
fn add_four<A: HasId, B: HasId, C: HasId, D: HasId>(
    lists: Lists,
    first: &Items<A>,
    second: &Items<B>,
    third: &Items<C>,
    fourth: &Items<D>,
) -> Result<Lists, Memory>
    ensures { IfOk result (λ all. all ≡ lists ++ (map A.id_of first.now ∷ map B.id_of second.now ∷ map C.id_of third.now ∷ map D.id_of fourth.now ∷ [])) }
{
    let lists = lists.add(&[], first)?;
    let lists = lists.add(&[], second)?;
    let lists = lists.add(&[], third)?;
    lists.add(&[], fourth)
}
