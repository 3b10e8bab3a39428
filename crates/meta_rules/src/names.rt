//! The objects that items name.

ghost use Rattle.std.specs.Prelude.{◌≡◌, ◌↔◌, ◌≤◌, IsTrue, Some, length, not};
ghost use Rattle.dh_metadata.specs.declared.kind.Kind.TheVariants.{ProgramStage};
ghost use Rattle.meta_rules.specs.Names.{is_there, is_absent_combo, is_missing, stage_named, stage_before, IsStageThere};

use dh_base::uid::Uid;
use dh_metadata::ids::Ids;
use dh_metadata::kind::Kind;
use expr_lang::Item;

fn is_absent(ids: &Ids, kind: Kind, id: Uid) -> bool
    ensures { result ≡ not (is_there ids.now kind id) }
{
    ids.find(kind, id).is_none()
}

fn is_absent_combo(ids: &Ids, combo: Option<Uid>) -> bool
    ensures { result ≡ is_absent_combo ids.now combo }
{
    match combo {
        None => false,
        Some(id) => is_absent(ids, Kind::CategoryOptionCombo, id),
    }
}

/// The stage that the item before a place names: most texts name one stage.
#[tactic(auto, unfolding(crate::specs::Names::stage_before))]
pub fn stage_before(items: &[Item], n: usize) -> Option<Uid>
    requires { n ≤ length items.now }
    ensures { result ≡ stage_before items.now n }
{
    if n == 0 {
        return None;
    }
    stage_named(&items[n - 1])
}

fn stage_named(item: &Item) -> Option<Uid>
    ensures { result ≡ stage_named item.now }
{
    match item {
        Item::StageElement { stage, element: _ } => Some(*stage),
        _ => None,
    }
}

/// Whether a stage is the one that is known.
pub fn is_known(known: Option<Uid>, stage: Uid) -> bool
    ensures { IsTrue result ↔ (known ≡ Some stage) }
{
    known == Some(stage)
}

#[tactic(auto, using(crate::proofs::StageLemmas::there_so))]
fn is_absent_stage(ids: &Ids, known: Option<Uid>, stage: Uid) -> bool
    requires { IsStageThere ids.now known }
    ensures { result ≡ not (is_there ids.now ProgramStage stage) }
{
    !is_known(known, stage) && is_absent(ids, Kind::ProgramStage, stage)
}

/// Whether an item names an object that isn't there. A stage may be known to be there, and isn't looked up then.
pub fn is_missing(ids: &Ids, known: Option<Uid>, item: &Item) -> bool
    requires { IsStageThere ids.now known }
    ensures { result ≡ is_missing ids.now item.now }
{
    match item {
        Item::Element {
            element,
            combo,
            attribute,
        } => {
            is_absent(ids, Kind::DataElement, *element)
                || is_absent_combo(ids, *combo)
                || is_absent_combo(ids, *attribute)
        }
        Item::Constant(id) => is_absent(ids, Kind::Constant, *id),
        Item::Group(id) => is_absent(ids, Kind::OrganisationUnitGroup, *id),
        Item::Rate { set, rate: _ } => is_absent(ids, Kind::DataSet, *set),
        Item::StageElement { stage, element } => {
            is_absent_stage(ids, known, *stage) || is_absent(ids, Kind::DataElement, *element)
        }
        Item::Attribute(id) => is_absent(ids, Kind::TrackedEntityAttribute, *id),
        Item::Days => false,
        Item::EventDate => false,
        Item::EnrollmentDate => false,
        Item::EventCount => false,
        Item::EnrollmentCount => false,
        Item::EntityCount => false,
    }
}
