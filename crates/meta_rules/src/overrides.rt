//! Category combinations that data sets name for their elements.

ghost use Rattle.std.specs.Prelude.{◌≡◌, Option, length, is_some};
ghost use Rattle.org_tree.specs.Count.{first_below};
ghost use Rattle.meta_rules.specs.Overrides.{differs, entry_overrides, set_overrides, override_fault, override_broken};

use crate::fault::{BrokenRule, RuleFault};
use crate::item::item_at;
use dh_base::uid::Uid;
use dh_metadata::raw::{RawDataSet, RawElement};
use dh_metadata::records::DataSet;

/// Whether the combination that is named for an element is another one than its own.
fn differs(elements: &[RawElement], element: u32, named: Option<Uid>) -> bool
    ensures { result ≡ differs elements.now element named }
{
    match named {
        None => false,
        Some(combo) => match item_at(elements, element as usize) {
            None => false,
            Some(found) => found.category_combo != combo,
        },
    }
}

fn entry_overrides(
    elements: &[RawElement],
    numbers: &[u32],
    entries: &[(Uid, Option<Uid>)],
    place: usize,
) -> bool
    ensures { result ≡ entry_overrides elements.now numbers.now entries.now place }
{
    match item_at(entries, place) {
        None => false,
        Some(entry) => match item_at(numbers, place) {
            None => false,
            Some(number) => differs(elements, *number, entry.1),
        },
    }
}

#[tactic(auto, using(org_tree::proofs::CountLemmas::searches))]
fn overrides(elements: &[RawElement], numbers: &[u32], entries: &[(Uid, Option<Uid>)]) -> bool
    ensures { result ≡ is_some (first_below (entry_overrides elements.now numbers.now entries.now) (length entries.now)) }
{
    for place in 0..entries.len() {
        if entry_overrides(elements, numbers, entries, place) {
            return true;
        }
    }
    false
}

fn set_overrides(
    elements: &[RawElement],
    raw: &[RawDataSet],
    sets: &[DataSet],
    place: usize,
) -> bool
    ensures { result ≡ set_overrides elements.now raw.now sets.now place }
{
    match item_at(raw, place) {
        None => false,
        Some(from) => match item_at(sets, place) {
            None => false,
            Some(set) => overrides(
                elements,
                set.data_set_elements.as_slice(),
                from.data_set_elements.as_slice(),
            ),
        },
    }
}

fn fault_at(raw: &[RawDataSet], place: usize) -> RuleFault
    ensures { result ≡ override_fault raw.now place }
{
    let uid = match item_at(raw, place) {
        Some(set) => Some(set.id),
        None => None,
    };
    RuleFault {
        uid,
        which: BrokenRule::Override,
    }
}

/// The first data set that has an element with another category combination than the element's own.
/// `raw` has the data sets of the file, and `sets` the same with the numbers of their elements.
#[tactic(auto, using(org_tree::proofs::CountLemmas::searches), unfolding(crate::specs::Overrides::override_broken))]
pub fn first_override(
    elements: &[RawElement],
    raw: &[RawDataSet],
    sets: &[DataSet],
) -> Option<RuleFault>
    ensures { result ≡ override_broken elements.now raw.now sets.now }
{
    for place in 0..raw.len() {
        if set_overrides(elements, raw, sets, place) {
            return Some(fault_at(raw, place));
        }
    }
    None
}
