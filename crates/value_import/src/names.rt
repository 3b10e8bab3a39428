//! What texts name.

ghost use Rattle.std.specs.Prelude.{◌≡◌, ◌<◌, false, length, find};
ghost use Rattle.std.specs.Option.{option_map_or, option_or, option_to_list};
ghost use Rattle.dh_metadata.specs.declared.kind.Kind.TheVariants.{DataSet};
ghost use Rattle.dh_metadata.specs.Linked.{AreBelow, IsBelow};
ghost use Rattle.dh_metadata.specs.Objects.{count_of};
ghost use Rattle.dh_metadata.specs.Sets as sets;
ghost use Rattle.value_import.specs.Names.{object_named, period_named, if_so, has_type, chosen_combo};
ghost use Rattle.value_import.specs.Values.{has_candidate, set_of};

use dh_base::uid::Uid;
use dh_changes::text::Text;
use dh_metadata::kind::Kind;
use dh_metadata::metadata::Metadata;
use dh_periods::{Period, PeriodType};

/// The text of its own, or else the other.
pub fn either<'a>(own: &'a Option<Text>, other: &'a Option<Text>) -> &'a Option<Text>
    ensures { result.now ≡ option_or own.now other.now }
{
    match own {
        Some(_) => own,
        None => other,
    }
}

/// The object of a kind that a text names.
#[tactic(auto, unfolding(crate::specs::Names::object_named))]
pub fn object_named(meta: &Metadata, kind: Kind, text: &Option<Text>) -> Option<u32>
    ensures value { result ≡ object_named meta.now kind text.now }
    ensures in_range { IsBelow (count_of meta.now kind) result }
{
    match text {
        Some(text) => match Uid::parse(text.as_slice()) {
            Some(id) => meta.find(kind, id),
            None => None,
        },
        None => None,
    }
}

/// The period that a text names.
#[tactic(auto, unfolding(crate::specs::Names::period_named))]
pub fn period_named(text: &Option<Text>) -> Option<Period>
    ensures { result ≡ period_named text.now }
{
    match text {
        Some(text) => Period::parse(text.as_slice()),
        None => None,
    }
}

/// Whether the periods of the data set have the type.
#[tactic(auto, unfolding(crate::specs::Names::has_type))]
pub fn has_type(meta: &Metadata, kind: PeriodType, set: u32) -> bool
    requires { set < length meta.now.data_sets }
    ensures { result ≡ has_type meta.now kind set }
{
    meta.data_set(set).period_type == kind
}

fn first_typed(meta: &Metadata, kind: PeriodType, sets: &[u32]) -> Option<u32>
    requires { AreBelow (length meta.now.data_sets) sets.now }
    ensures value { result ≡ find (has_type meta.now kind) sets.now }
    ensures in_range { IsBelow (length meta.now.data_sets) result }
{
    for set in sets {
        if has_type(meta, kind, *set) {
            return Some(*set);
        }
    }
    None
}

fn named_candidate(meta: &Metadata, name: &Option<Text>, element: u32) -> Option<u32>
    ensures value { result ≡ if_so (λ set. sets.has_element meta.now set element) (object_named meta.now DataSet name.now) }
    ensures in_range { IsBelow (length meta.now.data_sets) result }
{
    match object_named(meta, Kind::DataSet, name) {
        Some(set) => {
            if meta.has_element(set, element) {
                Some(set)
            } else {
                None
            }
        }
        None => None,
    }
}

/// The data set, if its periods have the type.
pub fn typed(meta: &Metadata, kind: PeriodType, found: Option<u32>) -> Option<u32>
    requires { IsBelow (length meta.now.data_sets) found }
    ensures value { result ≡ if_so (has_type meta.now kind) found }
    ensures first { result ≡ find (has_type meta.now kind) (option_to_list found) }
    ensures in_range { IsBelow (length meta.now.data_sets) result }
{
    match found {
        Some(set) => {
            if has_type(meta, kind, set) {
                Some(set)
            } else {
                None
            }
        }
        None => None,
    }
}

/// The data set of a value: the first of the candidates for periods of the type.
#[tactic(auto, unfolding(crate::specs::Values::set_of, crate::specs::Names::chosen_set, crate::specs::Names::candidates))]
pub fn set_of(
    meta: &Metadata,
    name: &Option<Text>,
    element: Option<u32>,
    period: &Option<Period>,
) -> Option<u32>
    requires { IsBelow (length meta.now.data_elements) element }
    ensures value { result ≡ set_of meta.now name.now element period.now }
    ensures in_range { IsBelow (length meta.now.data_sets) result }
{
    let Some(element) = element else {
        return None;
    };
    let Some(period) = period else {
        return None;
    };
    match name {
        None => first_typed(meta, period.kind(), meta.sets_with(element)),
        Some(_) => typed(meta, period.kind(), named_candidate(meta, name, element)),
    }
}

/// Whether there is a data set to which a value of the element may belong.
#[tactic(auto, unfolding(crate::specs::Values::has_candidate, crate::specs::Names::candidates))]
pub fn has_candidate(meta: &Metadata, name: &Option<Text>, element: Option<u32>) -> bool
    requires { IsBelow (length meta.now.data_elements) element }
    ensures { result ≡ option_map_or (has_candidate meta.now name.now) element false }
{
    let Some(element) = element else {
        return false;
    };
    match name {
        None => meta.sets_with(element).len() != 0,
        Some(_) => named_candidate(meta, name, element).is_some(),
    }
}

/// The option combination of a category combination: the named one, if it is of it, or without a name
/// the only one.
#[tactic(auto, unfolding(crate::specs::Names::chosen_combo, crate::specs::Names::is_of), using(crate::proofs::NameLemmas::only_below))]
pub fn chosen_combo(meta: &Metadata, name: &Option<Text>, combo: u32) -> Option<u32>
    ensures value { result ≡ chosen_combo meta.now name.now combo }
    ensures in_range { IsBelow (length meta.now.category_option_combos) result }
{
    if name.is_none() {
        return meta.combos().only(combo);
    }
    match object_named(meta, Kind::CategoryOptionCombo, name) {
        Some(named) => {
            if meta.option_combo(named).category_combo == combo {
                Some(named)
            } else {
                None
            }
        }
        None => None,
    }
}
