//! What a data value names, and where it belongs.

ghost use Rattle.std.specs.Prelude.{◌≡◌, length, IfOk};
ghost use Rattle.dh_metadata.specs.Linked.{IsBelow};
ghost use Rattle.value_import.specs.Ranges.{IsValueWithin, AreWithin, Finds};
ghost use Rattle.value_import.specs.Values.{combo_of, attribute_of, names_of, name_conditions, place_of, unit_id, option_combo_id, element_id};
ghost use Rattle.value_import.specs.Values.{key_of, set_combo, element_combo};

use crate::names::{chosen_combo, either, has_candidate, object_named, period_named, set_of};
use crate::place::{Place, ValueNames, ValuePlace};
use dh_base::codes::Code;
use dh_changes::keys::ValueKey;
use dh_changes::text::Text;
use dh_metadata::kind::Kind;
use dh_metadata::metadata::Metadata;
use import_forms::set::{SetValue, ValueSet};

#[tactic(auto, unfolding(crate::specs::Values::combo_of, crate::specs::Values::element_combo))]
fn combo_of(meta: &Metadata, name: &Option<Text>, element: Option<u32>) -> Option<u32>
    requires { IsBelow (length meta.now.data_elements) element }
    ensures value { result ≡ combo_of meta.now name.now element }
    ensures in_range { IsBelow (length meta.now.category_option_combos) result }
{
    match element {
        Some(element) => chosen_combo(meta, name, meta.element(element).category_combo),
        None => None,
    }
}

/// The attribute option combination: the named one, if it is of the set's category combination, or
/// without a name the only one.
#[tactic(auto, unfolding(crate::specs::Values::attribute_of, crate::specs::Values::set_combo))]
pub fn attribute_of(meta: &Metadata, name: &Option<Text>, set: Option<u32>) -> Option<u32>
    requires { IsBelow (length meta.now.data_sets) set }
    ensures value { result ≡ attribute_of meta.now name.now set }
    ensures in_range { IsBelow (length meta.now.category_option_combos) result }
{
    match set {
        Some(set) => chosen_combo(meta, name, meta.data_set(set).category_combo),
        None => None,
    }
}

#[tactic(auto, unfolding(crate::specs::Values::names_of))]
fn names_of(meta: &Metadata, set: &ValueSet, value: &SetValue) -> ValueNames
    ensures value { result ≡ names_of meta.now set.now value.now }
    ensures in_range { AreWithin meta.now result }
{
    let element = object_named(meta, Kind::DataElement, &value.element);
    let unit = object_named(meta, Kind::OrganisationUnit, either(&value.unit, &set.unit));
    let period = period_named(either(&value.period, &set.period));
    let chosen = set_of(meta, &set.data_set, element, &period);
    ValueNames {
        element,
        unit,
        period,
        has_candidate: has_candidate(meta, &set.data_set, element),
        set: chosen,
        combo: combo_of(meta, &value.combo, element),
        attribute: attribute_of(meta, either(&value.attribute, &set.attribute), chosen),
    }
}

/// Where a value belongs, or the first conflict of what it names.
pub fn placed(meta: &Metadata, set: &ValueSet, value: &SetValue) -> Result<ValuePlace, Code>
    ensures found { Finds (name_conditions (names_of meta.now set.now value.now)) (place_of (names_of meta.now set.now value.now)) result }
    ensures in_range { IfOk result (IsValueWithin meta.now) }
{
    let names = names_of(meta, set, value);
    let Some(element) = names.element else {
        return Err(Code::C1);
    };
    let Some(unit) = names.unit else {
        return Err(Code::C2);
    };
    let Some(period) = names.period else {
        return Err(Code::C3);
    };
    if !names.has_candidate {
        return Err(Code::C4);
    }
    let Some(set) = names.set else {
        return Err(Code::C5);
    };
    let Some(combo) = names.combo else {
        return Err(Code::C6);
    };
    let Some(attribute) = names.attribute else {
        return Err(Code::C7);
    };
    Ok(ValuePlace {
        element,
        combo,
        at: Place {
            unit,
            period,
            set,
            attribute,
        },
    })
}

/// The key of a value.
#[tactic(auto, unfolding(crate::specs::Values::key_of, crate::specs::Values::element_id, crate::specs::Values::unit_id, crate::specs::Values::option_combo_id))]
pub fn key_of(meta: &Metadata, place: &ValuePlace) -> ValueKey
    requires { IsValueWithin meta.now place.now }
    ensures { result ≡ key_of meta.now place.now }
{
    ValueKey {
        element: meta.element(place.element).id,
        period: place.at.period,
        unit: meta.unit(place.at.unit).id,
        combo: meta.option_combo(place.combo).id,
        attribute: meta.option_combo(place.at.attribute).id,
    }
}
