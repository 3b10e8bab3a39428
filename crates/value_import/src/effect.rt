//! What a data value comes to.

ghost use Rattle.std.specs.Prelude.{◌≡◌, ◌<◌, length, unwrap_or, [], IfOk};
ghost use Rattle.dh_changes.specs.World.{facts};
ghost use Rattle.value_import.specs.Outcomes.{IsKnown};
ghost use Rattle.value_import.specs.Ranges.{IsValueWithin};
ghost use Rattle.value_import.specs.Rules.{first_of};
ghost use Rattle.value_import.specs.Values.{is_delete, has_value, is_summed, is_zero, is_idle_zero};
ghost use Rattle.value_import.specs.Values.{is_approved, value_conditions, stored, accepted};

use crate::asking::Asking;
use crate::judged::Judged;
use crate::place::ValuePlace;
use crate::rules::{is_expired, is_future};
use crate::strategy::{is_delete_all, is_misplaced};
use dh_base::codes::Code;
use dh_base::memory::Memory;
use dh_base::plain::AggType;
use dh_changes::change::Write;
use dh_changes::keys::ValueKey;
use dh_changes::outcome::{ImportStrategy, Who};
use dh_changes::text::Text;
use dh_changes::world::World;
use dh_metadata::metadata::Metadata;
use dh_metadata::records::Element;
use dh_records::approved::approved_position_of;
use dh_records::number::{is_numeric, number_of};
use dh_records::value::fits;
use import_forms::set::SetValue;
use std::alloc::Global;

/// The key of a value, and whether it holds one.
#[derive(Clone, Copy)]
pub struct Slot {
    pub key: ValueKey,
    pub held: bool,
}

/// Whether the value is to be taken away.
#[tactic(auto, unfolding(crate::specs::Values::is_delete))]
pub fn is_delete(strategy: ImportStrategy, value: &SetValue) -> bool
    ensures { result ≡ is_delete strategy value.now }
{
    is_delete_all(strategy) || value.deleted
}

#[tactic(auto, unfolding(crate::specs::Values::has_value))]
fn has_value(meta: &Metadata, element: u32, text: &Option<Text>) -> bool
    requires { element < length meta.now.data_elements }
    ensures { result ≡ has_value meta.now element text.now }
{
    match text {
        Some(text) => fits(meta.element(element).value_type, text.as_slice()),
        None => false,
    }
}

fn is_summed(kind: AggType) -> bool
    ensures { result ≡ is_summed kind }
{
    match kind {
        AggType::Sum => true,
        _ => false,
    }
}

#[tactic(auto, unfolding(crate::specs::Values::is_zero))]
fn is_zero(element: &Element, text: &[u8]) -> bool
    ensures { result ≡ is_zero element.now text.now }
{
    if !is_numeric(element.value_type) {
        return false;
    }
    match number_of(element.value_type, text) {
        Some(number) => number.value() == 0,
        None => false,
    }
}

#[tactic(auto, unfolding(crate::specs::Values::is_idle_zero))]
fn is_idle_zero(meta: &Metadata, element: u32, text: &[u8]) -> bool
    requires { element < length meta.now.data_elements }
    ensures { result ≡ is_idle_zero meta.now element text.now }
{
    let found = meta.element(element);
    is_summed(found.aggregation_type) && (!found.zero_is_significant && is_zero(found, text))
}

#[tactic(auto, unfolding(crate::specs::Values::is_approved, crate::specs::Values::option_combo_id))]
fn is_approved(world: &World, meta: &Metadata, place: &ValuePlace) -> bool
    requires { IsValueWithin meta.now place.now }
    ensures { result ≡ is_approved (facts world.now) meta.now place.now }
{
    let attribute = meta.option_combo(place.at.attribute).id;
    let position = approved_position_of(
        world,
        meta,
        place.element,
        place.at.unit,
        place.at.period,
        attribute,
    );
    position.is_some()
}

/// The first condition on a value in its place that holds; `held` says whether its key holds a value.
#[tactic(auto, unfolding(crate::specs::Values::value_conditions))]
pub fn value_condition(
    asking: &Asking<'_>,
    strategy: ImportStrategy,
    held: bool,
    place: &ValuePlace,
    value: &SetValue,
) -> Option<Code>
    requires who { IsKnown asking.now.meta.now asking.now.who }
    requires place { IsValueWithin asking.now.meta.now place.now }
    ensures { result ≡ first_of (value_conditions (facts asking.now.world.now) asking.now.meta.now asking.now.who asking.now.today
        strategy held place.now value.now) }
{
    let deletes = is_delete(strategy, value);
    if !deletes && !has_value(asking.meta, place.element, &value.value) {
        return Some(Code::C11);
    }
    if let Who::User(user) = asking.who {
        if is_future(asking.meta, asking.today, &place.at) {
            return Some(Code::C12);
        }
        if is_expired(asking.meta, asking.today, &place.at, user) {
            return Some(Code::C13);
        }
        if is_approved(asking.world, asking.meta, place) {
            return Some(Code::C14);
        }
    }
    if is_misplaced(strategy, deletes, held) {
        return Some(Code::C15);
    }
    None
}

fn text_of(text: &Option<Text>) -> &[u8]
    ensures { result.now ≡ unwrap_or text.now [] }
{
    match text {
        Some(text) => text.as_slice(),
        None => &[],
    }
}

fn stored(alloc: Global, key: ValueKey, held: bool, text: &[u8]) -> Result<Judged, Memory>
    ensures { IfOk result (λ judged. judged ≡ stored key held text.now) }
{
    let value = Text::of(alloc, text)?;
    let write = Write::ValueSet { key, value };
    if held {
        Ok(Judged::Updated(write))
    } else {
        Ok(Judged::Imported(write))
    }
}

/// What a value without a conflict comes to.
#[tactic(auto, unfolding(crate::specs::Values::accepted))]
pub fn accepted(
    alloc: Global,
    meta: &Metadata,
    strategy: ImportStrategy,
    slot: Slot,
    element: u32,
    value: &SetValue,
) -> Result<Judged, Memory>
    requires { element < length meta.now.data_elements }
    ensures { IfOk result (λ judged. judged ≡ accepted meta.now strategy slot.key slot.held element value.now) }
{
    if is_delete(strategy, value) {
        return Ok(Judged::Deleted(Write::ValueCleared { key: slot.key }));
    }
    let text = text_of(&value.value);
    if is_idle_zero(meta, element, text) {
        return Ok(if slot.held {
            Judged::Deleted(Write::ValueCleared { key: slot.key })
        } else {
            Judged::Ignored
        });
    }
    stored(alloc, slot.key, slot.held, text)
}
