//! What an item names, and what a subject has of it: an event alone, or the events of an enrollment.

ghost use Rattle.std.specs.Prelude.{◌≡◌, ◌==◌, ℕ, slice_get, option_and_then, option_map, map, pos, ◌*ℤ◌, IfOk, OnOk, IfSome};
ghost use Rattle.std.specs.List.{find};
ghost use Rattle.dh_base.specs.Fractions.{of_micros};
ghost use Rattle.std.specs.Option.{option_or};
ghost use Rattle.table_rows.specs.declared.event.EventRow.{EventRow};
ghost use Rattle.table_rows.specs.declared.event.ItemValue.{ItemValue};
ghost use Rattle.dh_metadata.specs.declared.kind.Kind.TheVariants as kind;
ghost use Rattle.dh_metadata.specs.Objects.{find_of};
ghost use Rattle.program_cells.specs.Items.{named_element, named_constant, named_item, day_number, number_of, held_number, held_in, last_held};
ghost use Rattle.program_cells.specs.Items.{first_of, last_of, item_in};

use dh_base::frac::Frac;
use dh_base::items::Items;
use dh_base::memory::Memory;
use dh_base::uid::Uid;
use dh_metadata::kind::Kind;
use dh_metadata::metadata::Metadata;
use expr_eval::PiItem;
use expr_lang::Item;
use std::alloc::Global;
use table_rows::{EventRow, ItemValue};

fn element(stage: Option<u32>, element: Option<u32>) -> PiItem
    ensures { result ≡ named_element stage element }
{
    match (stage, element) {
        (Some(stage), Some(element)) => PiItem::Element { stage, element },
        _ => PiItem::Nothing,
    }
}

fn constant(meta: &Metadata, id: Uid) -> PiItem
    ensures { result ≡ named_constant (option_and_then (slice_get meta.now.constants) (find_of meta.now kind.Constant id)) }
{
    match meta.find(Kind::Constant, id) {
        Some(n) => PiItem::Constant(meta.constant(n).value.value()),
        None => PiItem::Nothing,
    }
}

/// An item by the numbers of what it names.
#[tactic(auto, unfolding(crate::specs::Items::named_item))]
fn named(meta: &Metadata, item: &Item) -> PiItem
    ensures { result ≡ named_item meta.now item.now }
{
    match item {
        Item::StageElement {
            stage,
            element: held,
        } => element(
            meta.find(Kind::ProgramStage, *stage),
            meta.find(Kind::DataElement, *held),
        ),
        Item::Attribute(id) => match meta.find(Kind::TrackedEntityAttribute, *id) {
            Some(attribute) => PiItem::Attribute(attribute),
            None => PiItem::Nothing,
        },
        Item::Constant(id) => constant(meta, *id),
        Item::EventDate => PiItem::EventDate,
        Item::EnrollmentDate => PiItem::EnrollmentDate,
        _ => PiItem::Nothing,
    }
}

/// Items by the numbers of what they name, in their order.
pub(crate) fn named_items(
    alloc: Global,
    meta: &Metadata,
    items: &[Item],
) -> Result<Items<PiItem>, Memory>
    ensures { IfOk result (λ named. named ≡ map (named_item meta.now) items.now) }
{
    let mut list = Vec::new(alloc);
    for item in items {
        list.push(named(meta, item))?;
    }
    Ok(Items::from(list))
}

fn day(day: i32) -> Frac
    ensures { result ≡ day_number day }
{
    Frac::of(i128::from(day), 1)
}

/// The whole number that so many millionths are, if they are one.
fn whole_of(micros: i64) -> Option<i64>
    ensures { IfSome result (λ whole. micros ≡ whole *ℤ pos 1000000) }
{
    let whole = micros / 1_000_000;
    match whole.checked_mul(1_000_000) {
        Some(again) if again == micros => Some(whole),
        _ => None,
    }
}

/// A number by its millionths. Most are whole, and such a one is made without a division of 128 bits.
pub(crate) fn micros(micros: i64) -> Frac
    ensures { result ≡ of_micros micros }
{
    match whole_of(micros) {
        Some(whole) => Frac::of(i128::from(whole), 1),
        None => Frac::of(i128::from(micros), 1_000_000),
    }
}

fn number(value: ItemValue) -> Frac
    ensures { result ≡ number_of value }
{
    match value {
        ItemValue::Number(held) => micros(held),
        ItemValue::Day(held) => day(held),
        ItemValue::Plain => Frac::of(0, 1),
    }
}

pub(crate) fn entry_of(entries: &[(u32, ItemValue)], n: u32) -> Option<(u32, ItemValue)>
    ensures { result ≡ find (λ (entry : ℕ × ItemValue). entry.0 == n) entries.now }
{
    for entry in entries {
        if entry.0 == n {
            return Some(*entry);
        }
    }
    None
}

fn held(entries: &[(u32, ItemValue)], n: u32) -> Option<Frac>
    ensures { result ≡ held_number entries.now n }
{
    match entry_of(entries, n) {
        Some(entry) => Some(number(entry.1)),
        None => None,
    }
}

fn held_in(event: &EventRow, stage: u32, element: u32) -> Option<Frac>
    ensures { result ≡ held_in stage element event.now }
{
    if event.stage == stage {
        held(event.values.as_slice(), element)
    } else {
        None
    }
}

fn later(found: Option<Frac>, next: Option<Frac>) -> Option<Frac>
    ensures { result ≡ option_or next found }
{
    match next {
        Some(number) => Some(number),
        None => found,
    }
}

/// The value of an element in the last event that has it.
fn last_held(subject: &[EventRow], stage: u32, element: u32) -> Option<Frac>
    ensures { result ≡ last_held stage element subject.now }
{
    let mut found = None;
    for event in subject {
        found = later(found, held_in(event, stage, element));
    }
    found
}

fn attribute_of(subject: &[EventRow], attribute: u32) -> Option<Frac>
    ensures { result ≡ option_and_then (λ (event : EventRow). held_number event.attributes attribute) (first_of subject.now) }
{
    match subject.first() {
        Some(event) => held(event.attributes.as_slice(), attribute),
        None => None,
    }
}

fn event_day(subject: &[EventRow]) -> Option<Frac>
    ensures { result ≡ option_map (λ (event : EventRow). day_number event.day) (last_of subject.now) }
{
    match subject.last() {
        Some(event) => Some(day(event.day)),
        None => None,
    }
}

fn enrolled(event: &EventRow) -> Option<Frac>
    ensures { result ≡ option_map day_number event.now.enrolled }
{
    match event.enrolled {
        Some(held) => Some(day(held)),
        None => None,
    }
}

fn enrolled_day(subject: &[EventRow]) -> Option<Frac>
    ensures { result ≡ option_and_then (λ (event : EventRow). option_map day_number event.enrolled) (first_of subject.now) }
{
    match subject.first() {
        Some(event) => enrolled(event),
        None => None,
    }
}

/// The value of an item in a subject, if the subject has it.
#[tactic(auto, unfolding(crate::specs::Items::item_in))]
pub(crate) fn item(subject: &[EventRow], item: &PiItem) -> Option<Frac>
    ensures { result ≡ item_in subject.now item.now }
{
    match item {
        PiItem::Constant(value) => Some(micros(*value)),
        PiItem::Element { stage, element } => last_held(subject, *stage, *element),
        PiItem::Attribute(attribute) => attribute_of(subject, *attribute),
        PiItem::EventDate => event_day(subject),
        PiItem::EnrollmentDate => enrolled_day(subject),
        PiItem::Nothing => None,
    }
}

fn has_value(entries: &[(u32, ItemValue)], n: u32) -> bool {
    entry_of(entries, n).is_some()
}

fn has_item(event: &EventRow, item: &PiItem) -> bool {
    match item {
        PiItem::Element { stage, element } => {
            event.stage == *stage && has_value(event.values.as_slice(), *element)
        }
        PiItem::Attribute(attribute) => has_value(event.attributes.as_slice(), *attribute),
        _ => true,
    }
}

fn has_some(items: &[PiItem], subject: &[EventRow]) -> bool {
    let Some(event) = subject.last() else {
        return false;
    };
    for item in items {
        if has_item(event, item) {
            return true;
        }
    }
    false
}

/// In how many of the subjects the last event has some of the items: about so many samples need room. This reads little of each event and
/// computes nothing, so that the processor waits for many events at once; what is worked out of them afterwards finds them at hand.
pub(crate) fn likely_samples(items: &[PiItem], subjects: &[&[EventRow]]) -> usize {
    let mut count: usize = 0;
    for subject in subjects {
        if has_some(items, subject) {
            count = count.saturating_add(1);
        }
    }
    count
}

/// The values of items in a subject, into a list that may be used again.
pub(crate) fn list_items(
    entries: &mut Vec<Option<Frac>>,
    items: &[PiItem],
    subject: &[EventRow],
) -> Result<(), Memory>
    ensures { OnOk result (entries.new.items ≡ map (item_in subject.now) items.now) }
{
    entries.clear();
    for each in items {
        entries.push(item(subject, each))?;
    }
    Ok(())
}
