//! Samples of events that are millionths, as the value of each item is.
ghost use Rattle.std.specs.Prelude.{◌≡◌, ◌<◌, ◌^◌, ◌*ℤ◌, ◌+ℤ◌, ◌+◌, ◌++◌, ◌∷◌, [], ℕ, List, Some, pos, length, get_or, map, unsigned_abs, option_map};
ghost use Rattle.std.specs.Prelude.{option_and_then, IfOk, OnOk, IfSome};
ghost use Rattle.std.specs.Option.{unwrap_or};
ghost use Rattle.dh_base.specs.Fractions.{of_micros, add_of};
ghost use Rattle.expr_eval.specs.Meaning.{zero_fraction};
ghost use Rattle.program_cells.specs.Code.{gathered};
ghost use Rattle.program_cells.specs.Items.{day_number, number_of, held_number, held_in};
ghost use Rattle.program_cells.specs.Sampled.{item_sample};
ghost use Rattle.program_cells.specs.Tally.{micro_sample, taken_at, summed, numbered};
ghost use Rattle.program_cells.specs.Value.{aggregated, unless_fault};

use crate::items::{entry_of, micros};
use crate::placed::items_at;
use crate::samples::aggregate;
use crate::tally::tallied;
use dh_base::frac::Frac;
use dh_base::memory::Memory;
use dh_base::plain::AggType;
use expr_eval::PiItem;
use std::alloc::Global;
use table_rows::{EventRow, ItemValue};

/// The millionths of a day.
fn day(day: i32) -> i64
    ensures { result ≡ day *ℤ pos 1000000 }
{
    i64::from(day) * 1_000_000
}

/// The millionths of a value.
#[tactic(auto, using(crate::proofs::MicroLemmas::day_micros, crate::proofs::MicroLemmas::zero_micros))]
fn number(value: ItemValue) -> i64
    ensures { number_of value ≡ of_micros result }
{
    match value {
        ItemValue::Number(held) => held,
        ItemValue::Day(held) => day(held),
        ItemValue::Plain => 0,
    }
}

/// The millionths of the value that an element or attribute has among those that are held, or 0.
fn held(entries: &[(u32, ItemValue)], n: u32) -> i64
    ensures { unwrap_or (held_number entries.now n) zero_fraction ≡ of_micros result }
{
    match entry_of(entries, n) {
        Some(entry) => number(entry.1),
        None => 0,
    }
}

fn held_in(event: &EventRow, stage: u32, element: u32) -> i64
    ensures { unwrap_or (held_in stage element event.now) zero_fraction ≡ of_micros result }
{
    if event.stage == stage {
        held(event.values.as_slice(), element)
    } else {
        0
    }
}

fn enrolled(event: &EventRow) -> i64
    ensures { unwrap_or (option_map day_number event.now.enrolled) zero_fraction ≡ of_micros result }
{
    match event.enrolled {
        Some(held) => day(held),
        None => 0,
    }
}

/// The millionths of the value of an item in an event alone, or 0.
#[tactic(auto, unfolding(crate::specs::Items::item_in))]
fn item(item: &PiItem, event: &EventRow) -> i64
    ensures { micro_sample result ≡ item_sample item.now event.now }
{
    match item {
        PiItem::Constant(value) => *value,
        PiItem::Element { stage, element } => held_in(event, *stage, *element),
        PiItem::Attribute(attribute) => held(event.attributes.as_slice(), *attribute),
        PiItem::EventDate => day(event.day),
        PiItem::EnrollmentDate => enrolled(event),
        PiItem::Nothing => 0,
    }
}

fn put(found: &mut Vec<i64>, micros: i64) -> Result<(), Memory>
    ensures { OnOk result (found.new.items ≡ found.old.items ++ micros ∷ []) }
{
    if found.len() == found.capacity() {
        found.reserve(1)?;
    }
    found.push_reserved(micros);
    Ok(())
}

/// The same of each event.
pub(crate) fn micros_of(
    alloc: Global,
    asked: &PiItem,
    events: &[&EventRow],
) -> Result<Vec<i64>, Memory>
    ensures { IfOk result (λ found. map micro_sample found.items ≡ map (item_sample asked.now) (map (λ event. event.now) events.now)) }
{
    let mut found = Vec::with_capacity(alloc, events.len())?;
    for event in events {
        put(&mut found, item(asked, event))?;
    }
    Ok(found)
}

/// A number of millionths.
#[derive(Clone, Copy)]
struct MicroSum {
    number: i128,
}

// The first size that isn't taken.
const LIMIT: u128 = 1 << 100;

fn plus(sum: &MicroSum, more: i64) -> i128
    requires { unsigned_abs sum.now.number < 2 ^ 100 }
    ensures { result ≡ sum.now.number +ℤ more }
{
    sum.number + i128::from(more)
}

/// A number more, if the sum isn't too wide.
fn with_micros(sum: &MicroSum, more: i64) -> Option<MicroSum>
    requires { unsigned_abs sum.now.number < 2 ^ 100 }
    ensures next { IfSome result (λ next. unless_fault (add_of (of_micros sum.now.number) (of_micros more)) ≡ Some (of_micros next.number)) }
    ensures fits { IfSome result (λ next. unsigned_abs next.number < 2 ^ 100) }
{
    let number = plus(sum, more);
    if number.unsigned_abs() < LIMIT {
        Some(MicroSum { number })
    } else {
        None
    }
}

fn at(list: &[i64], place: usize) -> i64
    requires { place < length list.now }
    ensures { result ≡ get_or list.now place (pos 0) }
{
    list[place]
}

fn with_place(sum: &MicroSum, list: &[i64], place: usize) -> Option<MicroSum>
    requires { unsigned_abs sum.now.number < 2 ^ 100 }
    ensures sum { (rest : List ℕ) → IfSome result (λ next. summed 1000000 sum.now.number (taken_at micro_sample list.now (place ∷ rest))
        ≡ summed 1000000 next.number (taken_at micro_sample list.now rest)) }
    ensures count { (count : ℕ) (rest : List ℕ) → IfSome result (λ _. numbered count (taken_at micro_sample list.now (place ∷ rest))
        ≡ numbered (count + 1) (taken_at micro_sample list.now rest)) }
    ensures fits { IfSome result (λ next. unsigned_abs next.number < 2 ^ 100) }
{
    if place < list.len() {
        with_micros(sum, at(list, place))
    } else {
        None
    }
}

/// The sum of those at these places.
fn sum_at(list: &[i64], places: &[usize]) -> Option<MicroSum>
    ensures sum { IfSome result (λ sum. summed 1 (pos 0) (taken_at micro_sample list.now places.now) ≡ Some (of_micros sum.number)) }
    ensures count { IfSome result (λ _. numbered 0 (taken_at micro_sample list.now places.now) ≡ Some (length places.now)) }
    ensures fits { IfSome result (λ sum. unsigned_abs sum.number < 2 ^ 100) }
{
    let mut sum = MicroSum { number: 0 };
    for place in places {
        match with_place(&sum, list, *place) {
            Some(next) => sum = next,
            None => return None,
        }
    }
    Some(sum)
}

/// The one number of those at these places by the aggregation type, where their sum and their number tell it.
fn value_by_sum(by: AggType, list: &[i64], places: &[usize]) -> Option<Option<Option<Frac>>>
    ensures { IfSome result (λ value. option_and_then (aggregated by) (gathered (taken_at micro_sample list.now places.now)) ≡ value) }
{
    let sum = sum_at(list, places)?;
    tallied(by, Frac::of(sum.number, 1_000_000), places.len())
}

fn numbers(alloc: Global, list: &[i64]) -> Result<Vec<Frac>, Memory>
    ensures { IfOk result (λ found. found.items ≡ map (λ each. of_micros each) list.now) }
{
    let mut found = Vec::with_capacity(alloc, list.len())?;
    for each in list {
        found.push(micros(*each))?;
    }
    Ok(found)
}

fn value_by_list(
    alloc: Global,
    by: AggType,
    list: &[i64],
    places: &[usize],
) -> Result<Option<Option<Frac>>, Memory>
    ensures { IfOk result (λ value. value ≡ option_and_then (aggregated by) (gathered (taken_at micro_sample list.now places.now))) }
{
    let taken = items_at(alloc, list, places)?;
    let found = numbers(alloc, &taken)?;
    Ok(aggregate(by, &found))
}

/// The one number of those at these places by the aggregation type.
pub(crate) fn aggregate_at(
    alloc: Global,
    by: AggType,
    list: &[i64],
    places: &[usize],
) -> Result<Option<Option<Frac>>, Memory>
    ensures { IfOk result (λ value. value ≡ option_and_then (aggregated by) (gathered (taken_at micro_sample list.now places.now))) }
{
    match value_by_sum(by, list, places) {
        Some(value) => Ok(value),
        None => value_by_list(alloc, by, list, places),
    }
}
