//! An update that is built by its years: the years in which something is left, a slot for the part of each, and the tables
//! of the parts.
ghost use Rattle.std.specs.Prelude.{◌≡◌, ◌<◌, ◌≤◌, length, map, get_or, set, IsTrue, IfOk, IfSome};
ghost use Rattle.std.specs.List.{AllByRecursion, list_all};
ghost use Rattle.std.specs.Arc.{arc_value};
ghost use Rattle.dh_changes.specs.Facts.{facts_in};
ghost use Rattle.dh_changes.specs.World.{facts};
ghost use Rattle.table_rows.specs.Store.{Listed, contents_in};
ghost use Rattle.table_sums.specs.YearParts.{part_of, together, years_in};
ghost use Rattle.table_build.specs.declared.slots.Slot.{Slot as YearSlot};
ghost use Rattle.table_build.specs.Log.{writes_of, is_of_days};
ghost use Rattle.table_build.specs.Listed.{listed_in};
ghost use Rattle.table_build.specs.Slots.{no_part, slot_years, have_part, lack_part, IsSlotOf, AreSlots};
ghost use Rattle.dh_base.specs.declared.limits.TheConstants.{MOST_RECORDS};

use crate::by_year::{build, build_part};
use crate::left::years_named;
use crate::reading::Reading;
use dh_base::items::Items;
use dh_base::memory::Memory;
use dh_changes::change::Change;
use dh_changes::world::World;
use dh_metadata::metadata::Metadata;
use dh_records::access::tree_of;
use std::alloc::Global;
use std::sync::Arc;
use table_sums::{Partition, Tables};

/// A year, with its part if that was made beforehand.
#[derive(Drop)]
pub struct Slot {
    pub year: i32,
    pub part: Option<Partition>,
}

/// The years in which changes leave something, ascending, and a slot for each.
#[derive(Drop)]
pub struct Plan {
    pub years: Items<i32>,
    pub slots: Vec<Slot>,
}

fn slots_for(alloc: Global, years: &[i32]) -> Result<Vec<Slot>, Memory>
    ensures { IfOk result (λ slots. slots.items ≡ map no_part years.now) }
{
    let mut slots = Vec::new(alloc);
    for year in years {
        slots.push(Slot {
            year: *year,
            part: None,
        })?;
    }
    Ok(slots)
}

/// The years in which the changes leave something, of what the world holds after them, and a slot without a part for
/// each.
pub fn plan_of(
    alloc: Global,
    meta: &Metadata,
    world: &World,
    changes: &[Arc<Change>],
) -> Result<Plan, Memory>
    requires { facts world.now ≡ facts_in (writes_of (map arc_value changes.now)) }
    ensures years { IfOk result (λ plan. plan.years ≡ (listed_in meta.now (writes_of (map arc_value changes.now))).years) }
    ensures slots { IfOk result (λ plan. AreSlots (listed_in meta.now (writes_of (map arc_value changes.now))) plan.slots.items) }
{
    // since the units are a tree, of a group no two rows have one place
    let _units = tree_of(world, meta).count();
    let years = years_named(alloc, meta, world, changes)?;
    let slots = slots_for(alloc, &years)?;
    let years = Items::from(years);
    Ok(Plan { years, slots })
}

// Where the slot of a year stands.
fn place_of(slots: &[Slot], year: i32) -> Option<usize>
    ensures within { IfSome result (λ at. at < length slots.now) }
    ensures found { IfSome result (λ at. (other : YearSlot) → (get_or slots.now at other).year ≡ year) }
{
    for at in 0..slots.len() {
        if slots[at].year == year {
            return Some(at);
        }
    }
    None
}

fn fill(slots: &mut Vec<Slot>, at: usize, slot: Slot)
    requires { at < length slots.old.items }
    ensures { slots.new.items ≡ set slots.old.items at slot }
{
    slots[at] = slot;
}

/// Puts a part into the slot of its year, if there is one. It takes no memory.
pub fn put_part(slots: &mut Vec<Slot>, part: Partition)
    ensures { (listed : Listed) → part ≡ part_of (contents_in listed) part.year → AreSlots listed slots.old.items → AreSlots listed slots.new.items }
{
    let year = part.year();
    match place_of(slots, year) {
        Some(at) => fill(
            slots,
            at,
            Slot {
                year,
                part: Some(part),
            },
        ),
        None => drop(part),
    }
}

// Whether a slot has no part.
fn lack_part(slots: &[Slot]) -> bool
    ensures { result ≡ lack_part slots.now }
{
    for slot in slots {
        if slot.part.is_none() {
            return true;
        }
    }
    false
}

// One reading of the changes for all slots that have no part; where each has one, there is none.
fn reading_for<'a>(
    alloc: Global,
    changes: &'a [Arc<Change>],
    slots: &[Slot],
) -> Result<Option<Reading<'a>>, Memory>
    ensures { IfOk result (λ reading. IfSome reading (λ read. read ≡ map arc_value changes.now)) }
{
    if lack_part(slots) {
        let reading = Reading::of(alloc, changes)?;
        Ok(Some(reading))
    } else {
        Ok(None)
    }
}

// The part in a slot, or the part that is made of the changes, by their reading if there is one.
fn part_for(
    alloc: Global,
    meta: &Metadata,
    changes: &[Arc<Change>],
    reading: &Option<Reading>,
    slot: Slot,
) -> Result<Partition, Memory>
    requires few { length (writes_of (map arc_value changes.now)) ≤ MOST_RECORDS }
    requires days { IsTrue (list_all is_of_days (writes_of (map arc_value changes.now))) }
    requires read { IfSome reading.now (λ read. read ≡ map arc_value changes.now) }
    requires slot { IsSlotOf (contents_in (listed_in meta.now (writes_of (map arc_value changes.now)))) slot }
    ensures { IfOk result (λ part. part ≡ part_of (contents_in (listed_in meta.now (writes_of (map arc_value changes.now)))) slot.year) }
{
    let Slot { year, part } = slot;
    if let Some(part) = part {
        return Ok(part);
    }
    match reading {
        Some(reading) => reading.part_of_year(alloc, meta, &year),
        None => build_part(alloc, meta, year, changes),
    }
}

// The parts of all slots.
fn parts_for(
    alloc: Global,
    meta: &Metadata,
    changes: &[Arc<Change>],
    reading: &Option<Reading>,
    slots: Vec<Slot>,
) -> Result<Vec<Partition>, Memory>
    requires few { length (writes_of (map arc_value changes.now)) ≤ MOST_RECORDS }
    requires days { IsTrue (list_all is_of_days (writes_of (map arc_value changes.now))) }
    requires read { IfSome reading.now (λ read. read ≡ map arc_value changes.now) }
    requires slots { AllByRecursion (IsSlotOf (contents_in (listed_in meta.now (writes_of (map arc_value changes.now))))) slots.items }
    ensures { IfOk result (λ parts. parts.items
        ≡ map (part_of (contents_in (listed_in meta.now (writes_of (map arc_value changes.now))))) (slot_years slots.items)) }
{
    let mut parts = Vec::new(alloc);
    for slot in slots {
        parts.push(part_for(alloc, meta, changes, reading, slot)?)?;
    }
    Ok(parts)
}

// Whether a slot has a part.
fn have_part(slots: &[Slot]) -> bool
    ensures { result ≡ have_part slots.now }
{
    for slot in slots {
        if slot.part.is_some() {
            return true;
        }
    }
    false
}

// Up to so many years their parts are made one after the other, so that the rows of one year alone stand in memory beside the parts.
// For more, reading the log for each would cost more time.
const FEW_YEARS: usize = 8;

/// The tables that the changes leave, of the parts in these slots and of parts that are made for the others. Where no slot
/// has a part and there are more than a few years, the log is read once for all of them.
pub fn build_with(
    alloc: Global,
    meta: &Metadata,
    changes: &[Arc<Change>],
    slots: Vec<Slot>,
) -> Result<Tables, Memory>
    requires few { length (writes_of (map arc_value changes.now)) ≤ MOST_RECORDS }
    requires days { IsTrue (list_all is_of_days (writes_of (map arc_value changes.now))) }
    requires slots { AreSlots (listed_in meta.now (writes_of (map arc_value changes.now))) slots.items }
    ensures contents { IfOk result (λ tables. together tables.parts ≡ contents_in (listed_in meta.now (writes_of (map arc_value changes.now)))) }
    ensures years { IfOk result (λ tables. years_in tables.parts ≡ (listed_in meta.now (writes_of (map arc_value changes.now))).years) }
    ensures base_cut { IfOk result (λ tables. tables.base_cut ≡ length changes.now) }
{
    if slots.len() > FEW_YEARS && !have_part(&slots) {
        drop(slots);
        return build(alloc, meta, changes);
    }
    let reading = reading_for(alloc, changes, &slots)?;
    let parts = parts_for(alloc, meta, changes, &reading, slots);
    // the log is read once for the parts that are made, and the reading is given back before they are used
    drop(reading);
    let tables = Tables::of(alloc, parts?, changes.len() as u64)?;
    Ok(tables)
}
