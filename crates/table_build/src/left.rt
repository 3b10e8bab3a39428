//! The years in which a log leaves something, without its rows.
ghost use Rattle.std.specs.Prelude.{◌≡◌, map, true, Some, OnOk, IfOk};
ghost use Rattle.std.specs.Arc.{arc_value};
ghost use Rattle.std.specs.List.{filter_map, list_all};
ghost use Rattle.std.specs.Option.{option_to_list};
ghost use Rattle.std.specs.Ordering.{int_cmp, int_eq};
ghost use Rattle.dh_changes.specs.World.{facts};
ghost use Rattle.table_build.specs.Left as known;
ghost use Rattle.table_build.specs.Log.{writes_of};
ghost use Rattle.table_build.specs.Ordered.{put_all};

use crate::events::objects_of as event_objects;
use crate::in_year::is_year_if_any;
use crate::regs::objects_of as reg_objects;
use crate::values::objects_of as value_objects;
use crate::years::put_year;
use dh_base::memory::Memory;
use dh_base::uid::Uid;
use dh_changes::change::{Change, Write};
use dh_changes::keys::{RegKey, ValueKey};
use dh_changes::world::World;
use dh_metadata::metadata::Metadata;
use std::alloc::Global;
use std::collections::BTreeMap;
use std::sync::Arc;
use table_sums::day_year;

#[tactic(auto, unfolding(crate::specs::Left::value_year))]
fn value_year(meta: &Metadata, world: &World, key: &ValueKey) -> Option<i32>
    ensures { result ≡ known.value_year meta.now (facts world.now) key.now }
{
    let _text = world.value(key)?;
    let _objects = value_objects(meta, key)?;
    Some(key.period.year())
}

#[tactic(auto, unfolding(crate::specs::Left::reg_year))]
fn reg_year(meta: &Metadata, world: &World, key: &RegKey) -> Option<i32>
    ensures { result ≡ known.reg_year meta.now (facts world.now) key.now }
{
    let _day = world.registration(key)?;
    let _objects = reg_objects(meta, key)?;
    Some(key.period.year())
}

#[tactic(auto, unfolding(crate::specs::Left::event_year, crate::specs::Left::place_year, crate::specs::Events::place_of))]
fn event_year(meta: &Metadata, world: &World, id: Uid) -> Option<i32>
    ensures { result ≡ known.event_year meta.now (facts world.now) id }
{
    let event = world.event(id)?;
    let day = event.occurred?;
    let _objects = event_objects(meta, event)?;
    day_year(day)
}

#[tactic(auto, unfolding(crate::specs::Left::write_year))]
fn write_year(meta: &Metadata, world: &World, write: &Write) -> Option<i32>
    ensures { result ≡ known.write_year meta.now (facts world.now) write.now }
{
    match write {
        Write::ValueSet { key, .. } => value_year(meta, world, key),
        Write::ValueCleared { key } => value_year(meta, world, key),
        Write::Complete { key, .. } => reg_year(meta, world, key),
        Write::Uncomplete { key } => reg_year(meta, world, key),
        Write::EventWritten(event) => event_year(meta, world, event.get().id),
        Write::EventDeleted(id) => event_year(meta, world, *id),
        _ => None,
    }
}

// The year of what a write names, where the write itself tells it.
#[tactic(auto, unfolding(crate::specs::Left::told_year))]
fn told_year(write: &Write) -> Option<i32>
    ensures { result ≡ known.told_year write.now }
{
    match write {
        Write::ValueSet { key, .. } => Some(key.period.year()),
        Write::ValueCleared { key } => Some(key.period.year()),
        Write::Complete { key, .. } => Some(key.period.year()),
        Write::Uncomplete { key } => Some(key.period.year()),
        _ => None,
    }
}

fn is_year(found: &i32, year: &i32) -> bool
    ensures { result ≡ int_eq found.now year.now }
{
    *found == *year
}

// Whether the year is among those found.
fn is_found(years: &BTreeMap<i32, i32>, year: i32) -> bool
    ensures { result ≡ true → known.IsThere years.now.entries (Some year) }
{
    // the years ascend
    let _count = years.len();
    match years.get(&year) {
        Some(found) => is_year(found, &year),
        None => false,
    }
}

// Whether the year of what a write names is known to be among those found.
fn is_settled(years: &BTreeMap<i32, i32>, write: &Write) -> bool
    ensures { result ≡ true → known.IsThere years.now.entries (known.told_year write.now) }
{
    match told_year(write) {
        Some(year) => is_found(years, year),
        None => false,
    }
}

// Puts the year of what a write names. Most writes tell a year that was found before, and of these nothing is looked up.
fn put_write(
    years: &mut BTreeMap<i32, i32>,
    meta: &Metadata,
    world: &World,
    write: &Write,
) -> Result<(), Memory>
    ensures { OnOk result (years.new.entries
        ≡ put_all int_cmp (λ year. year) years.old.entries (option_to_list (known.write_year meta.now (facts world.now) write.now))) }
{
    if is_settled(years, write) {
        return Ok(());
    }
    match write_year(meta, world, write) {
        Some(year) => put_year(years, year),
        None => Ok(()),
    }
}

fn all_tell(writes: &[Write], year: &i32) -> bool
    ensures { result ≡ list_all (known.tells year.now) writes.now }
{
    for write in writes {
        if !is_year_if_any(told_year(write), year) {
            return false;
        }
    }
    true
}

// Whether the writes all tell the year that the first one tells, and that is among those found: the rule for values of one period.
fn are_settled(years: &BTreeMap<i32, i32>, writes: &[Write]) -> bool
    ensures { result ≡ true → known.AreThere years.now.entries writes.now }
{
    if writes.is_empty() {
        return false;
    }
    match told_year(&writes[0]) {
        Some(year) => is_found(years, year) && all_tell(writes, &year),
        None => false,
    }
}

// Puts the years of what the writes name, unless they are settled.
fn put_writes(
    years: &mut BTreeMap<i32, i32>,
    meta: &Metadata,
    world: &World,
    writes: &[Write],
) -> Result<(), Memory>
    ensures { OnOk result (years.new.entries
        ≡ put_all int_cmp (λ year. year) years.old.entries (filter_map (known.write_year meta.now (facts world.now)) writes.now)) }
{
    if are_settled(years, writes) {
        return Ok(());
    }
    for write in writes {
        put_write(years, meta, world, write)?;
    }
    Ok(())
}

/// The years of what the changes name and the world holds after them, ascending.
#[tactic(auto, unfolding(crate::specs::Left::years_named))]
pub fn years_named(
    alloc: Global,
    meta: &Metadata,
    world: &World,
    changes: &[Arc<Change>],
) -> Result<Vec<i32>, Memory>
    ensures { IfOk result (λ years. years.items ≡ known.years_named meta.now (facts world.now) (writes_of (map arc_value changes.now))) }
{
    let mut years = BTreeMap::new(alloc);
    for change in changes {
        put_writes(&mut years, meta, world, change.writes.as_slice())?;
    }
    Ok(years.into_values().collect(alloc)?)
}
