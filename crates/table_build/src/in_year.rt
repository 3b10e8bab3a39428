//! The events and registrations of one year, of the keys of that year alone.
ghost use Rattle.std.specs.Prelude.{◌≡◌, IfOk};
ghost use Rattle.std.specs.List.{filter, filter_map};
ghost use Rattle.dh_changes.specs.World.{facts};
ghost use Rattle.table_sums.specs.Years.{is_event_in, is_reg_in, is_year_if_any};
ghost use Rattle.table_build.specs.InYear.{is_value_key_in, is_reg_key_in, is_place_in};
ghost use Rattle.table_build.specs.Events as tracker;
ghost use Rattle.table_build.specs.Regs as registrations;

use crate::events::{EventPlace, rows_at};
use crate::regs::regs_of;
use dh_base::memory::Memory;
use dh_changes::keys::{RegKey, ValueKey};
use dh_changes::world::World;
use dh_metadata::metadata::Metadata;
use std::alloc::Global;
use table_rows::{EventRow, RegRow};
use table_sums::day_year;

pub(crate) fn is_value_key_in(key: &ValueKey, year: &i32) -> bool
    ensures { result ≡ is_value_key_in year.now key.now }
{
    key.period.year() == *year
}

fn is_reg_key_in(key: &RegKey, year: &i32) -> bool
    ensures { result ≡ is_reg_key_in year.now key.now }
{
    key.period.year() == *year
}

pub(crate) fn is_year_if_any(found: Option<i32>, year: &i32) -> bool
    ensures { result ≡ is_year_if_any found year.now }
{
    match found {
        Some(found) => found == *year,
        None => false,
    }
}

fn is_place_in(place: &EventPlace, year: &i32) -> bool
    ensures { result ≡ is_place_in year.now place.now }
{
    is_year_if_any(day_year(place.day), year)
}

fn reg_keys_in(alloc: Global, keys: &[RegKey], year: &i32) -> Result<Vec<RegKey>, Memory>
    ensures { IfOk result (λ found. found.items ≡ filter (is_reg_key_in year.now) keys.now) }
{
    let mut found = Vec::new(alloc);
    for key in keys {
        if is_reg_key_in(key, year) {
            found.push(*key)?;
        }
    }
    Ok(found)
}

fn places_in(alloc: Global, places: &[EventPlace], year: &i32) -> Result<Vec<EventPlace>, Memory>
    ensures { IfOk result (λ found. found.items ≡ filter (is_place_in year.now) places.now) }
{
    let mut found = Vec::new(alloc);
    for place in places {
        if is_place_in(place, year) {
            found.push(*place)?;
        }
    }
    Ok(found)
}

/// The events of the year, of those at the places.
pub(crate) fn events_in(
    alloc: Global,
    meta: &Metadata,
    world: &World,
    places: &[EventPlace],
    year: &i32,
) -> Result<Vec<EventRow>, Memory>
    ensures { IfOk result (λ events. events.items
        ≡ filter (is_event_in year.now) (filter_map (tracker.event_at meta.now (facts world.now)) places.now)) }
{
    let found = places_in(alloc, places, year)?;
    let events = rows_at(alloc, meta, world, &found)?;
    Ok(events)
}

/// The registrations of the year, of those of the keys.
pub(crate) fn regs_in(
    alloc: Global,
    meta: &Metadata,
    world: &World,
    keys: &[RegKey],
    year: &i32,
) -> Result<Vec<RegRow>, Memory>
    ensures { IfOk result (λ regs. regs.items ≡ filter (is_reg_in year.now) (registrations.regs_of meta.now (facts world.now) keys.now)) }
{
    let found = reg_keys_in(alloc, keys, year)?;
    let regs = regs_of(alloc, meta, world, &found)?;
    Ok(regs)
}
