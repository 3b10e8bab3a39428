//! A list of changes that is read once for the parts of all its years.
ghost use Rattle.std.specs.Prelude.{◌≡◌, ◌≤◌, length, map, IsTrue, IfOk};
ghost use Rattle.std.specs.List.{list_all};
ghost use Rattle.std.specs.Arc.{arc_value};
ghost use Rattle.dh_changes.specs.World.{facts};
ghost use Rattle.table_build.specs.Events as tracker;
ghost use Rattle.table_build.specs.Log as log;
ghost use Rattle.table_build.specs.Log.{writes_of, is_of_days};
ghost use Rattle.table_build.specs.Listed.{listed_in};
ghost use Rattle.table_rows.specs.Store.{contents_in};
ghost use Rattle.table_sums.specs.YearParts.{part_of, together, years_in};
ghost use Rattle.dh_base.specs.declared.limits.TheConstants.{MOST_RECORDS};

use crate::events::{EventPlace, places_of, rows_at};
use crate::in_year::{events_in, regs_in};
use crate::named::named_in;
use crate::others::with_others;
use crate::placed::rows_left;
use crate::regs::regs_of;
use crate::world::world_of;
use crate::years::years_of;
use dh_base::memory::Memory;
use dh_base::uid::Uid;
use dh_changes::change::Change;
use dh_changes::keys::RegKey;
use dh_changes::world::World;
use dh_metadata::metadata::Metadata;
use dh_records::access::tree_of;
use std::alloc::Global;
use std::marker::Model;
use std::sync::Arc;
use table_sums::{Partition, Tables, part_from, tables_of};

/// A list of changes, and what several builders of their years share: the world after the changes that write something else than
/// data values, the keys of the registrations that they name, and the places of the events. The values of a year are read by its
/// builder. Contracts see the changes.
#[derive(Drop)]
pub struct Reading<'a> {
    changes: &'a [Arc<Change>],
    world: World,
    regs: Vec<RegKey>,
    places: Vec<EventPlace>,
}

impl<'a> Model for Reading<'a> {
    ghost use Rattle.std.specs.Arc.{arc_value};
    ghost use Rattle.std.specs.Prelude.{List, map};
    ghost use Rattle.dh_changes.specs.declared.change.Change.{Change};
    ghost use Rattle.dh_changes.specs.World.{facts};
    ghost use Rattle.table_build.specs.Reading.{IsReadOf};

    ghost Value = { List Change };

    ghost view = { λ reading. map arc_value reading.changes.now };

    ghost invariant = { λ reading. IsReadOf (map arc_value reading.changes.now) (facts reading.world) reading.regs.items reading.places.items };
}

// The places of the events that the changes name, of what the world holds after them.
fn places_named(
    alloc: Global,
    world: &World,
    changes: &[Arc<Change>],
) -> Result<Vec<EventPlace>, Memory>
    ensures { IfOk result (λ places. places.items ≡ tracker.places_of (facts world.now) (log.events_named (writes_of (map arc_value changes.now)))) }
{
    let ids: Vec<Uid> = named_in(alloc, changes)?;
    places_of(alloc, world, &ids)
}

impl<'a> Reading<'a> {
    /// Reads the changes. A part of each of their years can be made of this without reading them again.
    pub fn of(alloc: Global, changes: &'a [Arc<Change>]) -> Result<Reading<'a>, Memory>
        ensures { IfOk result (λ reading. reading ≡ map arc_value changes.now) }
    {
        let others = with_others(alloc, changes)?;
        Reading::with(alloc, changes, &others)
    }

    // Reads the changes, of which these write something else than data values.
    fn with(
        alloc: Global,
        changes: &'a [Arc<Change>],
        others: &[Arc<Change>],
    ) -> Result<Reading<'a>, Memory>
        requires { map arc_value others.now ≡ log.with_others (map arc_value changes.now) }
        ensures { IfOk result (λ reading. reading ≡ map arc_value changes.now) }
    {
        let regs: Vec<RegKey> = named_in(alloc, others)?;
        let world = world_of(alloc, others)?;
        match places_named(alloc, &world, others) {
            Ok(places) => Ok(Reading {
                changes,
                world,
                regs,
                places,
            }),
            Err(fault) => {
                drop(world);
                Err(fault)
            }
        }
    }

    /// The part of one year: its rows, registrations and events, of those that the changes leave. It is made of what is written of
    /// that year alone.
    pub fn part_of_year(
        &self,
        alloc: Global,
        meta: &Metadata,
        year: &i32,
    ) -> Result<Partition, Memory>
        requires few { length (writes_of self.now) ≤ MOST_RECORDS }
        requires days { IsTrue (list_all is_of_days (writes_of self.now)) }
        ensures { IfOk result (λ part. part ≡ part_of (contents_in (listed_in meta.now (writes_of self.now))) year.now) }
    {
        // since the units are a tree, of a group no two rows have one place
        let _units = tree_of(&self.world, meta).count();
        let rows = rows_left(alloc, meta, &self.world, self.changes, &Some(*year))?;
        let events = events_in(alloc, meta, &self.world, &self.places, year)?;
        let regs = regs_in(alloc, meta, &self.world, &self.regs, year)?;
        let part = part_from(alloc, *year, rows, events, regs)?;
        Ok(part)
    }

    /// The tables of what the changes leave, with a part of each year in which something stands.
    pub(crate) fn tables(&self, alloc: Global, meta: &Metadata) -> Result<Tables, Memory>
        requires few { length (writes_of self.now) ≤ MOST_RECORDS }
        requires days { IsTrue (list_all is_of_days (writes_of self.now)) }
        ensures contents { IfOk result (λ tables. together tables.parts ≡ contents_in (listed_in meta.now (writes_of self.now))) }
        ensures years { IfOk result (λ tables. years_in tables.parts ≡ (listed_in meta.now (writes_of self.now)).years) }
        ensures base_cut { IfOk result (λ tables. tables.base_cut ≡ length self.now) }
    {
        let rows = rows_left(alloc, meta, &self.world, self.changes, &None)?;
        let events = rows_at(alloc, meta, &self.world, &self.places)?;
        let regs = regs_of(alloc, meta, &self.world, &self.regs)?;
        let years = years_of(alloc, &rows, &regs, &events)?;
        let count = self.changes.len() as u64;
        let tables = tables_of(alloc, rows, events, regs, &years, count)?;
        Ok(tables)
    }
}
