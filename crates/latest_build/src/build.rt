//! The latest part of touched keys.
ghost use Rattle.std.specs.Prelude.{◌≡◌, ◌≤◌, List, length, map, IsTrue, IfOk};
ghost use Rattle.std.specs.Arc.{arc_value};
ghost use Rattle.std.specs.List.{list_all};
ghost use Rattle.dh_changes.specs.declared.change.Write.{Write};
ghost use Rattle.org_tree.specs.Units.{IsTree};
ghost use Rattle.dh_changes.specs.Facts.{Facts, facts_in};
ghost use Rattle.dh_changes.specs.World.{facts};
ghost use Rattle.dh_records.specs.Access.{tree};
ghost use Rattle.table_rows.specs.Store.{contents_in};
ghost use Rattle.table_build.specs.Listed.{listed_in};
ghost use Rattle.table_build.specs.Log.{writes_of, is_of_days};
ghost use Rattle.table_build.specs.Values.{rows_of};
ghost use Rattle.table_latest.specs.Later.{LeadsTo};
ghost use Rattle.latest_build.specs.Covers.{Covers};
ghost use Rattle.latest_build.specs.Places.{held_by, touched_of, value_places};
ghost use Rattle.dh_base.specs.declared.limits.TheConstants.{MOST_RECORDS};

use crate::held::{HeldRows, held_rows};
use crate::touched::{LogKeys, touched_keys};
use dh_base::memory::Memory;
use dh_changes::change::Change;
use dh_changes::world::World;
use dh_metadata::metadata::Metadata;
use std::alloc::Global;
use std::sync::Arc;
use table_build::events::events_of;
use table_build::regs::regs_of;
use table_latest::Latest;
use table_rows::Row;
use table_sums::{SummedRows, with_sums};

// The units are a tree after every log, so that no two have one order.
#[tactic(auto, unfolding(dh_records::specs::Access::tree))]
pub(crate) fn units_stand(meta: &Metadata)
    ensures tree { (log : Facts) → IsTree (tree log meta.now) }
    ensures numbers { (log : Facts) → length (tree log meta.now) ≡ length meta.now.organisation_units }
{
    let _units = meta.tree().count();
}

// The store of what the keys hold.
fn store_of(
    alloc: Global,
    meta: &Metadata,
    world: &World,
    changes: &[Arc<Change>],
    keys: &LogKeys<'_>,
    rows: &[Row],
) -> Result<SummedRows, Memory>
    requires held { facts world.now ≡ facts_in (writes_of (map arc_value changes.now)) }
    requires few { length (writes_of (map arc_value changes.now)) ≤ MOST_RECORDS }
    requires days { IsTrue (list_all is_of_days (writes_of (map arc_value changes.now))) }
    requires tree { IsTree (tree (facts world.now) meta.now) }
    requires numbers { length (tree (facts world.now) meta.now) ≡ length meta.now.organisation_units }
    requires rows { rows.now ≡ rows_of meta.now (facts world.now) keys.now.values.now }
    ensures { IfOk result (λ store. contents_in store ≡ held_by meta.now (facts world.now) keys.now.values.now keys.now.events.now keys.now.regs.now) }
{
    let events = events_of(alloc, meta, world, keys.events)?;
    let regs = regs_of(alloc, meta, world, keys.regs)?;
    with_sums(alloc, rows, events, regs, Vec::new(alloc))
}

/// The keys of a latest part, and after how many of the changes its own begin.
#[derive(Clone, Copy)]
pub(crate) struct Asked<'a> {
    pub keys: LogKeys<'a>,
    pub from: u64,
}

/// The latest part of keys whose values' places and rows are made.
pub(crate) fn latest_with(
    alloc: Global,
    meta: &Metadata,
    world: &World,
    changes: &[Arc<Change>],
    asked: &Asked<'_>,
    held: HeldRows,
) -> Result<Latest, Memory>
    requires held { facts world.now ≡ facts_in (writes_of (map arc_value changes.now)) }
    requires few { length (writes_of (map arc_value changes.now)) ≤ MOST_RECORDS }
    requires days { IsTrue (list_all is_of_days (writes_of (map arc_value changes.now))) }
    requires places { held.places.items ≡ value_places meta.now (facts world.now) asked.now.keys.values.now }
    requires rows { held.rows.items ≡ rows_of meta.now (facts world.now) asked.now.keys.values.now }
    ensures touched { IfOk result (λ latest. latest.touched
        ≡ touched_of meta.now (facts world.now) asked.now.keys.values.now asked.now.keys.events.now asked.now.keys.regs.now) }
    ensures holds { IfOk result (λ latest. latest.holds
        ≡ held_by meta.now (facts world.now) asked.now.keys.values.now asked.now.keys.events.now asked.now.keys.regs.now) }
    ensures leads { IfOk result (λ latest. (base : List Write) → Covers meta.now (facts_in base)
        (facts world.now) asked.now.keys.values.now asked.now.keys.events.now asked.now.keys.regs.now
        → LeadsTo (contents_in (listed_in meta.now base)) latest (contents_in (listed_in meta.now (writes_of (map arc_value changes.now))))) }
    ensures from { IfOk result (λ latest. latest.from ≡ asked.now.from) }
    ensures to { IfOk result (λ latest. latest.to ≡ length changes.now) }
{
    units_stand(meta);
    let HeldRows { places, rows } = held;
    let touched = touched_keys(alloc, meta, world, &asked.keys, places)?;
    let store = store_of(alloc, meta, world, changes, &asked.keys, &rows)?;
    drop(rows);
    Ok(Latest::of(touched, store, asked.from, changes.len() as u64))
}

/// The latest part of these keys: what each holds after the changes, of which `from` stand in the base. Where the keys are all
/// that changed, tables under it stand for the changes.
pub fn latest_of(
    alloc: Global,
    meta: &Metadata,
    world: &World,
    changes: &[Arc<Change>],
    keys: &LogKeys<'_>,
    from: u64,
) -> Result<Latest, Memory>
    requires held { facts world.now ≡ facts_in (writes_of (map arc_value changes.now)) }
    requires few { length (writes_of (map arc_value changes.now)) ≤ MOST_RECORDS }
    requires days { IsTrue (list_all is_of_days (writes_of (map arc_value changes.now))) }
    ensures touched { IfOk result (λ latest. latest.touched ≡ touched_of meta.now (facts world.now) keys.now.values.now keys.now.events.now keys.now.regs.now) }
    ensures holds { IfOk result (λ latest. latest.holds ≡ held_by meta.now (facts world.now) keys.now.values.now keys.now.events.now keys.now.regs.now) }
    ensures leads { IfOk result (λ latest. (base : List Write) → Covers meta.now (facts_in base)
        (facts world.now) keys.now.values.now keys.now.events.now keys.now.regs.now
        → LeadsTo (contents_in (listed_in meta.now base)) latest (contents_in (listed_in meta.now (writes_of (map arc_value changes.now))))) }
    ensures from { IfOk result (λ latest. latest.from ≡ from) }
    ensures to { IfOk result (λ latest. latest.to ≡ length changes.now) }
{
    units_stand(meta);
    let held = held_rows(alloc, meta, world, &changes[..0], keys.values, 0)?;
    let asked = Asked { keys: *keys, from };
    latest_with(alloc, meta, world, changes, &asked, held)
}
