//! The tables that are served: yearly parts, and a latest part over them if there is one.
ghost use Rattle.std.specs.Prelude.{◌≡◌, ◌≤◌, [], length, map, take, option_map, IfOk};
ghost use Rattle.std.specs.Arc.{arc_value};
ghost use Rattle.std.specs.List.{All};
ghost use Rattle.change_log.specs.Forms.{WriteFits};
ghost use Rattle.change_log.specs.Log.{writes_of};
ghost use Rattle.dh_changes.specs.Facts.{facts_in};
ghost use Rattle.dh_changes.specs.World.{facts};
ghost use Rattle.table_rows.specs.Store.{contents_in};
ghost use Rattle.table_sums.specs.YearParts.{together, years_in};
ghost use Rattle.engine.specs.Stands.{GoesOn, GoesTo, LiesOver, Stands};
ghost use Rattle.engine.specs.Tables.{listed_under, no_tables, tables_of};
ghost use Rattle.dh_base.specs.declared.limits.TheConstants.{MOST_RECORDS};

use crate::tables::{Tables, base_of_first, tables_from};
use dh_base::memory::Memory;
use dh_changes::change::Change;
use dh_changes::world::World;
use dh_metadata::metadata::Metadata;
use latest_build::{build_latest, tables_over};
use std::alloc::Global;
use std::sync::Arc;
use table_latest::{Latest as LatestPart, Overlay};
use table_sums::Tables as YearTables;

// The yearly parts under a latest part, if there is one.
fn laid_over(
    alloc: Global,
    meta: &Metadata,
    changes: &[Arc<Change>],
    base: &Arc<YearTables>,
    latest: &Option<Arc<LatestPart>>,
) -> Result<Option<Overlay<YearTables>>, Memory>
    requires few { length (writes_of (map arc_value changes.now)) ≤ MOST_RECORDS }
    requires fits { All WriteFits (writes_of (map arc_value changes.now)) }
    requires within { (arc_value base.now).base_cut ≤ length changes.now }
    requires base { together (arc_value base.now).parts ≡ tables_of meta.now (take (arc_value base.now).base_cut (map arc_value changes.now)) }
    requires over { LiesOver meta.now (map arc_value changes.now) (arc_value base.now).base_cut (option_map arc_value latest.now) }
    ensures all { IfOk result (λ over. contents_in (listed_under (arc_value base.now).parts over) ≡ tables_of meta.now (map arc_value changes.now)) }
    ensures years { IfOk result (λ over. (listed_under (arc_value base.now).parts over).years ≡ years_in (arc_value base.now).parts) }
    ensures latest { IfOk result (λ over. option_map (λ laid. laid.latest) over ≡ option_map arc_value latest.now) }
{
    match latest {
        Some(latest) => Ok(Some(tables_over(alloc, meta, changes, base, latest)?)),
        None => Ok(None),
    }
}

// Tables that stand for the first changes: yearly parts, under a latest part if there is one.
pub(crate) fn serve(
    alloc: Global,
    meta: &Metadata,
    changes: &[Arc<Change>],
    number: u64,
    base: &Arc<YearTables>,
    latest: &Option<Arc<LatestPart>>,
) -> Result<Arc<Tables>, Memory>
    requires few { length (writes_of (map arc_value changes.now)) ≤ MOST_RECORDS }
    requires fits { All WriteFits (writes_of (map arc_value changes.now)) }
    requires within { number ≤ length changes.now }
    requires below { (arc_value base.now).base_cut ≤ number }
    requires base { together (arc_value base.now).parts ≡ tables_of meta.now (take (arc_value base.now).base_cut (map arc_value changes.now)) }
    requires over { GoesTo meta.now (map arc_value changes.now) (arc_value base.now).base_cut number (option_map arc_value latest.now) }
    ensures stands { IfOk result (λ tables. Stands meta.now (map arc_value changes.now) (arc_value base.now).base_cut number (arc_value tables)) }
    ensures base { IfOk result (λ tables. (arc_value tables).base ≡ arc_value base.now) }
    ensures latest { IfOk result (λ tables. (arc_value tables).latest ≡ option_map arc_value latest.now) }
{
    let over = laid_over(alloc, meta, &changes[..number as usize], base, latest)?;
    let tables = tables_from(alloc, base, over)?;
    Ok(tables)
}

// The tables of no changes.
pub(crate) fn serve_none(alloc: Global, meta: &Metadata) -> Result<Arc<Tables>, Memory>
    ensures none { IfOk result (λ tables. arc_value tables ≡ no_tables) }
    ensures stands { IfOk result (λ tables. Stands meta.now [] 0 0 (arc_value tables)) }
{
    let base = base_of_first(alloc, meta, &[], 0, None)?;
    let tables = tables_from(alloc, &base, None)?;
    Ok(tables)
}

// The latest part of the changes that the yearly parts don't stand for, by what the log records.
pub(crate) fn latest_part(
    alloc: Global,
    meta: &Metadata,
    world: &World,
    changes: &[Arc<Change>],
    base: &Arc<YearTables>,
) -> Result<Arc<LatestPart>, Memory>
    requires world { facts world.now ≡ facts_in (writes_of (map arc_value changes.now)) }
    requires few { length (writes_of (map arc_value changes.now)) ≤ MOST_RECORDS }
    requires fits { All WriteFits (writes_of (map arc_value changes.now)) }
    requires within { (arc_value base.now).base_cut ≤ length changes.now }
    requires base { together (arc_value base.now).parts ≡ tables_of meta.now (take (arc_value base.now).base_cut (map arc_value changes.now)) }
    ensures goes { IfOk result (λ part. GoesOn meta.now (map arc_value changes.now) (arc_value base.now).base_cut (length changes.now) (arc_value part)) }
    ensures from { IfOk result (λ part. (arc_value part).from ≡ (arc_value base.now).base_cut) }
{
    let part = build_latest(alloc, meta, world, base, changes)?;
    Ok(Arc::new(alloc, part)?)
}
