//! The tables by year of the rows, registrations and events that a list of changes leaves.
ghost use Rattle.std.specs.Prelude.{◌≡◌, ◌≤◌, length, map, IsTrue, IfOk};
ghost use Rattle.std.specs.List.{list_all};
ghost use Rattle.std.specs.Arc.{arc_value};
ghost use Rattle.table_build.specs.Log.{writes_of, is_of_days};
ghost use Rattle.table_build.specs.Listed.{listed_in};
ghost use Rattle.table_rows.specs.Store.{contents_in};
ghost use Rattle.table_sums.specs.YearParts.{part_of, together, years_in};
ghost use Rattle.dh_base.specs.declared.limits.TheConstants.{MOST_RECORDS};

use crate::reading::Reading;
use dh_base::memory::Memory;
use dh_changes::change::Change;
use dh_metadata::metadata::Metadata;
use std::alloc::Global;
use std::sync::Arc;
use table_sums::{Partition, Tables};

/// The part of one year: its rows, registrations and events, of those that the changes leave. Where parts of several years are
/// made of the same changes, one `Reading` serves all.
pub fn build_part(
    alloc: Global,
    meta: &Metadata,
    year: i32,
    changes: &[Arc<Change>],
) -> Result<Partition, Memory>
    requires few { length (writes_of (map arc_value changes.now)) ≤ MOST_RECORDS }
    requires days { IsTrue (list_all is_of_days (writes_of (map arc_value changes.now))) }
    ensures { IfOk result (λ part. part ≡ part_of (contents_in (listed_in meta.now (writes_of (map arc_value changes.now)))) year) }
{
    let reading = Reading::of(alloc, changes)?;
    let part = reading.part_of_year(alloc, meta, &year);
    drop(reading);
    part
}

/// The tables of the rows, registrations and events that the changes leave, under these metadata, with a part of each
/// year in which one stands. The log is read once for all years.
pub fn build(alloc: Global, meta: &Metadata, changes: &[Arc<Change>]) -> Result<Tables, Memory>
    requires few { length (writes_of (map arc_value changes.now)) ≤ MOST_RECORDS }
    requires days { IsTrue (list_all is_of_days (writes_of (map arc_value changes.now))) }
    ensures contents { IfOk result (λ tables. together tables.parts ≡ contents_in (listed_in meta.now (writes_of (map arc_value changes.now)))) }
    ensures years { IfOk result (λ tables. years_in tables.parts ≡ (listed_in meta.now (writes_of (map arc_value changes.now))).years) }
    ensures base_cut { IfOk result (λ tables. tables.base_cut ≡ length changes.now) }
{
    let reading = Reading::of(alloc, changes)?;
    let tables = reading.tables(alloc, meta);
    drop(reading);
    tables
}
