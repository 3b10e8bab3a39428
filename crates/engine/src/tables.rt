//! Tables of the first changes of the log.
ghost use Rattle.std.specs.Prelude.{◌≡◌, ◌≤◌, length, map, take, option_map, IfOk};
ghost use Rattle.std.specs.Arc.{arc_value};
ghost use Rattle.std.specs.List.{All};
ghost use Rattle.change_log.specs.Forms.{WriteFits};
ghost use Rattle.change_log.specs.Log.{writes_of};
ghost use Rattle.table_sums.specs.YearParts.{part_of, together, years_in};
ghost use Rattle.engine.specs.Seen.{FitSlots, IsPartOf};
ghost use Rattle.engine.specs.Tables.{served_from, tables_of, years_of};
ghost use Rattle.dh_base.specs.declared.limits.TheConstants.{MOST_RECORDS};

use dh_base::items::Items;
use dh_base::memory::Memory;
use dh_base::plain::Need;
use dh_changes::change::Change;
use dh_metadata::metadata::Metadata;
use std::alloc::Global;
use std::marker::Model;
use std::sync::Arc;
use table_build::by_year::build;
use table_build::reading::Reading;
use table_build::slots::{Slot, build_with};
use table_latest::{Latest as LatestPart, Overlay};
use table_rows::{EventRow, Group, RegRow, Row, RowStore, Sum};
use table_sums::{Partition, Tables as YearTables};

/// The tables, as a store of rows: yearly parts, and a latest part over them if there is one.
pub struct Tables {
    base: Arc<YearTables>,
    // The same under a latest part, if one lies over them.
    over: Option<Overlay<YearTables>>,
}

// By hand, so that it is proved here alone and not in each crate above.
impl Drop for Tables {
    fn drop(self) {
        let Tables { base: _, over: _ } = self;
    }
}

impl Model for Tables {
    ghost use Rattle.std.specs.Arc.{arc_value};
    ghost use Rattle.engine.specs.Tables.{Served, served_from};

    ghost Value = { Served };

    ghost view = { λ tables. served_from (arc_value tables.base) tables.over };
}

impl Tables {
    /// The yearly parts.
    pub(crate) fn base(&self) -> &Arc<YearTables>
        ensures { arc_value result.now ≡ self.now.base }
    {
        &self.base
    }

    /// The latest part over them, if there is one.
    pub(crate) fn latest(&self) -> Option<&Arc<LatestPart>>
        ensures { option_map (λ part. arc_value part.now) result ≡ self.now.latest }
    {
        match &self.over {
            Some(over) => Some(over.latest()),
            None => None,
        }
    }
}

impl RowStore for Tables {
    ghost rows = { λ tables. tables.all.rows };

    ghost events = { λ tables. tables.all.events };

    ghost regs = { λ tables. tables.all.regs };

    ghost built = { λ tables. tables.all.years };

    fn groups(&self, alloc: Global, element: u32) -> Result<Items<Group>, Memory> {
        match &self.over {
            Some(over) => over.groups(alloc, element),
            None => self.base.groups(alloc, element),
        }
    }

    fn range_sum(&self, group: Group, need: Need, from: u32, to: u32) -> Sum {
        match &self.over {
            Some(over) => over.range_sum(group, need, from, to),
            None => self.base.range_sum(group, need, from, to),
        }
    }

    fn rows_of(
        &self,
        alloc: Global,
        group: Group,
        need: Need,
        from: u32,
        to: u32,
    ) -> Result<Items<Row>, Memory> {
        match &self.over {
            Some(over) => over.rows_of(alloc, group, need, from, to),
            None => self.base.rows_of(alloc, group, need, from, to),
        }
    }

    fn lend_events(
        &self,
        alloc: Global,
        program: u32,
        from_day: i32,
        to_day: i32,
    ) -> Result<Vec<&EventRow>, Memory> {
        match &self.over {
            Some(over) => over.lend_events(alloc, program, from_day, to_day),
            None => self.base.lend_events(alloc, program, from_day, to_day),
        }
    }

    fn regs_of(&self, alloc: Global, set: u32) -> Result<Items<RegRow>, Memory> {
        match &self.over {
            Some(over) => over.regs_of(alloc, set),
            None => self.base.regs_of(alloc, set),
        }
    }

    fn years(&self) -> &[i32] {
        match &self.over {
            Some(over) => over.years(),
            None => self.base.years(),
        }
    }
}

// The tables of these yearly parts, under a latest part if one lies over them.
pub(crate) fn tables_from(
    alloc: Global,
    base: &Arc<YearTables>,
    over: Option<Overlay<YearTables>>,
) -> Result<Arc<Tables>, Memory>
    ensures { IfOk result (λ tables. arc_value tables ≡ served_from (arc_value base.now) over) }
{
    let base = Arc::try_clone(base)?;
    Ok(Arc::new(alloc, Tables { base, over })?)
}

// The yearly parts of the first changes, of the parts that were handed in, if they are kept.
pub(crate) fn base_of_first(
    alloc: Global,
    meta: &Metadata,
    changes: &[Arc<Change>],
    number: u64,
    slots: Option<Vec<Slot>>,
) -> Result<Arc<YearTables>, Memory>
    requires within { number ≤ length changes.now }
    requires few { length (writes_of (map arc_value changes.now)) ≤ MOST_RECORDS }
    requires fits { All WriteFits (writes_of (map arc_value changes.now)) }
    requires slots { FitSlots meta.now (take number (map arc_value changes.now)) slots }
    ensures parts { IfOk result (λ base. together (arc_value base).parts ≡ tables_of meta.now (take number (map arc_value changes.now))) }
    ensures years { IfOk result (λ base. years_in (arc_value base).parts ≡ years_of meta.now (take number (map arc_value changes.now))) }
    ensures base_cut { IfOk result (λ base. (arc_value base).base_cut ≡ number) }
{
    let first = &changes[..number as usize];
    match slots {
        Some(slots) => Ok(Arc::new(alloc, build_with(alloc, meta, first, slots)?)?),
        None => Ok(Arc::new(alloc, build(alloc, meta, first)?)?),
    }
}

/// Reads changes once for the parts of all their years.
pub fn read_changes(alloc: Global, changes: &[Arc<Change>]) -> Result<Reading<'_>, Memory>
    ensures { IfOk result (λ reading. reading ≡ map arc_value changes.now) }
{
    Reading::of(alloc, changes)
}

/// The part of one year of the tables that stand for the changes which were read, as it may be handed in.
pub fn build_year(
    alloc: Global,
    meta: &Metadata,
    reading: &Reading,
    year: i32,
) -> Result<Partition, Memory>
    requires few { length (writes_of reading.now) ≤ MOST_RECORDS }
    requires fits { All WriteFits (writes_of reading.now) }
    ensures value { IfOk result (λ part. part ≡ part_of (tables_of meta.now reading.now) year) }
    ensures own { IfOk result (IsPartOf meta.now reading.now) }
{
    let part = reading.part_of_year(alloc, meta, &year)?;
    Ok(part)
}
