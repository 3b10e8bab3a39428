//! What values are asked from, and what a cell takes of periods and of units.
ghost use Rattle.std.specs.Prelude.{◌≡◌, ◌<◌, length, IfOk};
ghost use Rattle.dh_metadata.specs.Linked.{AreBelow};
ghost use Rattle.cell_values.specs.Cells.{days_in};
ghost use Rattle.cell_values.specs.Held.{IsSeer, AreCellUnits};

use crate::cuts::cut;
use crate::period_days::days;
use crate::places::unit_ranges;
use crate::seer::Seer;
use dh_base::items::Items;
use dh_base::memory::Memory;
use dh_metadata::metadata::Metadata;
use dh_periods::Period;
use dh_sharing::ranges::ViewRanges;
use std::alloc::Global;
use std::marker::Model;

/// What values are asked from: the metadata, the records, and who sees them.
#[derive(Drop)]
pub struct Source<'a, S> {
    pub meta: &'a Metadata,
    pub store: &'a S,
    pub seer: &'a Seer,
}

/// A data element, and its option combination and attribute option combination where these are
/// named.
#[derive(Clone, Copy)]
pub struct Operand {
    pub element: u32,
    pub combo: Option<u32>,
    pub attribute: Option<u32>,
}

/// The periods of a cell, with their days counted. Contracts see the list of periods.
pub struct CellPeriods {
    periods: Items<Period>,
    days: u32,
}

// By hand, so that it is proved here alone and not in each crate above.
impl Drop for CellPeriods {
    fn drop(self) {
        let CellPeriods {
            periods: _,
            days: _,
        } = self;
    }
}

impl Model for CellPeriods {
    ghost use Rattle.std.specs.Prelude.{List};
    ghost use Rattle.dh_periods.specs.declared.name.PeriodName.{PeriodName};
    ghost use Rattle.cell_values.specs.Cells.{AreCounted};

    ghost Value = { List PeriodName };

    ghost view = { λ cell. cell.periods };

    ghost invariant = { λ cell. AreCounted cell.periods cell.days };
}

fn copy_of<T: Copy>(alloc: Global, items: &[T]) -> Result<Items<T>, Memory>
    ensures { IfOk result (λ copy. copy ≡ items.now) }
{
    let mut copy = Vec::new(alloc);
    copy.extend_from_slice(items)?;
    Ok(Items::from(copy))
}

impl CellPeriods {
    /// These periods, of which there is one at least.
    pub fn of(alloc: Global, periods: &[Period]) -> Result<CellPeriods, Memory>
        requires { 0 < length periods.now }
        ensures { IfOk result (λ cell. cell ≡ periods.now) }
    {
        let days = days(alloc, periods)?;
        let periods = copy_of(alloc, periods)?;
        Ok(CellPeriods { periods, days })
    }

    /// The periods.
    pub fn periods(&self) -> &[Period]
        ensures { result.now ≡ self.now }
    {
        self.periods.as_slice()
    }

    /// How many different days the periods have.
    pub fn days(&self) -> u32
        ensures value { result ≡ days_in self.now }
        ensures some { 0 < result }
    {
        self.days
    }
}

/// The units of a cell, with the orders of the units and of all under them: all, and those that
/// the user views. With `alone` a unit has only itself under it.
pub struct CellUnits {
    pub units: Items<u32>,
    pub alone: bool,
    pub asked: ViewRanges,
    pub seen: ViewRanges,
}

// By hand, so that it is proved here alone and not in each crate above.
impl Drop for CellUnits {
    fn drop(self) {
        let CellUnits {
            units: _,
            alone: _,
            asked: _,
            seen: _,
        } = self;
    }
}

impl CellUnits {
    /// These units, as the user sees them.
    pub fn of(
        alloc: Global,
        meta: &Metadata,
        seer: &Seer,
        units: &[u32],
        alone: bool,
    ) -> Result<CellUnits, Memory>
        requires seer { IsSeer meta.now seer.now }
        requires units { AreBelow (length meta.now.organisation_units) units.now }
        ensures cell { IfOk result (λ cell. AreCellUnits meta.now seer.now.user cell) }
        ensures units { IfOk result (λ cell. cell.units ≡ units.now) }
        ensures alone { IfOk result (λ cell. cell.alone ≡ alone) }
    {
        let copy = copy_of(alloc, units)?;
        let asked = unit_ranges(alloc, seer.tree(meta), units, alone)?;
        let seen = cut(alloc, seer.views(), &asked)?;
        Ok(CellUnits {
            units: copy,
            alone,
            asked,
            seen,
        })
    }
}
