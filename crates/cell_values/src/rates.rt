//! Reporting rates over the registrations that a user sees.
ghost use Rattle.std.specs.Prelude.{◌≡◌, ◌<◌, List, length, IfOk};
ghost use Rattle.dh_periods.specs.declared.name.PeriodName.{PeriodName};
ghost use Rattle.cell_values.specs.Prepared.{IsDue, IsPrepared};
ghost use Rattle.cell_values.specs.Reporting.{rate_of};
ghost use Rattle.cell_values.specs.Held.{IsSeer, AreCellUnits};
ghost use Rattle.cell_values.specs.Rates.{IsRatePlan};
ghost use Rattle.cell_values.specs.Seen.{seen_regs};

use crate::cell::{CellPeriods, CellUnits, Source};
use crate::groups::push_if;
use crate::seer::Seer;
use crate::{Due, Reports};
use dh_base::frac::Frac;
use dh_base::memory::Memory;
use dh_base::plain::Rate;
use dh_metadata::metadata::Metadata;
use std::alloc::{AllocError, Global};
use table_rows::{RegRow, RowStore};

/// A rate of a data set.
#[derive(Clone, Copy)]
pub struct RateAsked {
    pub set: u32,
    pub which: Rate,
}

/// What is worked out once for a rate, before its cells: its reports, from the registrations that
/// the user sees.
pub struct RatePlan {
    pub asked: RateAsked,
    pub reports: Reports,
}

// By hand, so that it is proved here alone and not in each crate above.
impl Drop for RatePlan {
    fn drop(self) {
        let RatePlan {
            asked: _,
            reports: _,
        } = self;
    }
}

/// The registrations that the user sees.
fn seen_regs(
    alloc: Global,
    meta: &Metadata,
    seer: &Seer,
    regs: &[RegRow],
) -> Result<Vec<RegRow>, AllocError>
    requires { IsSeer meta.now seer.now }
    ensures { IfOk result (λ kept. kept.items ≡ seen_regs meta.now seer.now.user regs.now) }
{
    let mut kept = Vec::new(alloc);
    for reg in regs {
        push_if(&mut kept, reg, seer.sees_reg(meta, reg))?;
    }
    Ok(kept)
}

/// The plan of a rate.
pub fn rate_plan<S: RowStore>(
    alloc: Global,
    source: &Source<'_, S>,
    asked: RateAsked,
) -> Result<RatePlan, Memory>
    requires seer { IsSeer source.now.meta.now source.now.seer.now }
    requires set { asked.set < length source.now.meta.now.data_sets }
    ensures plan { IfOk result (λ plan. IsRatePlan source.now.meta.now source.now.seer.now.user (S.regs source.now.store.now) plan) }
    ensures asked { IfOk result (λ plan. plan.asked ≡ asked) }
{
    let all = source.store.regs_of(alloc, asked.set)?;
    let kept = seen_regs(alloc, source.meta, source.seer, all.as_slice())?;
    let reports = Reports::of(alloc, source.meta, asked.which, asked.set, kept.as_slice())?;
    Ok(RatePlan { asked, reports })
}

/// What is due in some periods, and what was registered for these.
pub fn rate_due(alloc: Global, plan: &RatePlan, periods: &CellPeriods) -> Result<Due, Memory>
    ensures { IfOk result (λ due. IsDue periods.now plan.now.reports due) }
{
    plan.reports.during(alloc, periods.periods())
}

/// The value of a planned rate in a cell, by what is due in its periods.
pub fn planned_rate<S: RowStore>(
    alloc: Global,
    source: &Source<'_, S>,
    plan: &RatePlan,
    due: &Due,
    units: &CellUnits,
) -> Result<Option<Frac>, Memory>
    requires plan { IsRatePlan source.now.meta.now source.now.seer.now.user (S.regs source.now.store.now) plan.now }
    requires due { IsPrepared plan.now.reports due.now }
    requires units { AreCellUnits source.now.meta.now source.now.seer.now.user units.now }
    ensures { (periods : List PeriodName) → IsDue periods plan.now.reports due.now
        → IfOk result (λ value. value ≡ rate_of source.now.meta.now plan.now.asked.which plan.now.asked.set periods units.now.units
        (seen_regs source.now.meta.now source.now.seer.now.user (S.regs source.now.store.now)) units.now.alone) }
{
    plan.reports.rate(alloc, source.meta, due, units.units.as_slice(), units.alone)
}

/// The value of a planned rate in a cell.
pub fn rate_value<S: RowStore>(
    alloc: Global,
    source: &Source<'_, S>,
    plan: &RatePlan,
    periods: &CellPeriods,
    units: &CellUnits,
) -> Result<Option<Frac>, Memory>
    requires plan { IsRatePlan source.now.meta.now source.now.seer.now.user (S.regs source.now.store.now) plan.now }
    requires units { AreCellUnits source.now.meta.now source.now.seer.now.user units.now }
    ensures { IfOk result (λ value. value ≡ rate_of source.now.meta.now plan.now.asked.which plan.now.asked.set periods.now units.now.units
        (seen_regs source.now.meta.now source.now.seer.now.user (S.regs source.now.store.now)) units.now.alone) }
{
    let due = rate_due(alloc, plan, periods)?;
    planned_rate(alloc, source, plan, &due, units)
}
