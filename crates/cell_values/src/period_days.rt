//! The days of periods.
ghost use Rattle.std.specs.Prelude.{◌≡◌, ◌<◌, ◌≤◌, ◌+ℤ◌, ◌≤ℤ◌, pos, neg_ℤ, length, IfOk};
ghost use Rattle.cell_values.specs.Cells.{days_in};
ghost use Rattle.cell_values.specs.Spans.{IsDayRange};

use crate::counts::covered;
use dh_base::memory::Memory;
use dh_periods::Period;
use dh_sharing::ranges::ViewRanges;
use std::alloc::Global;

/// How many days the day lies after 1 January 1900.
pub(crate) fn place_of(day: i32) -> u32
    requires from { neg_ℤ (pos 25567) ≤ℤ day }
    requires to { day ≤ℤ pos 48119 }
    ensures value { pos result ≡ day +ℤ pos 25567 }
    ensures bound { result ≤ 73_686 }
{
    (day + 25_567) as u32
}

/// The days of the period, counted from 1 January 1900.
fn day_range(period: &Period) -> (u32, u32)
    ensures { IsDayRange period.now result }
{
    let first = place_of(period.first());
    let last = place_of(period.last());
    (first, last + 1)
}

/// How many different days the periods have.
pub fn days(alloc: Global, periods: &[Period]) -> Result<u32, Memory>
    requires { 0 < length periods.now }
    ensures value { IfOk result (λ days. days ≡ days_in periods.now) }
    ensures some { IfOk result (λ days. 0 < days) }
{
    // its first day is there
    let _day = periods[0].first();
    let mut ranges = Vec::new(alloc);
    for period in periods {
        ranges.push(day_range(period))?;
    }
    let joined = ViewRanges::of(alloc, &ranges)?;
    Ok(covered(joined.parts()))
}
