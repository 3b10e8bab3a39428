//! What is due in some periods, and the rate of it that was registered.
ghost use Rattle.std.specs.Prelude.{◌≡◌, ◌<◌, ◌≤◌, ◌*◌, ◌^◌, length, IfOk};
ghost use Rattle.dh_sharing.specs.Ranges.{AreApart};
ghost use Rattle.dh_base.specs.declared.limits.TheConstants.{COUNTED_DAYS};
ghost use Rattle.cell_values.specs.Reporting.{whole, rate_with};
ghost use Rattle.cell_values.specs.Prepared.{AreOrders, IsPrepared, rate_within};

use crate::counts::how_many_within;
use crate::groups::{is_in_some, push_if};
use crate::reports::{Report, Reports};
use dh_base::frac::Frac;
use dh_base::items::Items;
use dh_base::memory::Memory;
use dh_base::plain::Rate;
use dh_periods::Period;
use std::alloc::Global;

/// What of the reports of a data set is due in some periods.
pub struct Due {
    /// How many periods of the data set's type lie in them.
    pub periods: u32,
    /// The orders of the reports for these that were registered, ascending.
    pub orders: Items<u32>,
}

// By hand, so that it is proved here alone and not in each crate above.
impl Drop for Due {
    fn drop(self) {
        let Due {
            periods: _,
            orders: _,
        } = self;
    }
}

/// The orders of the reports whose period lies in some of these.
pub(crate) fn orders_in(
    alloc: Global,
    periods: &[Period],
    reports: &[Report],
) -> Result<Items<u32>, Memory>
    ensures { IfOk result (λ orders. AreOrders periods.now reports.now orders) }
{
    let mut orders = Vec::new(alloc);
    for report in reports {
        let lies = is_in_some(periods, &report.period);
        push_if(&mut orders, &report.order, lies)?;
    }
    orders.sort()?;
    Ok(Items::from(orders))
}

/// A count as a fraction.
pub(crate) fn whole(count: u64) -> Frac
    ensures { result ≡ whole count }
{
    Frac::of(i128::from(count), 1)
}

fn rate_with(which: Rate, due: u64, registered: u64) -> Option<Frac>
    ensures { result ≡ rate_with which due registered }
{
    if due == 0 {
        return None;
    }
    Some(match which {
        Rate::Expected => whole(due),
        Rate::Actual | Rate::OnTime => whole(registered),
        Rate::Reported | Rate::ReportedOnTime => {
            Frac::of(100 * i128::from(registered), i128::from(due))
        }
    })
}

/// How many reports are due of so many units in so many periods.
fn times(units: usize, periods: u32) -> u64
    requires units { units < 2 ^ 32 }
    requires periods { periods ≤ COUNTED_DAYS }
    ensures { result ≡ units * periods }
{
    units as u64 * u64::from(periods)
}

/// The rate over the units whose orders lie in the ranges.
pub(crate) fn rate_in(reports: &Reports, due: &Due, ranges: &[(u32, u32)]) -> Option<Frac>
    requires prepared { IsPrepared reports.now due.now }
    requires apart { AreApart ranges.now }
    ensures { result ≡ rate_within reports.now.which reports.now.assigned due.now.periods due.now.orders ranges.now }
{
    let units = how_many_within(reports.assigned.as_slice(), ranges);
    let registered = how_many_within(due.orders.as_slice(), ranges);
    rate_with(reports.which, times(units, due.periods), registered as u64)
}
