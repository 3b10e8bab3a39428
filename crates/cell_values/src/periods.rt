//! How many periods of a type lie in some others.
ghost use Rattle.std.specs.Prelude.{◌≡◌, ◌<◌, ◌≤◌, ◌||◌, ◌&&◌, ℕ, nat_lt, IfOk, OnOk};
ghost use Rattle.dh_sharing.specs.Ranges.{is_within};
ghost use Rattle.dh_base.specs.declared.limits.TheConstants.{COUNTED_DAYS};
ghost use Rattle.dh_periods.specs.Calendar.{unix_day};
ghost use Rattle.cell_values.specs.Reporting.{begins_in, periods_due};
ghost use Rattle.cell_values.specs.Counts.{AddsBegins};

use crate::counts::covered;
use crate::groups::push_if;
use crate::period_days::place_of;
use dh_base::memory::Memory;
use dh_periods::{Period, PeriodType, containing};
use dh_sharing::ranges::ViewRanges;
use std::alloc::{AllocError, Global};

/// The day that is so many after 1 January 1900.
fn day_at(place: u32) -> i32
    requires { place < COUNTED_DAYS }
    ensures { result ≡ unix_day place }
{
    place as i32 - 25_567
}

/// Whether on the day a period of the type begins that lies in this one.
#[tactic(auto, unfolding(crate::specs::Reporting::begins_in))]
fn begins_in(kind: PeriodType, period: &Period, place: u32) -> bool
    requires { place < COUNTED_DAYS }
    ensures { result ≡ begins_in kind period.now place }
{
    let day = day_at(place);
    match containing(kind, day, day) {
        None => false,
        Some(found) => found.first() == day && found.inside(*period),
    }
}

/// Adds the days of the period on which such a one begins.
fn add_begins(
    begins: &mut Vec<(u32, u32)>,
    kind: PeriodType,
    period: &Period,
) -> Result<(), AllocError>
    ensures { OnOk result (AddsBegins kind period.now begins.old.items begins.new.items) }
{
    let first = place_of(period.first());
    let last = place_of(period.last());
    for place in first..last + 1 {
        let here = begins_in(kind, period, place);
        push_if(begins, &(place, place + 1), here)?;
    }
    Ok(())
}

/// How many periods of the type lie in some of these.
pub(crate) fn periods_due(
    alloc: Global,
    kind: PeriodType,
    periods: &[Period],
) -> Result<u32, Memory>
    ensures value { IfOk result (λ count. count ≡ periods_due kind periods.now) }
    ensures few { IfOk result (λ count. count ≤ COUNTED_DAYS) }
{
    let mut begins = Vec::new(alloc);
    for period in periods {
        add_begins(&mut begins, kind, period)?;
    }
    let joined = ViewRanges::of(alloc, &begins)?;
    Ok(covered(joined.parts()))
}
