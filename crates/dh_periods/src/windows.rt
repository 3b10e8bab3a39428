//! Relative periods.
ghost use Rattle.std.specs.Prelude.{◌≡◌, ◌≤◌, ◌<◌, ◌+◌, ◌-◌, ◌*◌, ℕ, ◌≤ℤ◌, IsTrue, IfOk, map, option_map};
ghost use Rattle.dh_base.specs.declared.limits.TheConstants.{FIRST_QUERY_DAY, LAST_QUERY_DAY};
ghost use Rattle.dh_periods.specs.Days.{is_listed};
ghost use Rattle.dh_periods.specs.Places.{nth_period, place_with};
ghost use Rattle.dh_periods.specs.Relative.{beside, relative_named, IsReach, IsYearRun, HasReach, run_of, periods_on, relative_of};
ghost use Rattle.dh_periods.specs.Calendar.{year_with};

use crate::days::FIRST_YEAR;
use crate::kind::PeriodType;
use crate::period::Period;
use crate::places::{date_at, nth, place_of, place_with};
use dh_base::memory::Memory;
use std::alloc::Global;

/// A relative period, as it stands to the day on which it is asked for.
#[derive(Clone, Copy)]
pub(crate) enum Stretch {
    /// Periods from so many before the one with the day on, and how many.
    Before(PeriodType, u32, u32),
    /// The so many periods of the year with the day.
    OfYear(PeriodType, u32),
}

/// The names of one period: that of the day, or the one before it.
const SINGLE: [(&[u8], Stretch); 10] = [
    (b"TODAY", Stretch::Before(PeriodType::Daily, 0, 1)),
    (b"YESTERDAY", Stretch::Before(PeriodType::Daily, 1, 1)),
    (b"THIS_WEEK", Stretch::Before(PeriodType::Weekly, 0, 1)),
    (b"LAST_WEEK", Stretch::Before(PeriodType::Weekly, 1, 1)),
    (b"THIS_MONTH", Stretch::Before(PeriodType::Monthly, 0, 1)),
    (b"LAST_MONTH", Stretch::Before(PeriodType::Monthly, 1, 1)),
    (
        b"THIS_QUARTER",
        Stretch::Before(PeriodType::Quarterly, 0, 1),
    ),
    (
        b"LAST_QUARTER",
        Stretch::Before(PeriodType::Quarterly, 1, 1),
    ),
    (b"THIS_YEAR", Stretch::Before(PeriodType::Yearly, 0, 1)),
    (b"LAST_YEAR", Stretch::Before(PeriodType::Yearly, 1, 1)),
];

/// The names of several: those before that of the day, or all of the day's year.
const SEVERAL: [(&[u8], Stretch); 7] = [
    (b"LAST_3_MONTHS", Stretch::Before(PeriodType::Monthly, 3, 3)),
    (b"LAST_6_MONTHS", Stretch::Before(PeriodType::Monthly, 6, 6)),
    (
        b"LAST_12_MONTHS",
        Stretch::Before(PeriodType::Monthly, 12, 12),
    ),
    (
        b"LAST_4_QUARTERS",
        Stretch::Before(PeriodType::Quarterly, 4, 4),
    ),
    (b"LAST_5_YEARS", Stretch::Before(PeriodType::Yearly, 5, 5)),
    (
        b"MONTHS_THIS_YEAR",
        Stretch::OfYear(PeriodType::Monthly, 12),
    ),
    (
        b"QUARTERS_THIS_YEAR",
        Stretch::OfYear(PeriodType::Quarterly, 4),
    ),
];

/// What stands beside a name in a table.
fn beside(table: &[(&[u8], Stretch)], name: &[u8]) -> Option<Stretch>
    ensures { result ≡ beside (map (λ entry. (entry.0.now, entry.1)) table.now) name.now }
{
    for entry in table {
        if name == entry.0 {
            return Some(entry.1);
        }
    }
    None
}

/// What a name stands for.
#[tactic(auto, unfolding(crate::specs::Relative::relative_named))]
fn relative_named(name: &[u8]) -> Option<Stretch>
    ensures { result ≡ relative_named name.now }
{
    match beside(&SINGLE, name) {
        Some(relative) => Some(relative),
        None => beside(&SEVERAL, name),
    }
}

fn period_nth(kind: PeriodType, place: u32) -> Period
    requires { IsTrue (is_listed (nth_period kind place)) }
    ensures { result ≡ nth_period kind place }
{
    match Period::named(nth(kind, place)) {
        Some(period) => period,
        None => unreachable!(),
    }
}

fn run_of(alloc: Global, kind: PeriodType, start: u32, count: u32) -> Result<Vec<Period>, Memory>
    requires bound { start + count ≤ 100_000 }
    requires listed { (i : ℕ) → start ≤ i → i < start + count
        → IsTrue (is_listed (nth_period kind i)) }
    ensures { IfOk result (λ periods. periods.items ≡ run_of kind start count) }
{
    let mut periods = Vec::with_capacity(alloc, count as usize)?;
    for place in start..start + count {
        periods.push(period_nth(kind, place))?;
    }
    Ok(periods)
}

fn before_on(
    alloc: Global,
    kind: PeriodType,
    back: u32,
    count: u32,
    place: u32,
) -> Result<Vec<Period>, Memory>
    requires from { 3652 ≤ place }
    requires to { place ≤ 73_048 }
    requires reach { IsReach kind back }
    requires count { count ≤ back + 1 }
    ensures { IfOk result
        (λ periods. periods.items ≡ run_of kind (place_with kind place - back) count) }
{
    run_of(alloc, kind, place_with(kind, place) - back, count)
}

fn year_on(alloc: Global, kind: PeriodType, count: u32, place: u32) -> Result<Vec<Period>, Memory>
    requires from { 3652 ≤ place }
    requires to { place ≤ 73_048 }
    requires reach { IsYearRun kind count }
    ensures { IfOk result
        (λ periods. periods.items ≡ run_of kind (count * (year_with place - 1900)) count) }
{
    let years = u32::from(date_at(place).year as u16 - FIRST_YEAR);
    run_of(alloc, kind, count * years, count)
}

fn periods_on(alloc: Global, relative: Stretch, place: u32) -> Result<Vec<Period>, Memory>
    requires from { 3652 ≤ place }
    requires to { place ≤ 73_048 }
    requires reach { HasReach relative }
    ensures { IfOk result (λ periods. periods.items ≡ periods_on place relative) }
{
    match relative {
        Stretch::Before(kind, back, count) => before_on(alloc, kind, back, count, place),
        Stretch::OfYear(kind, count) => year_on(alloc, kind, count, place),
    }
}

/// The periods that a relative name stands for on a day from 1 January 1910 to 31 December 2099,
/// oldest first, or `None` where there is no such name.
pub fn relative(alloc: Global, name: &[u8], day: i32) -> Result<Option<Vec<Period>>, Memory>
    requires from { FIRST_QUERY_DAY ≤ℤ day }
    requires to { day ≤ℤ LAST_QUERY_DAY }
    ensures { IfOk result
        (λ found. option_map (λ periods. periods.items) found ≡ relative_of name.now day) }
{
    let Some(relative) = relative_named(name) else {
        return Ok(None);
    };
    Ok(Some(periods_on(alloc, relative, place_of(day))?))
}
