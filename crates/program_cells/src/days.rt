//! Days of periods.
ghost use Rattle.std.specs.Prelude.{◌≡◌, ◌≤ℤ◌};
ghost use Rattle.dh_periods.specs.Days.{first_day, last_day};
ghost use Rattle.program_cells.specs.Cells.{is_on_some, is_enrolled_on};
ghost use Rattle.program_cells.specs.Days.{Cover};

use dh_periods::Period;
use table_rows::EventRow;

/// The days from one to another, both counted.
#[derive(Clone, Copy)]
pub(crate) struct Days {
    pub from: i32,
    pub to: i32,
}

/// These days, and those of a period.
fn widened(days: &Days, period: &Period) -> Days
    ensures from { result.from ≤ℤ days.now.from }
    ensures first { result.from ≤ℤ first_day period.now }
    ensures to { days.now.to ≤ℤ result.to }
    ensures last { last_day period.now ≤ℤ result.to }
{
    let (first, last) = (period.first(), period.last());
    let from = if days.from < first { days.from } else { first };
    let to = if days.to < last { last } else { days.to };
    Days { from, to }
}

/// The days from the first of these periods to the last; no day if there is no period.
pub(crate) fn days_of(periods: &[Period]) -> Days
    ensures { Cover periods.now result }
{
    let mut days = Days {
        from: i32::MAX,
        to: i32::MIN,
    };
    for period in periods {
        days = widened(&days, period);
    }
    days
}

/// Whether the day lies in some of the periods.
pub(crate) fn is_on_some(periods: &[Period], day: &i32) -> bool
    ensures { result ≡ is_on_some periods.now day.now }
{
    for period in periods {
        if period.first() <= *day && *day <= period.last() {
            return true;
        }
    }
    false
}

/// Whether the enrollment that the event tells began in some of the periods.
pub(crate) fn is_enrolled_on(periods: &[Period], event: &EventRow) -> bool
    ensures { result ≡ is_enrolled_on periods.now event.now }
{
    match &event.enrolled {
        Some(day) => is_on_some(periods, day),
        None => false,
    }
}
