//! Periods by their place among those of their type, and by the days that they have.
ghost use Rattle.std.specs.Prelude.{◌≡◌, ◌≤◌, ◌<◌, ◌+◌, ◌-◌, ◌*◌, ◌%◌, pos, neg_ℤ, ◌+ℤ◌, ◌≤ℤ◌, IsTrue};
ghost use Rattle.jiff_core.specs.Date.{epoch_day};
ghost use Rattle.dh_periods.specs.declared.kind.Shape.TheVariants.{Day, Week, Months};
ghost use Rattle.dh_periods.specs.Calendar.{unix_day, month_with, year_with, first_week, days_before_month};
ghost use Rattle.dh_periods.specs.Days.{is_listed};
ghost use Rattle.dh_periods.specs.Places.{nth_as, place_as, nth_period, place_with};

use crate::days::FIRST_YEAR;
use crate::kind::{PeriodType, Shape, shape_of};
use crate::name::PeriodName;
use jiff_core::civil::{Date, ISOWeekDate};

/// 1 January 1900, the first day of all periods.
pub(crate) const FIRST_DAY: i32 = -25_567;

/// How many days 1 January 1900 lies after the first day of the library.
const DAYS_BEFORE: u32 = 4_346_020;

/// How many days after 1 January 1900 a day lies.
pub(crate) fn place_of(day: i32) -> u32
    requires from { neg_ℤ (pos 25567) ≤ℤ day }
    requires to { day ≤ℤ pos 48119 }
    ensures value { pos result ≡ day +ℤ pos 25567 }
    ensures bound { result ≤ 80_000 }
{
    (day - FIRST_DAY) as u32
}

/// The date so many days after 1 January 1900.
pub(crate) fn date_at(place: u32) -> Date
    requires { place ≤ 100_000 }
    ensures day_number { epoch_day result ≡ unix_day place }
    ensures year { result.year ≡ pos (year_with place) }
    ensures month { result.month ≡ month_with place % 12 + 1 }
    ensures day { result.day ≡ place - days_before_month (month_with place) + 1 }
    ensures months { 28 * month_with place ≤ place }
{
    Date::from_days_since_min(place + DAYS_BEFORE)
}

/// The week so many weeks after that of 1 January 1900.
fn week_at(place: u32) -> ISOWeekDate
    requires { place ≤ 14_000 }
    ensures year { result.year ≡ pos (year_with (7 * place + 3)) }
    ensures week { result.week ≡ place - first_week (year_with (7 * place + 3)) + 1 }
{
    ISOWeekDate::from_date(date_at(7 * place))
}

/// The month with that day, counted from January 1900.
fn month_at(place: u32) -> u16
    requires { place ≤ 100_000 }
    ensures value { result ≡ month_with place }
    ensures bound { result ≤ 10_000 }
{
    let date = date_at(place);
    12 * (date.year as u16 - FIRST_YEAR) + u16::from(date.month) - 1
}

fn nth_day(kind: PeriodType, place: u32) -> PeriodName
    requires { place ≤ 100_000 }
    ensures { result ≡ nth_as Day kind place }
{
    let date = date_at(place);
    PeriodName {
        kind,
        year: date.year as u16,
        number: date.month,
        day: date.day,
    }
}

fn nth_week(kind: PeriodType, place: u32) -> PeriodName
    requires { place ≤ 14_000 }
    ensures { result ≡ nth_as Week kind place }
{
    let week = week_at(place);
    PeriodName {
        kind,
        year: week.year as u16,
        number: week.week,
        day: 1,
    }
}

fn nth_months(kind: PeriodType, count: u8, opening: u8, place: u16) -> PeriodName
    requires place { place ≤ 10_000 }
    requires count_from { 1 ≤ count }
    requires count_to { count ≤ 12 }
    ensures { result ≡ nth_as (Months count opening) kind place }
{
    let in_year = u16::from(12 / count);
    PeriodName {
        kind,
        year: FIRST_YEAR + place / in_year,
        number: (place % in_year + 1) as u8,
        day: 1,
    }
}

/// The place of the months with that day among the periods of so many months.
fn months_with(count: u8, opening: u8, place: u32) -> u16
    requires place { place ≤ 80_000 }
    requires count { 1 ≤ count }
    ensures value { result ≡ place_as (Months count opening) place }
    ensures bound { result ≤ 10_000 }
{
    month_at(place).saturating_sub(u16::from(opening)) / u16::from(count)
}

/// The only period of that type that can have the day so many days after 1 January 1900.
pub(crate) fn candidate(kind: PeriodType, place: u32) -> PeriodName
    requires { place ≤ 80_000 }
    ensures { result ≡ nth_period kind (place_with kind place) }
{
    match shape_of(kind) {
        Shape::Day => nth_day(kind, place),
        Shape::Week => nth_week(kind, place / 7),
        Shape::Months { count, opening } => {
            nth_months(kind, count, opening, months_with(count, opening, place))
        }
    }
}

/// The period of that type with that place, which is one of those that there are.
pub(crate) fn nth(kind: PeriodType, place: u32) -> PeriodName
    requires { IsTrue (is_listed (nth_period kind place)) }
    ensures { result ≡ nth_period kind place }
{
    match shape_of(kind) {
        Shape::Day => nth_day(kind, place),
        Shape::Week => nth_week(kind, place),
        Shape::Months { count, opening } => nth_months(kind, count, opening, place as u16),
    }
}

/// The place of the period with that day among those of its type.
pub(crate) fn place_with(kind: PeriodType, place: u32) -> u32
    requires { place ≤ 80_000 }
    ensures value { result ≡ place_with kind place }
    ensures bound { result ≤ 80_000 }
{
    match shape_of(kind) {
        Shape::Day => place,
        Shape::Week => place / 7,
        Shape::Months { count, opening } => u32::from(months_with(count, opening, place)),
    }
}
