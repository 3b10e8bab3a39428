//! The days of periods, as the library of dates and weeks has them.
ghost use Rattle.std.specs.Prelude.{◌≡◌, ◌≤◌, ◌+◌, ◌-◌, ◌*◌, ◌/◌, Some, None, if◌then◌else◌, IsTrue};
ghost use Rattle.dh_periods.specs.declared.kind.Shape.TheVariants.{Day, Week, Months};
ghost use Rattle.dh_periods.specs.Calendar.{unix_day, days_before_month};
ghost use Rattle.dh_periods.specs.Days.{is_in_year_as, is_listed};
ghost use Rattle.dh_periods.specs.Spans.{span_as, span_of};

use crate::kind::{Shape, shape_of};
use crate::name::PeriodName;
use jiff_core::civil::{Date, ISOWeekDate, Weekday};

/// The first year of which there are periods.
pub(crate) const FIRST_YEAR: u16 = 1900;

/// The last year of which there are periods.
pub(crate) const LAST_YEAR: u16 = 2100;

/// The first and the last day of a period, as days since 1 January 1970.
#[derive(Clone, Copy)]
pub(crate) struct Span {
    pub first: i32,
    pub last: i32,
}

/// The first day of the month that begins so many months after January 1900.
pub(crate) fn month_start(place: u16) -> i32
    requires { place ≤ 2424 }
    ensures { result ≡ unix_day (days_before_month place) }
{
    let year = (FIRST_YEAR + place / 12) as i16;
    let month = (place % 12 + 1) as u8;
    Date::constrain(year, month, 1).to_unix_epoch_day()
}

fn span_of_day(name: PeriodName) -> Option<Span>
    requires year_from { 1900 ≤ name.year }
    requires year_to { name.year ≤ 2100 }
    ensures { result ≡ (if is_in_year_as Day name then Some (span_as Day name) else None) }
{
    if name.number > 12 || name.day > 31 {
        return None;
    }
    match Date::new(name.year as i16, name.number as i8, name.day as i8) {
        Ok(date) => {
            let day = date.to_unix_epoch_day();
            Some(Span {
                first: day,
                last: day,
            })
        }
        Err(_) => None,
    }
}

fn span_of_week(name: PeriodName) -> Option<Span>
    requires year_from { 1900 ≤ name.year }
    requires year_to { name.year ≤ 2100 }
    ensures { result ≡ (if is_in_year_as Week name then Some (span_as Week name) else None) }
{
    if name.number > 53 || name.day != 1 {
        return None;
    }
    match ISOWeekDate::new(name.year as i16, name.number as i8, Weekday::Monday) {
        Ok(week) => {
            let first = week.to_date().to_unix_epoch_day();
            Some(Span {
                first,
                last: first + 6,
            })
        }
        Err(_) => None,
    }
}

/// Whether a year of periods of so many months has one of that name.
fn is_in_year(count: u8, name: PeriodName) -> bool
    requires { 1 ≤ count }
    ensures value { result ≡ is_in_year_as (Months count 0) name }
    ensures number { IsTrue result → (1 ≤ name.number) × (name.number ≤ 12 / count) }
{
    1 <= name.number && name.number <= 12 / count && name.day == 1
}

/// The months of a year before its period of that number, each of so many months.
fn months_before(count: u8, number: u8) -> u8
    requires count { 1 ≤ count }
    requires number_from { 1 ≤ number }
    requires number_to { number ≤ 12 / count }
    ensures value { result ≡ count * (number - 1) }
    ensures room { result + count ≤ 12 }
{
    count * (number - 1)
}

fn span_of_months(count: u8, opening: u8, name: PeriodName) -> Option<Span>
    requires year_from { 1900 ≤ name.year }
    requires year_to { name.year ≤ 2100 }
    requires count_from { 1 ≤ count }
    requires count_to { count ≤ 12 }
    requires opening_to { opening ≤ 9 }
    ensures { result
        ≡ (if is_in_year_as (Months count opening) name
        then Some (span_as (Months count opening) name) else None) }
{
    if !is_in_year(count, name) {
        return None;
    }
    let place = 12 * (name.year - FIRST_YEAR)
        + u16::from(opening + months_before(count, name.number));
    Some(Span {
        first: month_start(place),
        last: month_start(place + u16::from(count)) - 1,
    })
}

/// The days of the period of that name, or `None` where there is no such period.
pub(crate) fn span_of(name: PeriodName) -> Option<Span>
    ensures { result ≡ (if is_listed name then Some (span_of name) else None) }
{
    if name.year < FIRST_YEAR || name.year > LAST_YEAR {
        return None;
    }
    match shape_of(name.kind) {
        Shape::Day => span_of_day(name),
        Shape::Week => span_of_week(name),
        Shape::Months { count, opening } => span_of_months(count, opening, name),
    }
}
