//! Periods and their days.
ghost use Rattle.std.specs.Prelude.{◌≡◌, IsTrue, IfSome, IfNone, IfOk, Some, None, if◌then◌else◌, pos, neg_ℤ, ◌-ℤ◌, ◌+ℤ◌, ◌≤ℤ◌, int_le, ◌&&◌, ◌≤◌, ◌+◌, ◌-◌};
ghost use Rattle.std.specs.Prelude.{◌*◌, ◌/◌};
ghost use Rattle.dh_periods.specs.declared.name.PeriodName.{PeriodName};
ghost use Rattle.dh_periods.specs.Places.{year_of, ordinal_of, nth_period, containing_of, Has};
ghost use Rattle.dh_periods.specs.Texts.{period_of, period_text, IsTextOf};
ghost use Rattle.dh_periods.specs.Days.{first_day, last_day, listed, is_listed, is_inside};
ghost use Rattle.dh_periods.specs.Order.{period_order};
ghost use Rattle.std.specs.declared.cmp.Ordering.TheVariants.{Equal};

use crate::days::{FIRST_YEAR, span_of};
use crate::kind::{PeriodType, Shape, shape_of};
use crate::name::PeriodName;
use crate::places::{FIRST_DAY, candidate, date_at, place_of};
use crate::print::print_name;
use crate::read::read_name;
use dh_base::memory::Memory;
use std::alloc::Global;
use std::cmp::Ordering;
use std::marker::Model;

/// 30 September 2101, the last day of all periods.
const LAST_DAY: i32 = 48_119;

/// A period: a day, a week, or some months.
///
/// Periods are ordered by their last day, then by their first day, then by their type.
#[derive(Clone, Copy, PartialEq, Eq, PartialOrd, Ord, Hash)]
pub struct Period {
    last: i32,
    first: i32,
    name: PeriodName,
}

impl Model for Period {
    ghost use Rattle.dh_periods.specs.declared.name.PeriodName.{PeriodName};

    ghost Value = { PeriodName };

    ghost use Rattle.dh_periods.specs.Held.{IsHeld, fields, fields-view};

    ghost view = { λ a. a.name };

    ghost invariant = { IsHeld };

    ghost inverse = { fields };

    ghost inverse_ok = { fields-view };
}

fn days_between(first: i32, last: i32) -> u32
    requires from { neg_ℤ (pos 25567) ≤ℤ first }
    requires order { first ≤ℤ last }
    requires to { last ≤ℤ pos 48119 }
    ensures { pos result ≡ (last -ℤ first) +ℤ pos 1 }
{
    (last - first + 1) as u32
}

#[tactic(auto, unfolding(crate::specs::Texts::period_of))]
fn period_in(text: &[u8]) -> Option<Period>
    ensures { result ≡ period_of text.now }
{
    Period::named(read_name(text)?)
}

fn year_in(first: i32, name: PeriodName) -> u16
    requires listed { IsTrue (is_listed name) }
    requires first { first ≡ first_day name }
    ensures { result ≡ year_of name }
{
    match shape_of(name.kind) {
        Shape::Week => date_at(place_of(first)).year as u16,
        Shape::Day => name.year,
        Shape::Months { .. } => name.year,
    }
}

fn month_ordinal(count: u8, name: PeriodName) -> u32
    requires year_from { 1900 ≤ name.year }
    requires year_to { name.year ≤ 2100 }
    requires count { 1 ≤ count }
    requires number { 1 ≤ name.number }
    ensures { result ≡ 12 / count * (name.year - 1900) + (name.number - 1) }
{
    u32::from(12 / count) * u32::from(name.year - FIRST_YEAR) + u32::from(name.number - 1)
}

fn ordinal_in(first: i32, name: PeriodName) -> u32
    requires listed { IsTrue (is_listed name) }
    requires first { first ≡ first_day name }
    ensures value { result ≡ ordinal_of name }
    ensures bound { result ≤ 80_000 }
{
    match shape_of(name.kind) {
        Shape::Day => place_of(first),
        Shape::Week => place_of(first) / 7,
        Shape::Months { count, .. } => month_ordinal(count, name),
    }
}

fn are_in(period_first: i32, period_last: i32, first: i32, last: i32) -> bool
    ensures { result
        ≡ (int_le period_first first && (int_le first last && int_le last period_last)) }
{
    period_first <= first && first <= last && last <= period_last
}

fn period_at(kind: PeriodType, first: i32, last: i32) -> Option<Period>
    requires from { neg_ℤ (pos 25567) ≤ℤ first }
    requires to { first ≤ℤ pos 48119 }
    ensures { result ≡ containing_of kind first last }
{
    let Some(period) = Period::named(candidate(kind, place_of(first))) else {
        return None;
    };
    if are_in(period.first(), period.last(), first, last) {
        Some(period)
    } else {
        None
    }
}

fn period_with(kind: PeriodType, first: i32, last: i32) -> Option<Period>
    ensures { result ≡ containing_of kind first last }
{
    if first < FIRST_DAY || first > LAST_DAY {
        return None;
    }
    period_at(kind, first, last)
}

/// The period of that type that has the days from `first` to `last`, or `None` where there is
/// none, as where the first is after the last.
pub fn containing(kind: PeriodType, first: i32, last: i32) -> Option<Period>
    ensures value { result ≡ containing_of kind first last }
    ensures found { IfSome result (λ p. (p.kind ≡ kind) × Has p first last) }
    ensures none { IfNone result
        ((p : PeriodName) → IsTrue (is_listed p) → p.kind ≡ kind → ¬ Has p first last) }
{
    period_with(kind, first, last)
}

impl Period {
    /// The period of that name, or `None` where there is none.
    pub fn named(name: PeriodName) -> Option<Period>
        ensures { result ≡ listed name }
    {
        let span = span_of(name)?;
        Some(Period {
            last: span.last,
            first: span.first,
            name,
        })
    }

    /// The period of a text, or `None` where no type writes that text. A week's number may have a
    /// leading zero. A text of another length than a period's is refused by its length alone.
    pub fn parse(text: &[u8]) -> Option<Period>
        ensures value { result ≡ period_of text.now }
        ensures found { IfSome result (λ p. IsTextOf text.now p × IsTrue (is_listed p)) }
        ensures none { IfNone result
            ((p : PeriodName) → IsTrue (is_listed p) → ¬ IsTextOf text.now p) }
    {
        period_in(text)
    }

    /// Its type.
    pub fn kind(self) -> PeriodType
        ensures { result ≡ self.kind }
    {
        self.name.kind
    }

    /// Its first day, as days since 1 January 1970.
    pub fn first(self) -> i32
        ensures value { result ≡ first_day self }
        ensures listed { IsTrue (is_listed self) }
    {
        self.first
    }

    /// Its last day, as days since 1 January 1970.
    pub fn last(self) -> i32
        ensures value { result ≡ last_day self }
        ensures listed { IsTrue (is_listed self) }
    {
        self.last
    }

    /// The number of its days.
    pub fn days(self) -> u32
        ensures { pos result ≡ (last_day self -ℤ first_day self) +ℤ pos 1 }
    {
        days_between(self.first, self.last)
    }

    /// Whether its first and its last day lie in the other period.
    pub fn inside(self, other: Period) -> bool
        ensures { result ≡ is_inside self other }
    {
        other.first <= self.first && self.last <= other.last
    }

    /// Where it stands to the other one: by the last day, then by the first day, then by the type.
    /// Two periods that stand at one place are one.
    pub fn order(self, other: Period) -> Ordering
        ensures value { result ≡ period_order self other }
        ensures same { result ≡ Equal → self ≡ other }
    {
        self.cmp(&other)
    }

    /// Its text. What it gives is read again as the same period.
    pub fn print(self, alloc: Global) -> Result<Vec<u8>, Memory>
        ensures text { IfOk result (λ text. text.items ≡ period_text self) }
        ensures again { IfOk result (λ text. period_of text.items ≡ Some self) }
    {
        print_name(alloc, self.name)
    }

    /// The year of its first day. The first week of a year may begin in the year before.
    pub fn year(self) -> i32
        ensures { result ≡ pos (year_of self) }
    {
        i32::from(year_in(self.first, self.name))
    }

    /// Its place among the periods of its type, which is 0 for the earliest.
    pub fn ordinal(self) -> i32
        ensures value { result ≡ pos (ordinal_of self) }
        ensures place { nth_period self.kind (ordinal_of self) ≡ self }
        ensures next { (p : PeriodName) → IsTrue (is_listed p) → p.kind ≡ self.kind
            → ordinal_of p ≡ ordinal_of self + 1 → first_day p ≡ last_day self +ℤ pos 1 }
    {
        ordinal_in(self.first, self.name) as i32
    }
}
