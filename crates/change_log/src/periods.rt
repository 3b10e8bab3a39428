//! How long the text of a period is, without writing it.
ghost use Rattle.std.specs.Prelude.{◌≡◌, ◌≤◌, ◌<◌, IsTrue, nat_lt, length};
ghost use Rattle.dh_periods.specs.Texts.{period_text};
ghost use Rattle.dh_periods.specs.Days.{is_listed};
ghost use Rattle.dh_periods.specs.declared.kind.PeriodType.TheVariants.{Weekly};

use dh_periods::{Period, PeriodType, containing};

// Whether the number of a week has one digit. A week is of the year of its Thursday, and week 1 is the
// week with the first one.
fn has_one_digit(week: Period) -> bool
    requires { week.kind ≡ Weekly }
    ensures { result ≡ nat_lt week.number 10 }
{
    let thursday = week.first() + 3;
    match containing(PeriodType::Yearly, thursday, thursday) {
        Some(year) => thursday - year.first() < 63,
        None => false,
    }
}

/// The number of bytes of a period's text.
pub(crate) fn period_len(period: Period) -> u64
    ensures value { result ≡ length (period_text period) }
    ensures bound { result ≤ 11 }
    ensures listed { IsTrue (is_listed period) }
{
    match period.kind() {
        PeriodType::Daily => 8,
        PeriodType::Weekly => { if has_one_digit(period) { 6 } else { 7 } }
        PeriodType::Monthly => 6,
        PeriodType::BiMonthly => 7,
        PeriodType::Quarterly => 6,
        PeriodType::SixMonthly => 6,
        PeriodType::SixMonthlyApril => 11,
        PeriodType::Yearly => 4,
        PeriodType::FinancialApril => 9,
        PeriodType::FinancialJuly => 8,
        PeriodType::FinancialOct => 7,
    }
}
