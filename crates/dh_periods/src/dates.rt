//! Calendar dates as text.
ghost use Rattle.std.specs.Prelude.{◌≡◌, IfSome, IfNone};
ghost use Rattle.dh_periods.specs.declared.name.PeriodName.{PeriodName};
ghost use Rattle.dh_periods.specs.Days.{first_day};
ghost use Rattle.dh_periods.specs.Civil.{read_date, civil_of, IsDateText};

use crate::name::PeriodName;
use crate::period::Period;
use crate::read::{dated, number_of_four, number_of_two};

#[tactic(auto, unfolding(crate::specs::Civil::read_date))]
fn read_date(text: &[u8]) -> Option<PeriodName>
    ensures { result ≡ read_date text.now }
{
    if text.len() != 10 {
        return None;
    }
    if text[4] != b'-' || text[7] != b'-' {
        return None;
    }
    let year = number_of_four(text[0], text[1], text[2], text[3])?;
    let month = number_of_two(text[5], text[6]);
    dated(year, month, number_of_two(text[8], text[9]))
}

#[tactic(auto, unfolding(crate::specs::Civil::civil_of))]
fn civil_in(text: &[u8]) -> Option<i32>
    ensures { result ≡ civil_of text.now }
{
    let name = read_date(text)?;
    match Period::named(name) {
        Some(period) => Some(period.first()),
        None => None,
    }
}

/// The day of a text such as `2024-02-29`, with a year from 1900 to 2100, as days since 1 January
/// 1970, or `None` for other texts. A text of another length is refused by its length alone.
pub fn civil(text: &[u8]) -> Option<i32>
    ensures value { result ≡ civil_of text.now }
    ensures found { IfSome result
        (λ day. (p : PeriodName) × IsDateText text.now p × (day ≡ first_day p)) }
    ensures none { IfNone result ((p : PeriodName) → ¬ IsDateText text.now p) }
{
    civil_in(text)
}
