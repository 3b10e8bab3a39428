//! Reading the text of a period.
ghost use Rattle.std.specs.Prelude.{◌≡◌, ◌≤◌, ◌+◌, ◌-◌, Some, None, if◌then◌else◌, bytes_eq};
ghost use Rattle.dh_periods.specs.Texts.{number_of_one, number_of_two, number_of_four, numbered, dated, read_two, read_three, read_ending, read_name};

use crate::kind::PeriodType;
use crate::name::PeriodName;

fn is_text(bytes: &[u8], text: &str) -> bool
    ensures { result ≡ bytes_eq bytes.now text.now }
{
    bytes == text.as_bytes()
}

fn number_of_one(byte: u8) -> Option<u8>
    ensures { result ≡ number_of_one byte }
{
    if byte.is_ascii_digit() {
        Some(byte - b'0')
    } else {
        None
    }
}

pub(crate) fn number_of_two(tens: u8, ones: u8) -> Option<u8>
    ensures { result ≡ number_of_two tens ones }
{
    if tens.is_ascii_digit() && ones.is_ascii_digit() {
        Some(10 * (tens - b'0') + (ones - b'0'))
    } else {
        None
    }
}

pub(crate) fn number_of_four(thousands: u8, hundreds: u8, tens: u8, ones: u8) -> Option<u16>
    ensures { result ≡ number_of_four thousands hundreds tens ones }
{
    let high = number_of_two(thousands, hundreds)?;
    let low = number_of_two(tens, ones)?;
    Some(100 * u16::from(high) + u16::from(low))
}

fn numbered(kind: PeriodType, year: u16, number: Option<u8>) -> Option<PeriodName>
    ensures { result ≡ numbered kind year number }
{
    let number = number?;
    Some(PeriodName {
        kind,
        year,
        number,
        day: 1,
    })
}

pub(crate) fn dated(year: u16, month: Option<u8>, day: Option<u8>) -> Option<PeriodName>
    ensures { result ≡ dated year month day }
{
    let number = month?;
    let day = day?;
    Some(PeriodName {
        kind: PeriodType::Daily,
        year,
        number,
        day,
    })
}

fn read_two(year: u16, first: u8, second: u8) -> Option<PeriodName>
    ensures { result ≡ read_two year first second }
{
    if first == b'W' {
        numbered(PeriodType::Weekly, year, number_of_one(second))
    } else if first == b'Q' {
        numbered(PeriodType::Quarterly, year, number_of_one(second))
    } else if first == b'S' {
        numbered(PeriodType::SixMonthly, year, number_of_one(second))
    } else {
        numbered(PeriodType::Monthly, year, number_of_two(first, second))
    }
}

fn read_three(year: u16, first: u8, second: u8, third: u8) -> Option<PeriodName>
    ensures { result ≡ read_three year first second third }
{
    if first == b'W' {
        numbered(PeriodType::Weekly, year, number_of_two(second, third))
    } else if third == b'B' {
        numbered(PeriodType::BiMonthly, year, number_of_two(first, second))
    } else {
        None
    }
}

#[tactic(auto, unfolding(crate::specs::Texts::read_ending))]
fn read_ending(year: u16, rest: &[u8]) -> Option<PeriodName>
    ensures { result ≡ read_ending year rest.now }
{
    if rest.len() == 0 {
        return numbered(PeriodType::Yearly, year, Some(1));
    }
    if rest.len() == 2 {
        return read_two(year, rest[0], rest[1]);
    }
    if is_text(rest, "Oct") {
        return numbered(PeriodType::FinancialOct, year, Some(1));
    }
    if rest.len() == 3 {
        return read_three(year, rest[0], rest[1], rest[2]);
    }
    if is_text(rest, "July") {
        return numbered(PeriodType::FinancialJuly, year, Some(1));
    }
    if rest.len() == 4 {
        let month = number_of_two(rest[0], rest[1]);
        return dated(year, month, number_of_two(rest[2], rest[3]));
    }
    if is_text(rest, "April") {
        return numbered(PeriodType::FinancialApril, year, Some(1));
    }
    if rest.len() == 7 && is_text(&rest[..6], "AprilS") {
        return numbered(PeriodType::SixMonthlyApril, year, number_of_one(rest[6]));
    }
    None
}

/// What the text of a period says, whether or not there is such a period.
#[tactic(auto, unfolding(crate::specs::Texts::read_name))]
pub(crate) fn read_name(text: &[u8]) -> Option<PeriodName>
    ensures { result ≡ read_name text.now }
{
    if text.len() < 4 || text.len() > 11 {
        return None;
    }
    let year = number_of_four(text[0], text[1], text[2], text[3])?;
    read_ending(year, &text[4..])
}
