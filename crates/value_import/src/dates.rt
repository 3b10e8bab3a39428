//! Dates.

ghost use Rattle.std.specs.Prelude.{◌≡◌};
ghost use Rattle.value_import.specs.Dates.{is_time, dated, day_told};

use dh_changes::text::Text;
use dh_periods::civil;

/// The length of a date's text.
const DATE: usize = 10;

fn is_time(rest: &[u8]) -> bool
    ensures { result ≡ is_time rest.now }
{
    match rest.first() {
        None => true,
        Some(byte) => *byte == b'T',
    }
}

/// The day of a text whose first ten bytes are a date. What follows them begins with `T`, or is nothing.
#[tactic(auto, unfolding(crate::specs::Dates::dated))]
pub fn dated(text: &[u8]) -> Option<i32>
    ensures { result ≡ dated text.now }
{
    if text.len() < DATE {
        return civil(text);
    }
    let (date, rest) = text.split_at(DATE);
    if is_time(rest) { civil(date) } else { None }
}

/// The day that a text tells, or today where there is none. `None` where the first ten bytes aren't a
/// date, or what follows them doesn't begin with `T`.
#[tactic(auto, unfolding(crate::specs::Dates::day_told))]
pub fn day_told(today: i32, text: &Option<Text>) -> Option<i32>
    ensures { result ≡ day_told today text.now }
{
    match text {
        None => Some(today),
        Some(text) => dated(text.as_slice()),
    }
}
