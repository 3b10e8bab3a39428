//! Dates.

ghost use Rattle.std.specs.Prelude.{◌≡◌};
ghost use Rattle.tracker_import.specs.Rules as rules;

use dh_base::items::Items;
use value_import::dates::dated;

/// The day that a text tells, if there is one.
pub fn day_in(text: &Option<Items<u8>>) -> Option<i32>
    ensures { result ≡ rules.day_in text.now }
{
    match text {
        Some(text) => dated(text.as_slice()),
        None => None,
    }
}

/// Whether a text is there and tells no day.
pub fn is_no_day(text: &Option<Items<u8>>) -> bool
    ensures { result ≡ rules.is_no_day text.now }
{
    match text {
        Some(text) => dated(text.as_slice()).is_none(),
        None => false,
    }
}
