//! Which texts are values of a type.

ghost use Rattle.std.specs.Prelude.{◌≡◌, IsTrue, is_some};
ghost use Rattle.dh_records.specs.Values.{is_short, is_numeric, number_of, fits};

use crate::number::{is_false, is_true, number_of};
use dh_metadata::names::ValueType;
use dh_periods::civil;

/// The most bytes of a value of TEXT.
const MOST_BYTES: usize = 1_024;

#[tactic(auto, unfolding(crate::specs::Values::is_short))]
fn is_short(text: &[u8]) -> bool
    ensures { result ≡ is_short text.now }
{
    1 <= text.len() && text.len() <= MOST_BYTES
}

/// Whether the text is a value of the type.
///
/// NUMBER is a decimal text; PERCENTAGE and UNIT_INTERVAL are such texts from 0 to 100 and from 0 to 1.
/// The integers are decimal texts without a point. BOOLEAN is `true`, `false`, `1` or `0`, TRUE_ONLY is
/// `true` or `1`, DATE is a date such as `2024-02-29`, and TEXT has 1 to 1,024 bytes.
pub fn fits(value_type: ValueType, text: &[u8]) -> bool
    ensures value { result ≡ fits value_type text.now }
    ensures numeric { IsTrue (is_numeric value_type) → result ≡ is_some (number_of value_type text.now) }
{
    match value_type {
        ValueType::Boolean => is_true(text) || is_false(text),
        ValueType::TrueOnly => is_true(text),
        ValueType::Date => civil(text).is_some(),
        ValueType::Text => is_short(text),
        number => number_of(number, text).is_some(),
    }
}
