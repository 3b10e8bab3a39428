//! The numbers of values.

ghost use Rattle.std.specs.Prelude.{◌≡◌, Some, pos, int_lt, int_le};
ghost use Rattle.std.specs.List.{list_any};
ghost use Rattle.dh_base.specs.Decimals.{is_point};
ghost use Rattle.dh_records.specs.Values.{is_numeric, integer_of, number_if, is_up_to, is_true, is_false, truth_of, boolean_of, number_of};

use dh_base::decimal::{Micros, read_decimal};
use dh_metadata::names::ValueType;

/// Whether the values of the type are numbers.
pub fn is_numeric(value_type: ValueType) -> bool
    ensures { result ≡ is_numeric value_type }
{
    match value_type {
        ValueType::Number => true,
        ValueType::Integer => true,
        ValueType::IntegerPositive => true,
        ValueType::IntegerNegative => true,
        ValueType::IntegerZeroOrPositive => true,
        ValueType::Percentage => true,
        ValueType::UnitInterval => true,
        ValueType::Boolean => false,
        ValueType::TrueOnly => false,
        ValueType::Date => false,
        ValueType::Text => false,
    }
}

fn has_point(text: &[u8]) -> bool
    ensures { result ≡ list_any is_point text.now }
{
    text.contains(&b'.')
}

#[tactic(auto, unfolding(crate::specs::Values::integer_of))]
fn integer_of(text: &[u8]) -> Option<Micros>
    ensures { result ≡ integer_of text.now }
{
    if has_point(text) {
        return None;
    }
    read_decimal(text)
}

fn above_zero(found: Option<Micros>) -> Option<Micros>
    ensures { result ≡ number_if (int_lt (pos 0)) found }
{
    let number = found?;
    if 0 < number.value() {
        Some(number)
    } else {
        None
    }
}

fn below_zero(found: Option<Micros>) -> Option<Micros>
    ensures { result ≡ number_if (λ number. int_lt number (pos 0)) found }
{
    let number = found?;
    if number.value() < 0 {
        Some(number)
    } else {
        None
    }
}

fn not_below_zero(found: Option<Micros>) -> Option<Micros>
    ensures { result ≡ number_if (int_le (pos 0)) found }
{
    let number = found?;
    if 0 <= number.value() {
        Some(number)
    } else {
        None
    }
}

fn up_to(most: i64, found: Option<Micros>) -> Option<Micros>
    ensures { result ≡ number_if (is_up_to most) found }
{
    let number = found?;
    if 0 <= number.value() && number.value() <= most {
        Some(number)
    } else {
        None
    }
}

/// Whether the text is `true` or `1`.
pub(crate) fn is_true(text: &[u8]) -> bool
    ensures { result ≡ is_true text.now }
{
    text == b"true".as_slice() || text == b"1".as_slice()
}

/// Whether the text is `false` or `0`.
pub(crate) fn is_false(text: &[u8]) -> bool
    ensures { result ≡ is_false text.now }
{
    text == b"false".as_slice() || text == b"0".as_slice()
}

#[tactic(auto, unfolding(dh_base::specs::Decimals::decimal_of, dh_base::specs::Decimals::size_of, dh_base::specs::Decimals::digits_of))]
fn one() -> Option<Micros>
    ensures { result ≡ Some (pos 1000000) }
{
    read_decimal(b"1")
}

#[tactic(auto, unfolding(dh_base::specs::Decimals::decimal_of, dh_base::specs::Decimals::size_of, dh_base::specs::Decimals::digits_of))]
fn zero() -> Option<Micros>
    ensures { result ≡ Some (pos 0) }
{
    read_decimal(b"0")
}

#[tactic(auto, unfolding(crate::specs::Values::truth_of))]
fn truth_of(text: &[u8]) -> Option<Micros>
    ensures { result ≡ truth_of text.now }
{
    if is_true(text) { one() } else { None }
}

#[tactic(auto, unfolding(crate::specs::Values::boolean_of))]
fn boolean_of(text: &[u8]) -> Option<Micros>
    ensures { result ≡ boolean_of text.now }
{
    if is_false(text) {
        zero()
    } else {
        truth_of(text)
    }
}

/// The number of a text that is a value of the type, in millionths: that of a number, 1 of a truth and 0
/// of a BOOLEAN that is false. Dates, texts and what isn't a value of the type have none.
pub fn number_of(value_type: ValueType, text: &[u8]) -> Option<Micros>
    ensures { result ≡ number_of value_type text.now }
{
    match value_type {
        ValueType::Number => read_decimal(text),
        ValueType::Integer => integer_of(text),
        ValueType::IntegerPositive => above_zero(integer_of(text)),
        ValueType::IntegerNegative => below_zero(integer_of(text)),
        ValueType::IntegerZeroOrPositive => not_below_zero(integer_of(text)),
        ValueType::Percentage => up_to(100_000_000, read_decimal(text)),
        ValueType::UnitInterval => up_to(1_000_000, read_decimal(text)),
        ValueType::Boolean => boolean_of(text),
        ValueType::TrueOnly => truth_of(text),
        ValueType::Date => None,
        ValueType::Text => None,
    }
}
