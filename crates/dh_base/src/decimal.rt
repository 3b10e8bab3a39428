ghost use Rattle.std.specs.Prelude.{◌≡◌, ◌<◌, ◌≤◌, ◌*◌, ◌^◌, ◌-◌, pos, unsigned_abs, neg_ℤ, length, IfSome, position, true};
ghost use Rattle.std.specs.List.{list_all};
ghost use Rattle.std.specs.Char.{is_ascii_digit};
ghost use Rattle.std.specs.Str.Parse.{digits_value};
ghost use Rattle.dh_base.specs.Decimals.{decimal_of, size_of, digits_of, decimals_of, is_point};

use std::marker::Model;

/// A value: a whole number of millionths, below 10^18 in size.
#[derive(Clone, Copy)]
pub struct Micros {
    value: i64,
}

impl Model for Micros {
    ghost use Rattle.std.specs.Prelude.{◌<◌, ◌^◌, ℤ, unsigned_abs};

    ghost Value = { ℤ };

    ghost view = { λ micros. micros.value };

    ghost invariant = { λ micros. unsigned_abs micros.value < 10 ^ 18 };

    ghost inverse = { λ number. record { value = number } };
}

impl Micros {
    /// The number of millionths.
    pub fn value(self) -> i64
        ensures value { result ≡ self }
        ensures size { unsigned_abs result < 10 ^ 18 }
    {
        self.value
    }
}

/// The value that a text writes, or `None` where it writes none: an optional minus, 1 to 12
/// digits, and optionally a point with 1 to 6 digits. A text of more than 20 bytes is refused by
/// its length alone.
#[tactic(auto, unfolding(crate::specs::Decimals::decimal_of))]
pub fn read_decimal(text: &[u8]) -> Option<Micros>
    ensures { result ≡ decimal_of text.now }
{
    if text.len() > LONGEST {
        return None;
    }
    if !text.is_empty() && text[0] == b'-' {
        Some(negative(read_size(&text[1..])?))
    } else {
        Some(positive(read_size(text)?))
    }
}

// A minus, 12 digits, a point and 6 digits.
const LONGEST: usize = 20;

fn positive(size: u64) -> Micros
    requires { size < 10 ^ 18 }
    ensures { result ≡ pos size }
{
    Micros { value: size as i64 }
}

fn negative(size: u64) -> Micros
    requires { size < 10 ^ 18 }
    ensures { result ≡ neg_ℤ (pos size) }
{
    let size = size as i64;
    Micros { value: -size }
}

#[tactic(auto, unfolding(crate::specs::Decimals::size_of))]
fn read_size(text: &[u8]) -> Option<u64>
    ensures value { result ≡ size_of text.now }
    ensures bound { IfSome result (λ n. n < 10 ^ 18) }
{
    match point_of(text) {
        None => Some(read_digits(text, 12)? * 1_000_000),
        Some(place) => {
            let whole = read_digits(&text[..place], 12)?;
            let millionths = read_decimals(&text[place + 1..])?;
            Some(whole * 1_000_000 + millionths)
        }
    }
}

fn point_of(text: &[u8]) -> Option<usize>
    ensures place { result ≡ position is_point text.now }
    ensures within { IfSome result (λ place. place < length text.now) }
{
    for place in 0..text.len() {
        if text[place] == b'.' {
            return Some(place);
        }
    }
    None
}

fn read_decimals(text: &[u8]) -> Option<u64>
    ensures value { result ≡ decimals_of text.now }
    ensures bound { IfSome result (λ n. n < 1000000) }
{
    let digits = read_digits(text, 6)?;
    Some(digits * weight(text.len()))
}

// How many millionths a unit of the last of that many decimals is.
fn weight(places: usize) -> u64
    requires { places ≤ 6 }
    ensures { result ≡ 10 ^ (6 - places) }
{
    match places {
        0 => 1_000_000,
        1 => 100_000,
        2 => 10_000,
        3 => 1_000,
        4 => 100,
        5 => 10,
        _ => 1,
    }
}

#[tactic(auto, unfolding(crate::specs::Decimals::digits_of))]
fn read_digits(text: &[u8], most: usize) -> Option<u64>
    requires { most ≤ 12 }
    ensures value { result ≡ digits_of most text.now }
    ensures bound { IfSome result (λ n. n < 10 ^ length text.now) }
    ensures small { IfSome result (λ n. n < 10 ^ most) }
    ensures length { IfSome result (λ _. length text.now ≤ most) }
{
    if text.is_empty() || text.len() > most {
        return None;
    }
    for byte in text {
        if !byte.is_ascii_digit() {
            return None;
        }
    }
    Some(value_of(text))
}

fn value_of(text: &[u8]) -> u64
    requires digits { list_all is_ascii_digit text.now ≡ true }
    requires short { length text.now ≤ 12 }
    ensures value { result ≡ digits_value 10 text.now }
    ensures bound { result < 10 ^ length text.now }
{
    let mut value = 0;
    for byte in text {
        value = value * 10 + u64::from(*byte - b'0');
    }
    value
}
