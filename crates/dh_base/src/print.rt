ghost use Rattle.std.specs.Prelude.{◌≡◌, ◌<◌, ◌≤◌, ◌+◌, ◌*◌, ◌/◌, ◌%◌, ◌^◌, ◌++◌, ℕ, ℤ, pos, Some, IfOk, OnOk, decimal, unsigned_abs};
ghost use Rattle.dh_base.specs.Fractions.{fraction_of};
ghost use Rattle.dh_base.specs.Decimals.{printed, rounded, decimals, with_point, decimal_of, sign_of};

use crate::frac::Frac;
use crate::memory::Memory;
use itoa::Buffer;
use std::alloc::Global;

/// The text of a number, rounded half away from zero to at most that many decimals, without
/// trailing zeros and without a bare point. A number that rounds to zero is `0`.
///
/// A whole number of millionths that has a text of 12 digits before the point, printed with 6
/// decimals, is read back as that number.
pub fn print_rounded(alloc: Global, value: Frac, decimals: u8) -> Result<Vec<u8>, Memory>
    requires { decimals ≤ 6 }
    ensures text { IfOk result (λ text. text.items ≡ printed value decimals) }
    ensures read_back { IfOk result (λ text. (micros : ℤ) → unsigned_abs micros < 10 ^ 18 → value ≡ fraction_of micros 1000000 → decimals ≡ 6
        → decimal_of text.items ≡ Some micros) }
{
    let num = value.num();
    let number = round(num.unsigned_abs(), value.den().unsigned_abs(), decimals);
    let mut text = Vec::new(alloc);
    push_sign(&mut text, num, number)?;
    push_whole(&mut text, number.whole)?;
    push_decimals(&mut text, number.rest, decimals)?;
    Ok(text)
}

// A rounded number: its whole part, and its decimals as a number.
#[derive(Clone, Copy)]
struct Rounded {
    whole: u128,
    rest: u64,
}

fn round(size: u128, den: u128, places: u8) -> Rounded
    requires positive { 0 < den }
    requires size_fits { size < 2 ^ 127 }
    requires den_fits { den < 2 ^ 127 }
    requires places { places ≤ 6 }
    ensures whole { result.whole ≡ rounded size den places / 10 ^ places }
    ensures rest { result.rest ≡ rounded size den places % 10 ^ places }
{
    let (digits, left) = divide_on(size % den, den, places);
    let whole = size / den;
    if left < den - left {
        Rounded {
            whole,
            rest: digits,
        }
    } else if digits + 1 < power_of_ten(places) {
        Rounded {
            whole,
            rest: digits + 1,
        }
    } else {
        Rounded {
            whole: whole + 1,
            rest: 0,
        }
    }
}

// The first digits of `rest / den` after the point as a number, and what they leave.
fn divide_on(rest: u128, den: u128, places: u8) -> (u64, u128)
    requires below { rest < den }
    requires den_fits { den < 2 ^ 127 }
    requires places { places ≤ 6 }
    ensures digits { result.0 * den + result.1 ≡ rest * 10 ^ places }
    ensures left { result.1 < den }
    ensures small { result.0 < 10 ^ places }
{
    let mut digits = 0;
    let mut left = rest;
    for _ in 0..places {
        let (digit, after) = next_digit(left, den);
        digits = digits * 10 + digit;
        left = after;
    }
    (digits, left)
}

// The quotient and the remainder of `10 * rest` by `den`, in steps that stay below 2^128.
fn next_digit(rest: u128, den: u128) -> (u64, u128)
    requires below { rest < den }
    requires den_fits { den < 2 ^ 127 }
    ensures digit { result.0 * den + result.1 ≡ rest * 10 }
    ensures left { result.1 < den }
    ensures small { result.0 < 10 }
{
    let (twice, left) = plus(0, rest, rest, den);
    let (four, left) = plus(2 * twice, left, left, den);
    let (five, left) = plus(four, left, rest, den);
    plus(2 * five, left, left, den)
}

// `a + b` as a number of times `den`, on top of `count` times, and the remainder.
fn plus(count: u64, a: u128, b: u128, den: u128) -> (u64, u128)
    requires small { count < 20 }
    requires a_below { a < den }
    requires b_below { b < den }
    requires den_fits { den < 2 ^ 127 }
    ensures total { result.0 * den + result.1 ≡ count * den + a + b }
    ensures left { result.1 < den }
    ensures most { result.0 ≤ count + 1 }
{
    let sum = a + b;
    if sum < den {
        (count, sum)
    } else {
        (count + 1, sum - den)
    }
}

fn power_of_ten(places: u8) -> u64
    requires { places ≤ 6 }
    ensures { result ≡ 10 ^ places }
{
    match places {
        0 => 1,
        1 => 10,
        2 => 100,
        3 => 1_000,
        4 => 10_000,
        5 => 100_000,
        _ => 1_000_000,
    }
}

fn push_sign(text: &mut Vec<u8>, num: i128, number: Rounded) -> Result<(), Memory>
    ensures { OnOk result (text.new.items ≡ text.old.items ++ sign_of num (number.whole + number.rest)) }
{
    if num >= 0 {
        return Ok(());
    }
    if number.whole == 0 && number.rest == 0 {
        return Ok(());
    }
    text.push(b'-')?;
    Ok(())
}

fn push_whole(text: &mut Vec<u8>, whole: u128) -> Result<(), Memory>
    ensures { OnOk result (text.new.items ≡ text.old.items ++ decimal whole) }
{
    let mut buffer = Buffer::new();
    text.extend_from_slice(buffer.format(whole).as_bytes())?;
    Ok(())
}

fn push_decimals(text: &mut Vec<u8>, rest: u64, places: u8) -> Result<(), Memory>
    requires places { places ≤ 6 }
    requires below { rest < 10 ^ places }
    ensures { OnOk result (text.new.items ≡ text.old.items ++ with_point (decimals places rest)) }
{
    if rest == 0 {
        return Ok(());
    }
    text.push(b'.')?;
    push_digits(text, rest, places)
}

fn push_digits(text: &mut Vec<u8>, rest: u64, places: u8) -> Result<(), Memory>
    requires places { places ≤ 6 }
    requires below { rest < 10 ^ places }
    ensures { OnOk result (text.new.items ≡ text.old.items ++ decimals places rest) }
{
    let mut left = rest;
    let mut beyond = places;
    while left != 0 {
        beyond -= 1;
        let weight = power_of_ten(beyond);
        text.push(b'0' + (left / weight) as u8)?;
        left %= weight;
    }
    Ok(())
}
