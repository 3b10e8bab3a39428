//! The next word of a text.

ghost use Rattle.std.specs.Prelude.{◌≡◌, ◌≤◌, ◌<◌, ◌^◌, ◌-◌, length, map, slice_index, MatchResult, if◌then◌else◌};
ghost use Rattle.expr_lang.specs.Short.{falls_short_of};
ghost use Rattle.expr_lang.specs.Words.{letter_of, text_of};
ghost use Rattle.expr_lang.specs.Token.{is_comparison_of, is_allowed_of, fits_of, front_of, better_of, longest_of, digit_count, digits_of_front, number_of};
ghost use Rattle.expr_lang.specs.Token.{exponent_of};

use crate::tree::Binary;
use crate::words::{self, Symbol};

/// Which words are allowed, of those that aren't everywhere.
#[derive(Clone, Copy)]
pub struct Allowed {
    pub caret: bool,
    pub close: bool,
    pub comma: bool,
    pub quote: bool,
    pub comparison: bool,
}

/// The longest front of some words with which a text begins, and the word that it is, if it is one.
#[derive(Clone, Copy)]
pub struct Front {
    pub len: usize,
    pub symbol: Option<Symbol>,
}

pub fn is_comparison(operator: Binary) -> bool
    ensures { result ≡ is_comparison_of operator }
{
    matches!(
        operator,
        Binary::Equal
            | Binary::NotEqual
            | Binary::Less
            | Binary::AtMost
            | Binary::Greater
            | Binary::AtLeast
    )
}

fn is_allowed(allowed: Allowed, symbol: Symbol) -> bool
    ensures { result ≡ is_allowed_of allowed symbol }
{
    match symbol {
        Symbol::Caret => allowed.caret,
        Symbol::Close => allowed.close,
        Symbol::Comma => allowed.comma,
        Symbol::Quote => allowed.quote,
        Symbol::Operator(operator) => allowed.comparison || !is_comparison(operator),
        _ => true,
    }
}

fn fits(letter: u8, byte: u8) -> bool
    ensures { result ≡ fits_of letter byte }
{
    match letter {
        b'@' => byte.is_ascii_alphabetic(),
        b'$' => byte.is_ascii_alphanumeric(),
        _ => letter == byte,
    }
}

pub fn front_len(word: &[u8], bytes: &[u8]) -> usize
    ensures value { result ≡ front_of word.now bytes.now }
    ensures within { result ≤ length bytes.now }
{
    let mut len = 0;
    while len < word.len() && len < bytes.len() && fits(word[len], bytes[len]) {
        len += 1;
    }
    len
}

fn better(best: Front, symbol: Symbol, word: &[u8], bytes: &[u8]) -> Front
    requires { word.now ≡ text_of symbol }
    ensures value { result ≡ better_of best symbol bytes.now }
    ensures within { best.len ≤ length bytes.now → result.len ≤ length bytes.now }
{
    let len = front_len(word, bytes);
    if best.len < len || (best.len == len && len == word.len()) {
        let symbol = if len == word.len() {
            Some(symbol)
        } else {
            None
        };
        Front { len, symbol }
    } else {
        best
    }
}

/// Whether the last byte of the best front so far isn't one of the word's, which then has less of the text.
#[tactic(auto, unfolding(crate::specs::Short::falls_short_of))]
fn falls_short(len: usize, word: &[u8], bytes: &[u8]) -> bool
    ensures { result ≡ falls_short_of len word.now bytes.now }
{
    len > 0 && len <= word.len() && len <= bytes.len() && !fits(word[len - 1], bytes[len - 1])
}

/// The better of a front and that of a word, if the word is allowed: by one byte where that decides.
#[tactic(auto, using(crate::proofs::Shorter::short_stays))]
fn better_if_allowed(best: Front, allowed: Allowed, symbol: Symbol, bytes: &[u8]) -> Front
    ensures value { result ≡ (if is_allowed_of allowed symbol then better_of best symbol bytes.now else best) }
    ensures within { best.len ≤ length bytes.now → result.len ≤ length bytes.now }
{
    if !is_allowed(allowed, symbol) {
        return best;
    }
    let word = words::text(symbol);
    if falls_short(best.len, word, bytes) {
        best
    } else {
        better(best, symbol, word, bytes)
    }
}

/// Only words that begin with the text's first byte are looked at.
#[tactic(auto, unfolding(crate::specs::Token::longest_of))]
pub fn longest(allowed: Allowed, letters: &[u8], symbols: &[Symbol], bytes: &[u8]) -> Front
    requires { letters.now ≡ map letter_of symbols.now }
    ensures value { result ≡ longest_of allowed symbols.now bytes.now }
    ensures within { result.len ≤ length bytes.now }
{
    let mut best = Front {
        len: 0,
        symbol: None,
    };
    let first = first_byte(bytes);
    for n in 0..letters.len() {
        if letters[n] == first {
            best = better_if_allowed(best, allowed, symbols[n], bytes);
        }
    }
    best
}

/// The first byte, or 0.
fn first_byte(bytes: &[u8]) -> u8
    ensures { result ≡ slice_index bytes.now 0 }
{
    if bytes.is_empty() { 0 } else { bytes[0] }
}

/// The digits at the front, at most so many: the number that they write, and how many there are.
fn digits_at(bytes: &[u8], most: usize) -> (u64, usize)
    requires { most ≤ 12 }
    ensures count { result.1 ≡ digit_count most bytes.now }
    ensures value { result.0 ≡ digits_of_front most bytes.now }
    ensures small { result.0 < 10 ^ most }
    ensures within { result.1 ≤ length bytes.now }
    ensures few { result.1 ≤ most }
{
    let mut value = 0;
    let mut count = 0;
    while count < most && count < bytes.len() && bytes[count].is_ascii_digit() {
        value = value * 10 + (bytes[count] - b'0') as u64;
        count += 1;
    }
    (value, count)
}

fn scale(decimals: usize) -> u64
    requires { decimals ≤ 6 }
    ensures { result ≡ 10 ^ (6 - decimals) }
{
    match decimals {
        0 => 1_000_000,
        1 => 100_000,
        2 => 10_000,
        3 => 1_000,
        4 => 100,
        5 => 10,
        _ => 1,
    }
}

/// The number at the front in millionths and its length, or how many bytes may begin one.
#[tactic(auto, unfolding(crate::specs::Token::number_of))]
pub fn number_at(bytes: &[u8]) -> Result<(u64, usize), usize>
    ensures value { result ≡ number_of bytes.now }
    ensures within { MatchResult result (λ f. f.1 ≤ length bytes.now) (λ n. n ≤ length bytes.now) }
{
    let (whole, len) = digits_at(bytes, 12);
    if len == 0 {
        return Err(0);
    }
    if len < bytes.len() && bytes[len] == b'.' {
        let (part, decimals) = digits_at(&bytes[len + 1..], 6);
        if decimals == 0 {
            return Err(len + 1);
        }
        Ok((
            whole * 1_000_000 + part * scale(decimals),
            len + 1 + decimals,
        ))
    } else {
        Ok((whole * 1_000_000, len))
    }
}

/// The exponent at the front and its length: 0 to 64, in one or two digits.
#[tactic(auto, unfolding(crate::specs::Token::exponent_of))]
pub fn exponent_at(bytes: &[u8]) -> Result<(u8, usize), usize>
    ensures value { result ≡ exponent_of bytes.now }
    ensures within { MatchResult result (λ f. f.1 ≤ length bytes.now) (λ n. n ≤ length bytes.now) }
{
    let (value, len) = digits_at(bytes, 2);
    if len == 0 {
        return Err(0);
    }
    if value <= 64 {
        return Ok((value as u8, len));
    }
    Ok((bytes[0] - b'0', 1))
}
