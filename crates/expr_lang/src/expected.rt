//! Which token comes next, by what is expected and what is open.

ghost use Rattle.std.specs.Prelude.{◌≡◌, ◌≤◌, ◌<◌, length, map, MatchResult};
ghost use Rattle.expr_lang.specs.Reading.{least_arguments, most_arguments, allow, allowed_after, words_for, allowed_for, takes_number};
ghost use Rattle.expr_lang.specs.Reading.{token_from, number_found as specs_number_found, exponent_found as specs_exponent_found};
ghost use Rattle.expr_lang.specs.Reading.{word_found as specs_word_found};
ghost use Rattle.expr_lang.specs.Quick.{name_of, follower_of, operand_of, quick_word_of};
ghost use Rattle.expr_lang.specs.Words.{letter_of};
ghost use Rattle.expr_lang.specs.Token.{number_of, exponent_of};

use crate::quick::{call_at, item_at};
use crate::reading::{Expect, Found, Frame, Token, enclosing};
use crate::stack::Stack;
use crate::token::{Allowed, Front, exponent_at, longest, number_at};
use crate::tree::{Binary, Place};
use crate::words::{
    AFTER_OPERANDS, AGGREGATE_ITEMS, AGGREGATE_OPERANDS, BRACKET, Call, MARKS, PROGRAM_ITEMS,
    PROGRAM_OPERANDS, PROGRAM_START, Symbol,
};

/// How many arguments a call has at least, and how many at most.
fn arguments(call: Call) -> (usize, usize)
    ensures least { result.0 ≡ least_arguments call }
    ensures most { result.1 ≡ most_arguments call }
{
    match call {
        Call::If | Call::Condition => (3, 3),
        Call::DaysBetween => (2, 2),
        Call::FirstNonNull | Call::Greatest | Call::Least => (1, 4096),
        _ => (1, 1),
    }
}

fn allowing(caret: bool, close: bool, comma: bool, quote: bool, comparison: bool) -> Allowed
    ensures { result ≡ allow caret close comma quote comparison }
{
    Allowed {
        caret,
        close,
        comma,
        quote,
        comparison,
    }
}

#[tactic(auto, unfolding(crate::specs::Reading::allowed_after))]
fn allowed_at(frames: &Stack<Frame>, caret: bool) -> Allowed
    ensures { result ≡ allowed_after frames.now caret }
{
    let (frame, comparison) = enclosing(frames);
    match frame {
        Some(Frame::Bracket) => allowing(caret, true, false, false, !comparison),
        Some(Frame::Quote) => allowing(caret, false, false, true, !comparison),
        Some(Frame::Call(frame)) => {
            let (least, most) = arguments(frame.call);
            let count = frame.count.saturating_add(1);
            allowing(caret, least <= count, count < most, false, !comparison)
        }
        _ => allowing(caret, false, false, false, !comparison),
    }
}

/// The words of which the next may be one, after their first letters.
#[tactic(auto, unfolding(crate::proofs::Letters::all_words))]
fn words_at(expect: Expect, place: Place) -> (&'static [u8], &'static [Symbol])
    ensures letters { result.0.now ≡ map letter_of (words_for expect place) }
    ensures words { result.1.now ≡ words_for expect place }
{
    match (expect, place) {
        (Expect::Start | Expect::Operand, Place::Aggregate) => {
            (b"-!(iiifgl###CO[RRRRR", &AGGREGATE_OPERANDS)
        }
        (Expect::Start, Place::Program) => (b"-!(iglddddd#ACVVVVV", &PROGRAM_START),
        (Expect::Operand, Place::Program) => (b"-!(iglddddd#ACVV", &PROGRAM_OPERANDS),
        (Expect::Item | Expect::Plain, Place::Aggregate) => (b"###CO[RRRRR", &AGGREGATE_ITEMS),
        (Expect::Item | Expect::Plain, Place::Program) => (b"#ACVV", &PROGRAM_ITEMS),
        (Expect::Bracket, _) => (b"(", &BRACKET),
        (Expect::Operator(_), _) => (b"^),'|&=!<<>>+-*/%", &AFTER_OPERANDS),
        (Expect::Quote | Expect::Comma | Expect::Close | Expect::More, _) => (b"),'", &MARKS),
        (Expect::Exponent(_) | Expect::End, _) => (b"", &MARKS[..0]),
    }
}

/// And which of these are allowed. A quoted text has no other quoted text in it.
fn allowed(expect: Expect, frames: &Stack<Frame>, quoted: bool) -> Allowed
    ensures { result ≡ allowed_for expect frames.now quoted }
{
    match expect {
        Expect::Operator(caret) => allowed_at(frames, caret),
        Expect::Quote => allowing(false, false, false, !quoted, false),
        Expect::Comma => allowing(false, false, true, false, false),
        Expect::Close => allowing(false, true, false, false, false),
        Expect::More => allowing(false, true, true, false, false),
        _ => allowing(true, true, true, true, true),
    }
}

fn takes_a_number(expect: Expect) -> bool
    ensures { result ≡ takes_number expect }
{
    matches!(expect, Expect::Start | Expect::Operand | Expect::Plain)
}

fn exponent_found(bytes: &[u8]) -> Result<Found, usize>
    ensures value { result ≡ specs_exponent_found (exponent_of bytes.now) }
    ensures within { MatchResult result (λ f. f.len ≤ length bytes.now) (λ n. n ≤ length bytes.now) }
{
    let (exponent, len) = exponent_at(bytes)?;
    Ok(Found {
        token: Token::Exponent(exponent),
        len,
    })
}

fn number_found(bytes: &[u8]) -> Result<Found, usize>
    ensures value { result ≡ specs_number_found (number_of bytes.now) }
    ensures within { MatchResult result (λ f. f.len ≤ length bytes.now) (λ n. n ≤ length bytes.now) }
{
    let (number, len) = number_at(bytes)?;
    Ok(Found {
        token: Token::Number(number),
        len,
    })
}

fn word_found(front: Front) -> Result<Found, usize>
    ensures { result ≡ specs_word_found front.symbol front.len }
{
    match front.symbol {
        Some(symbol) => Ok(Found {
            token: Token::Word(symbol),
            len: front.len,
        }),
        None => Err(front.len),
    }
}

/// An operator of one byte that may follow every operand, or a mark where it may stand.
#[tactic(auto, unfolding(crate::specs::Quick::follower_of, crate::specs::Quick::sole_operator_of, crate::specs::Quick::mark_after))]
fn follower_at(frames: &Stack<Frame>, caret: bool, byte: u8) -> Option<(Symbol, usize)>
    ensures { result ≡ follower_of frames.now caret byte }
{
    match byte {
        b'+' => Some((Symbol::Operator(Binary::Add), 1)),
        b'-' => Some((Symbol::Operator(Binary::Subtract), 1)),
        b'*' => Some((Symbol::Operator(Binary::Multiply), 1)),
        b'/' => Some((Symbol::Operator(Binary::Divide), 1)),
        b'%' => Some((Symbol::Operator(Binary::Remainder), 1)),
        b')' if allowed_at(frames, caret).close => Some((Symbol::Close, 1)),
        b',' if allowed_at(frames, caret).comma => Some((Symbol::Comma, 1)),
        _ => None,
    }
}

#[tactic(auto, unfolding(crate::specs::Quick::operand_of))]
fn operand_at(place: Place, bytes: &[u8]) -> Option<(Symbol, usize)>
    requires { 0 < length bytes.now }
    ensures { result ≡ operand_of place bytes.now }
{
    if bytes[0] == b'(' {
        Some((Symbol::Open, 1))
    } else if bytes[0] == b'-' {
        Some((Symbol::Minus, 1))
    } else {
        call_at(place, bytes)
    }
}

/// An item, or else what may open an operand that isn't one.
#[tactic(auto, unfolding(crate::specs::Quick::name_of))]
fn name_at(expect: Expect, place: Place, bytes: &[u8]) -> Option<(Symbol, usize)>
    requires { 0 < length bytes.now }
    ensures { result ≡ name_of expect place bytes.now }
{
    if let Some((form, len)) = item_at(place, bytes) {
        return Some((Symbol::Item(form), len));
    }
    match expect {
        Expect::Start | Expect::Operand => operand_at(place, bytes),
        _ => None,
    }
}

/// The next word and its length, where its first bytes tell which it is.
#[tactic(auto, unfolding(crate::specs::Quick::quick_word_of, crate::specs::Quick::bracket_of_call))]
fn quick_word(
    expect: Expect,
    frames: &Stack<Frame>,
    place: Place,
    bytes: &[u8],
) -> Option<(Symbol, usize)>
    ensures { result ≡ quick_word_of expect frames.now place bytes.now }
{
    if bytes.is_empty() {
        return None;
    }
    match expect {
        Expect::Operator(caret) => follower_at(frames, caret, bytes[0]),
        Expect::Start | Expect::Operand | Expect::Item | Expect::Plain => {
            name_at(expect, place, bytes)
        }
        Expect::Bracket if bytes[0] == b'(' => Some((Symbol::Open, 1)),
        _ => None,
    }
}

/// The next token of the text, or how many bytes may begin one.
#[tactic(auto, unfolding(crate::specs::Reading::token_from))]
pub fn token_at(
    expect: Expect,
    frames: &Stack<Frame>,
    quoted: bool,
    place: Place,
    bytes: &[u8],
) -> Result<Found, usize>
    ensures value { result ≡ token_from expect frames.now quoted place bytes.now }
    ensures within { MatchResult result (λ f. f.len ≤ length bytes.now) (λ n. n ≤ length bytes.now) }
{
    if let Expect::Exponent(_) = expect {
        return exponent_found(bytes);
    }
    if takes_a_number(expect) && !bytes.is_empty() && bytes[0].is_ascii_digit() {
        return number_found(bytes);
    }
    if let Some((symbol, len)) = quick_word(expect, frames, place, bytes) {
        return Ok(Found {
            token: Token::Word(symbol),
            len,
        });
    }
    let (letters, symbols) = words_at(expect, place);
    word_found(longest(allowed(expect, frames, quoted), letters, symbols, bytes))
}
