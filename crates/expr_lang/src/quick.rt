//! The words that most texts are made of, known by their first byte or by a few.

ghost use Rattle.std.specs.Prelude.{◌≡◌, ◌≤◌, length};
ghost use Rattle.expr_lang.specs.Token.{front_of};
ghost use Rattle.expr_lang.specs.Quick.{is_identifier_of, pair_of, element_of, closed_of, braced_of, item_at_of, dollars};
ghost use Rattle.expr_lang.specs.Quick.{likely_call_of, call_at_of};

use crate::token::front_len;
use crate::tree::Place;
use crate::words::{Call, ItemForm, Symbol, call_text};

/// How many letters and digits stand at the front, counting at most so many.
fn alphanumerics(bytes: &[u8], most: usize) -> usize
    ensures { result ≡ front_of (dollars most) bytes.now }
{
    let mut count = 0;
    while count < most && count < bytes.len() && bytes[count].is_ascii_alphanumeric() {
        count += 1;
    }
    count
}

/// Whether a text begins with an identifier.
#[tactic(auto, unfolding(crate::specs::Quick::is_identifier_of))]
fn is_identifier(bytes: &[u8]) -> bool
    ensures { result ≡ is_identifier_of bytes.now }
{
    if bytes.is_empty() || !bytes[0].is_ascii_alphabetic() {
        return false;
    }
    alphanumerics(&bytes[1..], 10) == 10
}

#[tactic(auto, unfolding(crate::specs::Quick::pair_of))]
fn pair_at(place: Place, bytes: &[u8]) -> Option<(ItemForm, usize)>
    ensures { result ≡ pair_of place bytes.now }
{
    if bytes.len() < 26 || bytes[25] != b'}' {
        return None;
    }
    if !is_identifier(&bytes[14..]) {
        return None;
    }
    let form = match place {
        Place::Aggregate => ItemForm::ElementCombo,
        Place::Program => ItemForm::StageElement,
    };
    Some((form, 26))
}

#[tactic(auto, unfolding(crate::specs::Quick::element_of))]
fn element_at(place: Place, bytes: &[u8]) -> Option<(ItemForm, usize)>
    requires { 14 ≤ length bytes.now }
    ensures { result ≡ element_of place bytes.now }
{
    if bytes[13] == b'}' {
        match place {
            Place::Aggregate => Some((ItemForm::Element, 14)),
            Place::Program => None,
        }
    } else if bytes[13] == b'.' {
        pair_at(place, bytes)
    } else {
        None
    }
}

/// The same of one identifier whose brace is closed, by its first byte.
#[tactic(auto, unfolding(crate::specs::Quick::closed_of))]
fn closed_at(place: Place, first: u8) -> Option<(ItemForm, usize)>
    ensures { result ≡ closed_of place first }
{
    if first == b'C' {
        Some((ItemForm::Constant, 14))
    } else if first == b'A' && matches!(place, Place::Program) {
        Some((ItemForm::Attribute, 14))
    } else {
        None
    }
}

#[tactic(auto, unfolding(crate::specs::Quick::braced_of))]
fn braced_at(place: Place, bytes: &[u8]) -> Option<(ItemForm, usize)>
    requires { 14 ≤ length bytes.now }
    ensures { result ≡ braced_of place bytes.now }
{
    if bytes[0] == b'#' {
        element_at(place, bytes)
    } else if bytes[13] == b'}' {
        closed_at(place, bytes[0])
    } else {
        None
    }
}

/// An item of one identifier or of two, and its length, where a text begins with the whole of it.
#[tactic(auto, unfolding(crate::specs::Quick::item_at_of))]
pub fn item_at(place: Place, bytes: &[u8]) -> Option<(ItemForm, usize)>
    ensures { result ≡ item_at_of place bytes.now }
{
    if bytes.len() < 14 || bytes[1] != b'{' {
        return None;
    }
    if !is_identifier(&bytes[2..]) {
        return None;
    }
    braced_at(place, bytes)
}

/// The call that alone may begin with these two letters and be whole.
#[tactic(auto, unfolding(crate::specs::Quick::likely_call_of))]
fn likely_call(place: Place, first: u8, second: u8) -> Option<Call>
    ensures { result ≡ likely_call_of place first second }
{
    if first == b'g' {
        Some(Call::Greatest)
    } else if first == b'l' {
        Some(Call::Least)
    } else if first == b'i' && second == b'f' {
        Some(Call::If)
    } else if first == b'f' && matches!(place, Place::Aggregate) {
        Some(Call::FirstNonNull)
    } else {
        None
    }
}

/// A call's name and its length, where its first letters tell which it is and all of it stands there.
#[tactic(auto, unfolding(crate::specs::Quick::call_at_of, crate::specs::Quick::whole_call_of))]
pub fn call_at(place: Place, bytes: &[u8]) -> Option<(Symbol, usize)>
    ensures { result ≡ call_at_of place bytes.now }
{
    if bytes.len() < 2 {
        return None;
    }
    let call = likely_call(place, bytes[0], bytes[1])?;
    let word = call_text(call);
    if front_len(word, bytes) == word.len() {
        Some((Symbol::Call(call), word.len()))
    } else {
        None
    }
}
