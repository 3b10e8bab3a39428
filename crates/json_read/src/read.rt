//! From bytes to data.

ghost use Rattle.std.specs.Prelude.{◌≡◌, IfOk, option_map};
ghost use Rattle.json.specs.Value.{value_view, items_view, members_view};
ghost use Rattle.json_read.specs.Meant.{is_within, are_items_within, are_members_within};
ghost use Rattle.json_read.specs.Bytes.{document_of, tree_of, kept};
ghost use Rattle.json_read.specs.Views.{data_of};

use crate::number::number_in;
use dh_base::memory::Memory;
use json::{Error, Reader, Scratch, Value};
use std::alloc::Global;
use std::str;

/// The most levels of arrays and objects.
pub const MOST_LEVELS: usize = 127;

#[cycle(within)]
fn is_within(value: &Value<'_>) -> bool
    ensures { result ≡ is_within (value_view value.now) }
{
    match value {
        Value::Number(text) => number_in(text).is_some(),
        Value::Array(items) => are_items_within(items),
        Value::Object(members) => are_members_within(members),
        _ => true,
    }
}

#[cycle(within)]
fn are_items_within(items: &Vec<Value<'_>>) -> bool
    ensures { result ≡ are_items_within (items_view items.now.items) }
{
    for item in items {
        if !is_within(item) {
            return false;
        }
    }
    true
}

#[cycle(within)]
fn are_members_within(members: &Vec<(&str, Value<'_>)>) -> bool
    ensures { result ≡ are_members_within (members_view members.now.items) }
{
    for member in members {
        if !is_within(&member.1) {
            return false;
        }
    }
    true
}

// The tree of a text, if each number in it is within range.
fn tree<'a>(
    alloc: Global,
    text: &'a str,
    scratch: &'a mut Scratch,
) -> Result<Option<Value<'a>>, Memory>
    ensures { IfOk result (λ tree. option_map value_view tree ≡ kept (tree_of text.now)) }
{
    let mut reader = Reader::new(text, scratch)?;
    match Value::read(alloc, &mut reader, MOST_LEVELS) {
        Ok(value) => {
            if reader.next().is_some() {
                return Ok(None);
            }
            if is_within(&value) {
                Ok(Some(value))
            } else {
                Ok(None)
            }
        }
        Err(Error::Invalid) => Ok(None),
        Err(_) => Err(Memory),
    }
}

/// The data of bytes, if they are JSON: UTF-8, at most 127 levels, and each number within the range of a float. What is kept for the
/// texts with escapes is lent by the caller.
#[tactic(auto, using(crate::proofs::BytesLemmas::read_of, crate::proofs::BytesLemmas::not_text))]
pub fn read<'a>(
    alloc: Global,
    bytes: &'a [u8],
    scratch: &'a mut Scratch,
) -> Result<Option<Value<'a>>, Memory>
    ensures { IfOk result (λ value. option_map data_of value ≡ document_of bytes.now) }
{
    match str::from_utf8(bytes) {
        Ok(text) => tree(alloc, text, scratch),
        Err(_) => Ok(None),
    }
}
