//! Looking into data.

ghost use Rattle.std.specs.Prelude.{◌≡◌, is_some, IfOk, option_map, option_and_then};
ghost use Rattle.json.specs.Value.{members_view};
ghost use Rattle.serde_json.specs.Data.{no_members};
ghost use Rattle.serde_json.specs.View.{number_view};
ghost use Rattle.serde_json.specs.Find.{get, as_null, as_bool, as_number, as_str, as_array, as_object, as_u64, as_i64};
ghost use Rattle.json_read.specs.Meant.{number_or_0, members_meant};
ghost use Rattle.json_read.specs.Views.{data_of, items_data, members_data};

use crate::number::number_in;
use dh_base::memory::Memory;
use json::Value;
use serde_json::Number;
use std::alloc::Global;
use std::collections::BTreeMap;

/// What stands after a key of an object, the last where the key stands there more than once.
#[tactic(auto, using(crate::proofs::LookLemmas::get_of))]
pub fn member<'v, 'a>(value: &'v Value<'a>, key: &str) -> Option<&'v Value<'a>>
    ensures { option_map (λ found. data_of found.now) result ≡ get key.now (data_of value.now) }
{
    value.get(key)
}

pub fn is_null(value: &Value<'_>) -> bool
    ensures { result ≡ is_some (as_null (data_of value.now)) }
{
    matches!(value, Value::Null)
}

pub fn truth(value: &Value<'_>) -> Option<bool>
    ensures { result ≡ as_bool (data_of value.now) }
{
    match value {
        Value::Bool(truth) => Some(*truth),
        _ => None,
    }
}

pub fn text<'a>(value: &Value<'a>) -> Option<&'a str>
    ensures { option_map (λ text. text.now) result ≡ as_str (data_of value.now) }
{
    match value {
        Value::String(text) => Some(text),
        _ => None,
    }
}

// The number that a text writes, or 0 where it is beyond the range of a float.
fn number_or_0(text: &str) -> Number
    ensures { number_view result ≡ number_or_0 text.now }
{
    match number_in(text) {
        Some(number) => number,
        None => Number::from(0_u64),
    }
}

fn number(value: &Value<'_>) -> Option<Number>
    ensures { option_map number_view result ≡ as_number (data_of value.now) }
{
    match value {
        Value::Number(text) => Some(number_or_0(text)),
        _ => None,
    }
}

/// A number that is written as a whole one from 0 and fits 64 bits.
pub fn natural(value: &Value<'_>) -> Option<u64>
    ensures { result ≡ option_and_then as_u64 (as_number (data_of value.now)) }
{
    match number(value) {
        Some(number) => number.as_u64(),
        None => None,
    }
}

/// A number that is written as a whole one and fits 64 bits with a sign.
pub fn integer(value: &Value<'_>) -> Option<i64>
    ensures { result ≡ option_and_then as_i64 (as_number (data_of value.now)) }
{
    match number(value) {
        Some(number) => number.as_i64(),
        None => None,
    }
}

/// The items of a list.
pub fn items<'v, 'a>(value: &'v Value<'a>) -> Option<&'v [Value<'a>]>
    ensures { option_map (λ items. items_data items.now) result ≡ as_array (data_of value.now) }
{
    match value {
        Value::Array(items) => Some(items.as_slice()),
        _ => None,
    }
}

pub fn is_object(value: &Value<'_>) -> bool
    ensures { result ≡ is_some (as_object (data_of value.now)) }
{
    matches!(value, Value::Object(_))
}

fn by_key<'v, 'a>(
    alloc: Global,
    members: &'v [(&'a str, Value<'a>)],
) -> Result<BTreeMap<&'a str, &'v Value<'a>>, Memory>
    ensures { IfOk result (λ map. members_data map.entries ≡ members_meant (members_view members.now) no_members) }
{
    let mut map = BTreeMap::new(alloc);
    for member in members {
        map.insert(member.0, &member.1)?;
    }
    Ok(map)
}

/// The members of an object in the byte order of their keys, each with the last that stands after its key.
pub fn members<'v, 'a>(
    alloc: Global,
    value: &'v Value<'a>,
) -> Result<Option<BTreeMap<&'a str, &'v Value<'a>>>, Memory>
    ensures { IfOk result (λ found. option_map (λ map. members_data map.entries) found ≡ as_object (data_of value.now)) }
{
    match value {
        Value::Object(members) => Ok(Some(by_key(alloc, members.as_slice())?)),
        _ => Ok(None),
    }
}
