//! Records from JSON data: what each form reads, fields of an object, and lists of records.

ghost use Rattle.std.specs.Prelude.{◌≡◌, ℕ, ◌+◌, ◌<◌, ◌^◌, List, [], ◌∷◌, ◌++◌, Result, Ok, Err, IfOk, map, drop};
ghost use Rattle.std.specs.Fmt.{decimal};
ghost use Rattle.serde_json.specs.Data.{Data};
ghost use Rattle.json_read.specs.Views.{data_of, items_data};
ghost use Rattle.serde_json.specs.Find.{get};
ghost use Rattle.json_read.specs.Forms.{at_step, text_of, truth_of, identifier_of, each_of, list_of, field_of, optional_of, listed_of, field_or_of};
ghost use Rattle.json_read.specs.Given.{Gives, IsObject};

use crate::fault::FormFault;
use crate::look::{is_object, items, member, text, truth};
use crate::path::{at_key, here, seen_from};
use dh_base::items::Items;
use dh_base::uid::Uid;
use json::Value;
use std::alloc::{AllocError, Global};

/// A record that is read from JSON data.
pub trait ReadJson: Sized + Drop {
    /// What the data stands for, or the path of the first fault in it.
    ghost form: { Data → Result Self (List ℕ) };

    /// Reads the record.
    fn read(alloc: Global, value: &Value<'_>) -> Result<Self, FormFault>
        ensures { Gives (form (data_of value.now)) result };
}

impl ReadJson for Items<u8> {
    ghost form = { text_of };

    fn read(alloc: Global, value: &Value<'_>) -> Result<Items<u8>, FormFault> {
        match text(value) {
            Some(found) => Ok(Items::from(found.as_bytes().to_vec(alloc)?)),
            None => Err(here(alloc)),
        }
    }
}

impl ReadJson for bool {
    ghost form = { truth_of };

    fn read(alloc: Global, value: &Value<'_>) -> Result<bool, FormFault> {
        match truth(value) {
            Some(found) => Ok(found),
            None => Err(here(alloc)),
        }
    }
}

impl ReadJson for Uid {
    ghost form = { identifier_of };

    fn read(alloc: Global, value: &Value<'_>) -> Result<Uid, FormFault> {
        let found = match text(value) {
            Some(found) => Uid::parse(found.as_bytes()),
            None => None,
        };
        match found {
            Some(uid) => Ok(uid),
            None => Err(here(alloc)),
        }
    }
}

fn step_of(alloc: Global, place: usize) -> Result<Vec<u8>, AllocError>
    ensures { IfOk result (λ v. v.items ≡ decimal place) }
{
    Ok(format!(in alloc; "{place}")?.into_bytes())
}

// The value at a place of a list.
fn read_at<T: ReadJson>(alloc: Global, place: usize, value: &Value<'_>) -> Result<T, FormFault>
    ensures { Gives (at_step (decimal place) (T.form (data_of value.now))) result }
{
    match T::read(alloc, value) {
        Ok(read) => Ok(read),
        Err(fault) => {
            let step = step_of(alloc, place)?;
            Err(seen_from(alloc, &step, fault))
        }
    }
}

// The values of a list.
fn read_each<T: ReadJson>(alloc: Global, values: &[Value<'_>]) -> Result<Items<T>, FormFault>
    ensures { Gives (each_of T.form 0 (items_data values.now)) result }
{
    let mut all = Vec::new(alloc);
    let mut place = 0;
    for value in values {
        all.push(read_at(alloc, place, value)?)?;
        place += 1;
    }
    Ok(Items::from(all))
}

/// A list of records. Data that is no list is at fault.
pub fn read_list<T: ReadJson>(alloc: Global, value: &Value<'_>) -> Result<Items<T>, FormFault>
    ensures { Gives (list_of T.form (data_of value.now)) result }
{
    match items(value) {
        Some(values) => read_each(alloc, values),
        None => Err(here(alloc)),
    }
}

// What stands under a key.
fn read_under<T: ReadJson>(alloc: Global, key: &str, value: &Value<'_>) -> Result<T, FormFault>
    ensures { Gives (at_step key.now (T.form (data_of value.now))) result }
{
    match T::read(alloc, value) {
        Ok(read) => Ok(read),
        Err(fault) => Err(seen_from(alloc, key.as_bytes(), fault)),
    }
}

/// A field that has to be there.
pub fn field<T: ReadJson>(alloc: Global, value: &Value<'_>, key: &str) -> Result<T, FormFault>
    ensures { Gives (field_of key.now T.form (data_of value.now)) result }
{
    match member(value, key) {
        Some(found) => read_under(alloc, key, found),
        None => Err(at_key(alloc, key)),
    }
}

/// A field that has a default.
pub fn field_or<T: ReadJson>(
    alloc: Global,
    value: &Value<'_>,
    key: &str,
    default: T,
) -> Result<T, FormFault>
    ensures { Gives (field_or_of key.now T.form default (data_of value.now)) result }
{
    match member(value, key) {
        Some(found) => read_under(alloc, key, found),
        None => Ok(default),
    }
}

/// A field that may be absent.
pub fn optional<T: ReadJson>(
    alloc: Global,
    value: &Value<'_>,
    key: &str,
) -> Result<Option<T>, FormFault>
    ensures { Gives (optional_of key.now T.form (data_of value.now)) result }
{
    match member(value, key) {
        Some(found) => Ok(Some(read_under(alloc, key, found)?)),
        None => Ok(None),
    }
}

/// A list of records under a key, empty where the key is absent.
pub fn listed<T: ReadJson>(
    alloc: Global,
    value: &Value<'_>,
    key: &str,
) -> Result<Items<T>, FormFault>
    ensures { Gives (listed_of key.now T.form (data_of value.now)) result }
{
    match member(value, key) {
        Some(found) => match read_list(alloc, found) {
            Ok(read) => Ok(read),
            Err(fault) => Err(seen_from(alloc, key.as_bytes(), fault)),
        },
        None => Ok(Items::new(alloc)),
    }
}

/// Refuses data that is no object.
pub fn require_object(alloc: Global, value: &Value<'_>) -> Result<(), FormFault>
    ensures { IsObject (data_of value.now) result }
{
    if is_object(value) {
        Ok(())
    } else {
        Err(here(alloc))
    }
}

/// A list under a key that has to be there.
pub fn required_list<T: ReadJson>(
    alloc: Global,
    value: &Value<'_>,
    key: &str,
) -> Result<Items<T>, FormFault>
    ensures { Gives (field_of key.now (list_of T.form) (data_of value.now)) result }
{
    match member(value, key) {
        Some(found) => match read_list(alloc, found) {
            Ok(read) => Ok(read),
            Err(fault) => Err(seen_from(alloc, key.as_bytes(), fault)),
        },
        None => Err(at_key(alloc, key)),
    }
}
