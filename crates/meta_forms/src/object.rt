//! The objects of a key.

ghost use Rattle.std.specs.Prelude.{◌≡◌, ℕ, ◌+◌, ◌<◌, ◌^◌, List, [], ◌∷◌, ◌++◌, Option, Result, Ok, Err, IfOk, OnOk, map, drop};
ghost use Rattle.std.specs.Option.{option_to_list};
ghost use Rattle.std.specs.Fmt.{decimal};
ghost use Rattle.serde_json.specs.Data.{Data};
ghost use Rattle.json_read.specs.Views.{data_of, items_data};
ghost use Rattle.json_read.specs.Forms.{at_step, field_or_of};
ghost use Rattle.json_read.specs.Given.{Gives};
ghost use Rattle.meta_forms.specs.Objects.{IsPlace, named_form, object_of, objects_of, list_of, objects_at};

use crate::part::Part;
use dh_base::items::Items;
use dh_base::uid::Uid;
use dh_metadata::built_in::is_built_in;
use json::Value;
use json_read::fault::FormFault;
use json_read::form::{field, field_or, require_object};
use json_read::look::{items, member};
use json_read::path::{here, seen_from};
use std::alloc::{AllocError, Global};
use std::marker::PhantomData;

/// A record of an object that stands at a place of a key's list and has an identifier and a name.
pub trait ReadObject: Sized + Drop {
    /// What is read after the name.
    type Fields: Drop;

    /// What these fields stand for, or the path of the first fault in them.
    ghost form: { Data → Result Self.Fields (List ℕ) };

    /// The record of a place, an identifier, a name and these fields.
    ghost made: { ℕ → List ℕ → List ℕ → Self.Fields → Self };

    /// Reads what is after the name.
    fn read(alloc: Global, value: &Value<'_>) -> Result<Self::Fields, FormFault>
        ensures { Gives (form (data_of value.now)) result };

    /// The record of what was read.
    fn from_fields(place: u32, id: Uid, name: Items<u8>, fields: Self::Fields) -> Self
        ensures { result ≡ made place id name fields };
}

// The number of a place. A list of 2^32 values and more takes more memory than there is.
fn place_of(place: usize) -> Result<u32, FormFault>
    ensures { IsPlace place result }
{
    match u32::try_from(place) {
        Ok(place) => Ok(place),
        Err(_) => Err(FormFault::Memory),
    }
}

// The object of a place and an identifier.
#[tactic(auto, unfolding(crate::specs::Objects::named_form, crate::specs::Fields::name_of))]
fn read_named<T: ReadObject>(
    alloc: Global,
    place: u32,
    id: Uid,
    value: &Value<'_>,
) -> Result<T, FormFault>
    ensures { Gives (named_form T.form T.made place id (data_of value.now)) result }
{
    // by default it is the identifier
    let default = id.bytes().to_vec(alloc)?;
    let name = field_or(alloc, value, "name", Items::from(default))?;
    match T::read(alloc, value) {
        Ok(fields) => Ok(T::from_fields(place, id, name, fields)),
        Err(fault) => Err(fault),
    }
}

fn read_object<T: ReadObject>(
    alloc: Global,
    place: usize,
    value: &Value<'_>,
) -> Result<Option<T>, FormFault>
    ensures { Gives (object_of (named_form T.form T.made) place (data_of value.now)) result }
{
    require_object(alloc, value)?;
    let id: Uid = field(alloc, value, "id")?;
    if is_built_in(id) {
        return Ok(None);
    }
    let place = place_of(place)?;
    Ok(Some(read_named(alloc, place, id, value)?))
}

fn step_of(alloc: Global, place: usize) -> Result<Vec<u8>, AllocError>
    ensures { IfOk result (λ v. v.items ≡ decimal place) }
{
    Ok(format!(in alloc; "{place}")?.into_bytes())
}

fn read_at<T: ReadObject>(
    alloc: Global,
    place: usize,
    value: &Value<'_>,
) -> Result<Option<T>, FormFault>
    ensures { Gives (at_step (decimal place) (object_of (named_form T.form T.made) place (data_of value.now))) result }
{
    match read_object(alloc, place, value) {
        Ok(read) => Ok(read),
        Err(fault) => {
            let step = step_of(alloc, place)?;
            Err(seen_from(alloc, &step, fault))
        }
    }
}

// Puts an object that was read at the end.
fn keep<T: Drop>(all: &mut Vec<T>, found: Option<T>) -> Result<(), AllocError>
    ensures { OnOk result (all.new.items ≡ all.old.items ++ option_to_list found) }
{
    if let Some(object) = found {
        all.push(object)?;
    }
    Ok(())
}

fn read_each<T: ReadObject>(alloc: Global, values: &[Value<'_>]) -> Result<Items<T>, FormFault>
    ensures { Gives (objects_of (named_form T.form T.made) 0 (items_data values.now)) result }
{
    let mut all = Vec::new(alloc);
    let mut place = 0;
    for value in values {
        let found = read_at(alloc, place, value)?;
        keep(&mut all, found)?;
        place += 1;
    }
    Ok(Items::from(all))
}

fn read_list<T: ReadObject>(alloc: Global, value: &Value<'_>) -> Result<Items<T>, FormFault>
    ensures { Gives (list_of (named_form T.form T.made) (data_of value.now)) result }
{
    match items(value) {
        Some(values) => read_each(alloc, values),
        None => Err(here(alloc)),
    }
}

/// The objects under a key, by the record that each is read as.
#[derive(Drop)]
pub struct Objects<'a, T>(pub &'a str, pub PhantomData<T>);

impl<'a, T: ReadObject> Part for Objects<'a, T> {
    type Read = Items<T>;

    ghost form = { λ objects. objects_at objects.0.now (named_form T.form T.made) };

    fn read(&self, alloc: Global, value: &Value<'_>) -> Result<Items<T>, FormFault> {
        match member(value, self.0) {
            Some(found) => match read_list(alloc, found) {
                Ok(read) => Ok(read),
                Err(fault) => Err(seen_from(alloc, self.0.as_bytes(), fault)),
            },
            None => Ok(Items::new(alloc)),
        }
    }
}
