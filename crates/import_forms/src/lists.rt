//! Lists under the keys of JSON objects.

ghost use Rattle.std.specs.Prelude.{◌≡◌, ◌++◌, IfOk, OnOk, map};
ghost use Rattle.serde_json.specs.Find.{get};
ghost use Rattle.json_read.specs.Views.{data_of};
ghost use Rattle.json_read.specs.Given.{Gives};
ghost use Rattle.import_forms.specs.Lists.{is_absent, list_at};

use dh_base::items::Items;
use json::Value;
use json_read::fault::FormFault;
use json_read::form::{ReadJson, listed};
use json_read::look::{is_null, member};
use std::alloc::{AllocError, Global};

fn is_absent(value: &Value<'_>, key: &str) -> bool
    ensures { result ≡ is_absent (get key.now (data_of value.now)) }
{
    match member(value, key) {
        Some(found) => is_null(found),
        None => true,
    }
}

/// The records of a list, none where its key is absent or null.
#[tactic(auto, unfolding(crate::specs::Lists::list_at))]
pub(crate) fn list_at<T: ReadJson>(
    alloc: Global,
    value: &Value<'_>,
    key: &str,
) -> Result<Items<T>, FormFault>
    ensures { Gives (list_at key.now T.form (data_of value.now)) result }
{
    if is_absent(value, key) {
        return Ok(Items::new(alloc));
    }
    listed(alloc, value, key)
}

/// An object that may stand in another.
pub(crate) trait Inner: Sized {
    ghost use Rattle.std.specs.Prelude.{ℕ, List, Option};

    /// The object in one of this identifier, which counts where the object names none.
    ghost inside: { Option (List ℕ) → Self → Self };

    /// The same object, with the identifier of the one around filled in.
    fn put_inside(alloc: Global, id: &Option<Items<u8>>, object: Self) -> Result<Self, AllocError>
        ensures { IfOk result (λ filled. filled ≡ inside id.now object) };
}

/// Fills in the identifier of the object around in each object of a list.
pub(crate) fn all_inside<T: Inner + Drop>(
    alloc: Global,
    id: &Option<Items<u8>>,
    objects: Items<T>,
) -> Result<Items<T>, AllocError>
    ensures { IfOk result (λ filled. filled ≡ map (T.inside id.now) objects) }
{
    let mut filled = Vec::new(alloc);
    for object in objects.items {
        filled.push(T::put_inside(alloc, id, object)?)?;
    }
    Ok(Items::from(filled))
}

/// Puts the items of a list at the end of another.
pub(crate) fn append<T: Drop>(list: &mut Items<T>, more: Items<T>) -> Result<(), AllocError>
    ensures { OnOk result (list.new ≡ list.old ++ more) }
{
    let mut rest = more.items;
    list.items.append(&mut rest)
}
