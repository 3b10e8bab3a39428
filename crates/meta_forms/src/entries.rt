//! Lists of entries that are held as plainer values.

ghost use Rattle.std.specs.Prelude.{◌≡◌, IfOk, Ok, map};
ghost use Rattle.json_read.specs.Forms.{and_then, listed_of};

use crate::part::Part;
use dh_base::items::Items;
use json::Value;
use json_read::fault::FormFault;
use json_read::form::{ReadJson, listed};
use std::alloc::{AllocError, Global};
use std::marker::PhantomData;

/// An entry of a list as it is read.
pub trait Entry: ReadJson {
    /// The entry as it is held.
    type Held: Drop;

    /// The entry as it is held.
    ghost held: { Self → Self.Held };

    /// The entry as it is held.
    fn into_held(self) -> Self::Held
        ensures { result ≡ held self };
}

fn held<T: Entry>(alloc: Global, entries: Items<T>) -> Result<Items<T::Held>, AllocError>
    ensures { IfOk result (λ list. list ≡ map T.held entries) }
{
    Ok(Items {
        items: entries
            .items
            .into_iter()
            .map(|entry| entry.into_held())
            .collect(alloc)?,
    })
}

/// The entries of the list under a key, none where the key is absent.
#[derive(Drop)]
pub struct Entries<'a, T>(pub &'a str, pub PhantomData<T>);

impl<'a, T: Entry> Part for Entries<'a, T> {
    type Read = Items<T::Held>;

    ghost form = { λ list json. and_then (listed_of list.0.now T.form json) (λ found. Ok (map T.held found)) };

    fn read(&self, alloc: Global, value: &Value<'_>) -> Result<Items<T::Held>, FormFault> {
        let found: Items<T> = listed(alloc, value, self.0)?;
        Ok(held(alloc, found)?)
    }
}
