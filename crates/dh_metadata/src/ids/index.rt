//! Identifiers by place and places by identifier: a hash index over a list of identifiers that differ.

ghost use Rattle.std.specs.HashMap.{get};
ghost use Rattle.std.specs.Prelude.{◌≡◌, ◌+◌, ◌<◌, ◌^◌, ℕ, List, length, vec_len};
ghost use Rattle.dh_base.specs.Memory.{Finds};
ghost use Rattle.dh_metadata.specs.declared.ids.index.IndexFault.TheVariants.{Memory as OutOfMemory};
ghost use Rattle.dh_metadata.specs.Causes.{index_cause};
ghost use Rattle.dh_metadata.specs.Places.{same_id, place_of, repeat_of};

use dh_base::uid::Uid;
use std::alloc::{AllocError, AllocFailed, Global};
use std::collections::HashMap;
use std::marker::Model;

/// Why no index was made.
#[derive(Drop)]
pub enum IndexFault {
    /// The identifier at this place stands earlier in the list too. It is the first such place.
    Twice(u32),
    /// Memory ran out.
    Memory,
}

impl From<AllocError> for IndexFault {
    ghost from_gives = { λ _ fault. fault ≡ OutOfMemory };

    fn from(_error: AllocError) -> IndexFault {
        IndexFault::Memory
    }
}

impl<T: Drop> From<AllocFailed<T>> for IndexFault {
    ghost from_gives = { λ _ fault. fault ≡ OutOfMemory };

    fn from(_error: AllocFailed<T>) -> IndexFault {
        IndexFault::Memory
    }
}

/// A list of identifiers that differ. Contracts see the list.
#[derive(Drop)]
pub struct UidIndex {
    ids: Vec<Uid>,
    places: HashMap<Uid, u32>,
}

impl Model for UidIndex {
    ghost use Rattle.std.specs.HashMap.{get};
    ghost use Rattle.std.specs.Prelude.{◌≡◌, ◌<◌, ◌^◌, ℕ, List, length};
    ghost use Rattle.dh_metadata.specs.Places.{same_id, place_of};

    ghost Value = { List (List ℕ) };

    ghost view = { λ index. index.ids.items };

    ghost invariant = { λ index. ((id : List ℕ) → get same_id index.places id ≡ place_of index.ids.items id) };
}

impl UidIndex {
    /// The index of these identifiers, if they differ.
    pub fn of(alloc: Global, ids: Vec<Uid>) -> Result<UidIndex, IndexFault>
        requires { vec_len ids < 2 ^ 32 }
        ensures { Finds index_cause (repeat_of ids.items) (λ index. index ≡ ids.items) result }
    {
        let places = places_of(alloc, &ids)?;
        Ok(UidIndex { ids, places })
    }

    /// The place of an identifier, or `None` if it isn't in the list.
    pub fn find(&self, id: Uid) -> Option<u32>
        ensures { result ≡ place_of self.now id }
    {
        self.places.get(&id).copied()
    }
}

// Each identifier with its place, or the first that stands twice.
fn places_of(alloc: Global, ids: &[Uid]) -> Result<HashMap<Uid, u32>, IndexFault>
    requires { length ids.now < 2 ^ 32 }
    ensures { Finds index_cause (repeat_of ids.now) (λ places. ((id : List ℕ) → get same_id places id ≡ place_of ids.now id)) result }
{
    let mut places = HashMap::new(alloc);
    let mut place = 0u32;
    for id in ids {
        if places.insert(*id, place)?.is_some() {
            return Err(IndexFault::Twice(place));
        }
        place += 1;
    }
    Ok(places)
}
