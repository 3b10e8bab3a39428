//! Lists of identifiers that stand one after the other in one vector.

ghost use Rattle.std.specs.Prelude.{◌≡◌, ◌≤◌, ◌++◌, ◌∷◌, [], ◌<◌, IfOk, map, length, get_or};

use crate::ids::has_id::HasId;
use dh_base::items::Items;
use dh_base::memory::Memory;
use dh_base::uid::Uid;
use std::alloc::Global;
use std::marker::Model;

/// Lists of identifiers that stand one after the other. `ends` has the place where each ends. Contracts
/// see the lists.
#[derive(Drop)]
pub struct Lists {
    pub ids: Vec<Uid>,
    pub ends: Vec<usize>,
}

impl Model for Lists {
    ghost use Rattle.std.specs.Prelude.{ℕ, List, length};
    ghost use Rattle.dh_metadata.specs.Cut.{cut, AreEnds};

    ghost Value = { List (List (List ℕ)) };

    ghost view = { λ lists. cut 0 lists.ends.items lists.ids.items };

    ghost invariant = { λ lists. AreEnds 0 lists.ends.items (length lists.ids.items) };
}

impl Lists {
    ghost use Rattle.dh_metadata.specs.Ids.{joined};

    /// No lists.
    pub fn new(alloc: Global) -> Lists
        ensures { result ≡ [] }
    {
        Lists {
            ids: Vec::new(alloc),
            ends: Vec::new(alloc),
        }
    }

    /// With one more list: that of the built-in objects and of these.
    #[tactic(auto, using(crate::proofs::CutLemmas::cut_add, crate::proofs::CutLemmas::ends_more))]
    pub fn add<T: HasId>(self, built_in: &[Uid], objects: &Items<T>) -> Result<Lists, Memory>
        ensures { IfOk result (λ lists. lists ≡ self ++ (built_in.now ++ map T.id_of objects.now) ∷ []) }
    {
        let ids = grown(self.ids, built_in, objects.as_slice())?;
        let mut ends = self.ends;
        ends.push(ids.len())?;
        Ok(Lists { ids, ends })
    }

    /// The identifier at a place of all the lists together.
    #[tactic(auto, using(crate::proofs::CutLemmas::joined_is))]
    pub fn at(&self, place: usize) -> Uid
        requires { place < length (joined self.now) }
        ensures { result ≡ get_or (joined self.now) place [] }
    {
        self.ids[place]
    }
}

fn grown<T: HasId>(ids: Vec<Uid>, built_in: &[Uid], objects: &[T]) -> Result<Vec<Uid>, Memory>
    ensures { IfOk result (λ all. all.items ≡ ids.items ++ (built_in.now ++ map T.id_of objects.now)) }
{
    let mut all = ids;
    all.extend_from_slice(built_in)?;
    for object in objects {
        all.push(object.id())?;
    }
    Ok(all)
}
