//! What references are looked up in: objects, lists of objects, and two of these one after the other.
ghost use Rattle.std.specs.Prelude.{◌≡◌, ℕ, List, ◌++◌, IfOk, OnOk, map};
ghost use Rattle.std.specs.List.{flat_map};
ghost use Rattle.meta_links.specs.Reference.{Reference};
ghost use Rattle.meta_links.specs.Told.{after};

use crate::unknown::Unknown;
use dh_base::items::Items;
use dh_base::memory::Memory;
use dh_metadata::ids::Ids;
use std::alloc::Global;

/// Something whose references are looked up.
pub trait Link {
    /// It as it is held.
    type Held;

    /// Its references, in their order in the file.
    ghost references: { Self → List Reference };

    /// It as it is held, by the identifiers of each kind.
    ghost held: { List (List (List ℕ)) → Self → Self.Held };

    /// Looks up the references.
    fn link(&self, alloc: Global, ids: &Ids, unknown: &mut Unknown) -> Result<Self::Held, Memory>
        ensures held { IfOk result (λ object. object ≡ held ids.now self.now) }
        ensures told { OnOk result (unknown.new ≡ after ids.now unknown.old (references self.now)) };
}

/// One after the other. A caller that links several so holds nothing while it may have to return early.
impl<A: Link, B: Link> Link for (A, B)
where
    A::Held: Drop,
{
    type Held = (A::Held, B::Held);

    ghost references = { λ pair. A.references pair.0 ++ B.references pair.1 };

    ghost held = { λ ids pair. (A.held ids pair.0, B.held ids pair.1) };

    #[tactic(auto, using(crate::proofs::Walk::parts))]
    fn link(
        &self,
        alloc: Global,
        ids: &Ids,
        unknown: &mut Unknown,
    ) -> Result<(A::Held, B::Held), Memory> {
        let first = self.0.link(alloc, ids, unknown)?;
        let second = self.1.link(alloc, ids, unknown)?;
        Ok((first, second))
    }
}

/// The objects of a list.
impl<'a, T: Link> Link for &'a Items<T>
where
    T::Held: Drop,
{
    type Held = Items<T::Held>;

    ghost references = { λ objects. flat_map T.references objects.now };

    ghost held = { λ ids objects. map (T.held ids) objects.now };

    fn link(
        &self,
        alloc: Global,
        ids: &Ids,
        unknown: &mut Unknown,
    ) -> Result<Items<T::Held>, Memory> {
        link_each(alloc, ids, unknown, Vec::new(alloc), self.as_slice())
    }
}

/// Objects as they are held, after some that are built in.
pub fn link_each<T: Link>(
    alloc: Global,
    ids: &Ids,
    unknown: &mut Unknown,
    built_in: Vec<T::Held>,
    objects: &[T],
) -> Result<Items<T::Held>, Memory>
where
    T::Held: Drop,
    ensures held { IfOk result (λ all. all ≡ built_in.items ++ map (T.held ids.now) objects.now) }
    ensures told { OnOk result (unknown.new ≡ after ids.now unknown.old (flat_map T.references objects.now)) }
{
    let mut all = built_in;
    for object in objects {
        all.push(object.link(alloc, ids, unknown)?)?;
    }
    Ok(Items::from(all))
}
