//! The references in the entries of a list.
ghost use Rattle.std.specs.Prelude.{◌≡◌, ℕ, List, IfOk, OnOk, map};
ghost use Rattle.meta_links.specs.Reference.{Reference, each};
ghost use Rattle.meta_links.specs.Told.{after};

use crate::link_each::Link;
use crate::unknown::Unknown;
use dh_base::items::Items;
use dh_base::memory::Memory;
use dh_metadata::ids::Ids;
use std::alloc::Global;

/// What the entries of a list refer to.
pub trait Entries {
    /// An entry in the file.
    type Entry;

    /// An entry as it is held.
    type Held: Drop;

    /// The references of the entry at a place.
    ghost references: { Self → ℕ → Self.Entry → List Reference };

    /// The entry as it is held, by the identifiers of each kind.
    ghost held: { List (List (List ℕ)) → Self → Self.Entry → Self.Held };

    /// Looks up the references of the entry at a place.
    fn link_entry(
        &self,
        alloc: Global,
        ids: &Ids,
        unknown: &mut Unknown,
        place: usize,
        entry: &Self::Entry,
    ) -> Result<Self::Held, Memory>
        ensures held { IfOk result (λ object. object ≡ held ids.now self.now entry.now) }
        ensures told { OnOk result (unknown.new ≡ after ids.now unknown.old (references self.now place entry.now)) };
}

/// A list and what its entries refer to.
#[derive(Drop)]
pub struct Listed<'a, E, X> {
    pub each: E,
    pub entries: &'a Items<X>,
}

impl<'a, X, E: Entries<Entry = X>> Link for Listed<'a, E, X> {
    type Held = Items<E::Held>;

    ghost references = { λ listed. each (E.references listed.each) 0 listed.entries.now };

    ghost held = { λ ids listed. map (E.held ids listed.each) listed.entries.now };

    fn link(
        &self,
        alloc: Global,
        ids: &Ids,
        unknown: &mut Unknown,
    ) -> Result<Items<E::Held>, Memory> {
        link_entries(alloc, ids, unknown, &self.each, self.entries.as_slice())
    }
}

fn link_entries<E: Entries>(
    alloc: Global,
    ids: &Ids,
    unknown: &mut Unknown,
    list: &E,
    entries: &[E::Entry],
) -> Result<Items<E::Held>, Memory>
    ensures held { IfOk result (λ all. all ≡ map (E.held ids.now list.now) entries.now) }
    ensures told { OnOk result (unknown.new ≡ after ids.now unknown.old (each (E.references list.now) 0 entries.now)) }
{
    let mut all = Vec::new(alloc);
    let mut place = 0;
    for entry in entries {
        all.push(list.link_entry(alloc, ids, unknown, place, entry)?)?;
        place += 1;
    }
    Ok(Items::from(all))
}
