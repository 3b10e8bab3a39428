//! The identifiers of the objects of a metadata file: those of each kind by number, and numbers by identifier. No two objects have
//! one identifier, of whatever kind they are.

ghost use Rattle.std.specs.Prelude.{◌≡◌, ◌<◌, ◌^◌, ℕ, List, [], ◌∷◌, length, get_or, None, Some, IfOk, vec_len};
ghost use Rattle.dh_metadata.specs.Places.{place_of, repeat_of};
ghost use Rattle.dh_metadata.specs.Ids.{ids_of, ids_at, joined, repeated, all_ids, twice_of, kind_place};
ghost use Rattle.dh_metadata.specs.Cut.{cut, AreEnds, AreKinds, in_piece};
ghost use Rattle.dh_base.specs.Memory.{Finds};
ghost use Rattle.dh_metadata.specs.Causes.{index_cause, ids_cause};

pub mod fault;
mod gather;
mod has_id;
pub mod index;
mod lists;
mod tokens;

use crate::ids::fault::IdsFault;
use crate::ids::gather::lists_of;
use crate::ids::index::{IndexFault, UidIndex};
use crate::ids::lists::Lists;
use crate::ids::tokens::user_of_repeated;
use crate::kind::Kind;
use crate::parts::MetaParts;
use dh_base::memory::Memory;
use dh_base::uid::Uid;
use std::alloc::Global;
use std::marker::Model;

/// The identifiers of the objects of each kind by number, all different. Contracts see the lists in
/// the order of the kinds.
#[derive(Drop)]
pub struct Ids {
    index: UidIndex,
    ends: Vec<usize>,
}

impl Model for Ids {
    ghost use Rattle.std.specs.Prelude.{ℕ, List};
    ghost use Rattle.dh_metadata.specs.Cut.{cut, AreKinds};

    ghost Value = { List (List (List ℕ)) };

    ghost view = { λ ids. cut 0 ids.ends.items ids.index };

    ghost invariant = { λ ids. AreKinds ids.ends.items ids.index };
}

impl Ids {
    /// The identifiers of a file, a built-in object before those of its kind.
    #[tactic(auto, unfolding(crate::specs::Ids::twice_of))]
    pub fn of(alloc: Global, parts: &MetaParts) -> Result<Ids, IdsFault>
        ensures { Finds ids_cause (twice_of parts.now) (λ ids. ids ≡ ids_of parts.now) result }
    {
        let ids = numbered(alloc, parts)?;
        match user_of_repeated(alloc, parts.api_tokens.as_slice())? {
            None => Ok(ids),
            Some(uid) => Err(IdsFault::Twice { uid }),
        }
    }

    /// The number of the object of a kind that has the identifier, or `None` if none has it.
    pub fn find(&self, kind: Kind, id: Uid) -> Option<u32>
        ensures { result ≡ place_of (ids_at self.now kind) id }
    {
        found_at(&self.index, &self.ends, place(kind), id)
    }

    /// The number of objects of a kind.
    pub fn count(&self, kind: Kind) -> u32
        ensures { result ≡ length (ids_at self.now kind) }
    {
        size_at(&self.index, &self.ends, place(kind))
    }
}

fn place(kind: Kind) -> usize
    ensures is { result ≡ kind_place kind }
    ensures small { result < 22 }
{
    kind as usize
}

// Where the list at a place begins.
fn start(ends: &[usize], at: usize) -> usize
    requires { at < length ends.now }
    ensures { result ≡ get_or (0 ∷ ends.now) at 0 }
{
    if at == 0 { 0 } else { ends[at - 1] }
}

// The number of identifiers in the list at a place.
#[tactic(auto, using(crate::proofs::CutLemmas::size_at))]
fn size_at(index: &UidIndex, ends: &[usize], at: usize) -> u32
    requires kinds { AreKinds ends.now index.now }
    requires within { at < 22 }
    ensures { result ≡ length (get_or (cut 0 ends.now index.now) at []) }
{
    (ends[at] - start(ends, at)) as u32
}

// The place of an identifier in the list at a place.
#[tactic(auto, using(crate::proofs::PlaceLemmas::found_at))]
fn found_at(index: &UidIndex, ends: &[usize], at: usize, id: Uid) -> Option<u32>
    requires kinds { AreKinds ends.now index.now }
    requires within { at < 22 }
    ensures { result ≡ place_of (get_or (cut 0 ends.now index.now) at []) id }
{
    in_piece(start(ends, at), ends[at], index.find(id))
}

fn in_piece(from: usize, end: usize, place: Option<u32>) -> Option<u32>
    ensures { result ≡ in_piece from end place }
{
    let place = place?;
    if from <= place as usize && (place as usize) < end {
        Some((place as usize - from) as u32)
    } else {
        None
    }
}

// The lists with numbers if all their identifiers differ.
#[tactic(auto, using(crate::proofs::CutLemmas::joined_is, crate::proofs::CutLemmas::length_cut))]
fn indexed(alloc: Global, lists: Lists) -> Result<Ids, IndexFault>
    requires { length lists ≡ 22 }
    ensures { Finds index_cause (repeat_of (joined lists)) (λ made. made ≡ lists) result }
{
    let Lists { ids, ends } = lists;
    if ids.len() >= 1 << 32 {
        return Err(IndexFault::Memory);
    }
    match UidIndex::of(alloc, ids) {
        Ok(index) => Ok(Ids { index, ends }),
        Err(IndexFault::Twice(place)) => Err(IndexFault::Twice(place)),
        Err(IndexFault::Memory) => Err(IndexFault::Memory),
    }
}

// The identifiers of a file if they differ.
#[tactic(auto, using(crate::proofs::PlaceLemmas::repeat_below, crate::proofs::PlaceLemmas::length_ids_of), unfolding(crate::specs::Ids::all_ids))]
fn numbered(alloc: Global, parts: &MetaParts) -> Result<Ids, IdsFault>
    ensures { Finds ids_cause (repeated (all_ids parts.now)) (λ ids. ids ≡ ids_of parts.now) result }
{
    let lists = lists_of(alloc, parts)?;
    match indexed(alloc, lists) {
        Ok(ids) => Ok(ids),
        Err(IndexFault::Twice(place)) => Err(IdsFault::Twice {
            uid: id_at(alloc, parts, place as usize)?,
        }),
        Err(IndexFault::Memory) => Err(IdsFault::Memory),
    }
}

// The identifier at a place of the whole list. The list is made again, since the index used it up.
#[tactic(auto, unfolding(crate::specs::Ids::all_ids))]
fn id_at(alloc: Global, parts: &MetaParts, place: usize) -> Result<Uid, Memory>
    requires { place < length (all_ids parts.now) }
    ensures { IfOk result (λ uid. uid ≡ get_or (all_ids parts.now) place []) }
{
    let lists = lists_of(alloc, parts)?;
    Ok(lists.at(place))
}
