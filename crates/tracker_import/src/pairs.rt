//! Attributes and data elements with their values.

ghost use Rattle.std.specs.Prelude.{◌≡◌, ◌<◌, ◌∷◌, [], Some, filter, IfOk, OnOk};
ghost use Rattle.dh_metadata.specs.Linked.{IsBelow};
ghost use Rattle.dh_metadata.specs.Objects.{count_of};
ghost use Rattle.tracker_import.specs.Pairs as known;

use crate::items::id_in;
use dh_base::items::Items;
use dh_base::memory::Memory;
use dh_base::uid::Uid;
use dh_metadata::kind::Kind;
use dh_metadata::metadata::Metadata;
use dh_metadata::names::ValueType;
use dh_records::value::fits;
use import_forms::pair::Pair;
use std::alloc::Global;
use std::collections::BTreeMap;

/// How many attributes, and how many elements, can be written: so many members has a list in the bytes of a change.
/// A metadata file has fewer of each.
pub const MOST_ITEMS: u32 = 65_535;

/// How long a text in the bytes of a change is at most.
pub const MOST_BYTES: usize = 65_535;

/// What pairs name.
#[derive(Clone, Copy)]
pub enum ItemKind {
    Attribute,
    Element,
}

fn kind_of(kind: ItemKind) -> Kind
    ensures { result ≡ known.kind_of kind }
{
    match kind {
        ItemKind::Attribute => Kind::TrackedEntityAttribute,
        ItemKind::Element => Kind::DataElement,
    }
}

#[tactic(auto, unfolding(crate::specs::Pairs::item_of))]
fn item_of(meta: &Metadata, kind: ItemKind, id: Uid) -> Option<u32>
    ensures value { result ≡ known.item_of meta.now kind id }
    ensures in_range { IsBelow (count_of meta.now (known.kind_of kind)) result }
{
    match meta.find(kind_of(kind), id) {
        Some(number) => if number < MOST_ITEMS {
            Some(number)
        } else {
            None
        },
        None => None,
    }
}

#[tactic(auto, unfolding(crate::specs::Pairs::item_named))]
fn item_named(meta: &Metadata, kind: ItemKind, pair: &Pair) -> Option<u32>
    ensures value { result ≡ known.item_named meta.now kind pair.now }
    ensures in_range { IsBelow (count_of meta.now (known.kind_of kind)) result }
{
    match id_in(&pair.item) {
        Some(id) => item_of(meta, kind, id),
        None => None,
    }
}

fn type_of(meta: &Metadata, kind: ItemKind, number: u32) -> ValueType
    requires { number < count_of meta.now (known.kind_of kind) }
    ensures { Some result ≡ known.type_of meta.now kind number }
{
    match kind {
        ItemKind::Attribute => meta.attribute(number).value_type,
        ItemKind::Element => meta.element(number).value_type,
    }
}

/// Whether a pair names nothing that is there.
#[tactic(auto, unfolding(crate::specs::Pairs::has_unknown))]
pub fn has_unknown(meta: &Metadata, kind: ItemKind, pairs: &[Pair]) -> bool
    ensures { result ≡ known.has_unknown meta.now kind pairs.now }
{
    for pair in pairs {
        if item_named(meta, kind, pair).is_none() {
            return true;
        }
    }
    false
}

#[tactic(auto, unfolding(crate::specs::Pairs::is_fit))]
fn is_fit(meta: &Metadata, kind: ItemKind, pair: &Pair) -> bool
    ensures { result ≡ known.is_fit meta.now kind pair.now }
{
    let Some(number) = item_named(meta, kind, pair) else {
        return false;
    };
    match &pair.value {
        Some(text) => fits(type_of(meta, kind, number), text.as_slice()),
        None => false,
    }
}

/// Whether a value doesn't fit the type of what its pair names.
#[tactic(auto, unfolding(crate::specs::Pairs::has_unfit))]
pub fn has_unfit(meta: &Metadata, kind: ItemKind, pairs: &[Pair]) -> bool
    ensures { result ≡ known.has_unfit meta.now kind pairs.now }
{
    for pair in pairs {
        if !is_fit(meta, kind, pair) {
            return true;
        }
    }
    false
}

#[tactic(auto, unfolding(crate::specs::Pairs::is_among))]
fn is_among(meta: &Metadata, kind: ItemKind, numbers: &[u32], pair: &Pair) -> bool
    ensures { result ≡ known.is_among meta.now kind numbers.now pair.now }
{
    match item_named(meta, kind, pair) {
        Some(number) => numbers.contains(&number),
        None => false,
    }
}

/// Whether a pair names something else than these.
#[tactic(auto, unfolding(crate::specs::Pairs::has_foreign))]
pub fn has_foreign(meta: &Metadata, kind: ItemKind, numbers: &[u32], pairs: &[Pair]) -> bool
    ensures { result ≡ known.has_foreign meta.now kind numbers.now pairs.now }
{
    for pair in pairs {
        if !is_among(meta, kind, numbers, pair) {
            return true;
        }
    }
    false
}

fn put(
    alloc: Global,
    all: &mut BTreeMap<Uid, Items<u8>>,
    id: Uid,
    text: &[u8],
) -> Result<(), Memory>
    ensures { OnOk result (all.new.entries ≡ known.put_all all.old.entries ((id, text.now) ∷ [])) }
{
    let copy = Items::from(text.to_vec(alloc)?);
    all.insert(id, copy)?;
    Ok(())
}

// Whether an attribute that stood stays.
#[tactic(auto, unfolding(crate::specs::Pairs::is_kept))]
fn is_kept(meta: &Metadata, id: Uid, text: &[u8]) -> bool
    ensures { result ≡ known.is_kept meta.now (id, text.now) }
{
    if item_of(meta, ItemKind::Attribute, id).is_none() {
        return false;
    }
    text.len() <= MOST_BYTES
}

// Puts what stood and stays.
fn put_kept(
    alloc: Global,
    all: &mut BTreeMap<Uid, Items<u8>>,
    meta: &Metadata,
    old: &[(Uid, Items<u8>)],
) -> Result<(), Memory>
    ensures { OnOk result (all.new.entries ≡ known.put_all all.old.entries (filter (known.is_kept meta.now) old.now)) }
{
    for each in old {
        if is_kept(meta, each.0, each.1.as_slice()) {
            put(alloc, all, each.0, each.1.as_slice())?;
        }
    }
    Ok(())
}

fn put_pairs(
    alloc: Global,
    all: &mut BTreeMap<Uid, Items<u8>>,
    pairs: &[Pair],
) -> Result<(), Memory>
    ensures { OnOk result (all.new.entries ≡ known.put_all all.old.entries (known.told pairs.now)) }
{
    for pair in pairs {
        let Some(id) = id_in(&pair.item) else {
            continue;
        };
        if let Some(text) = &pair.value {
            put(alloc, all, id, text.as_slice())?;
        }
    }
    Ok(())
}

/// What stood and stays, with what pairs tell, in the order of the identifiers' bytes.
#[tactic(auto, using(crate::proofs::PairLemmas::put_all_both), unfolding(crate::specs::Pairs::merged, crate::specs::Pairs::in_order))]
pub fn merged(
    alloc: Global,
    meta: &Metadata,
    old: &[(Uid, Items<u8>)],
    pairs: &[Pair],
) -> Result<Items<(Uid, Items<u8>)>, Memory>
    ensures { IfOk result (λ list. list ≡ known.merged meta.now old.now pairs.now) }
{
    let mut all = BTreeMap::new(alloc);
    put_kept(alloc, &mut all, meta, old)?;
    put_pairs(alloc, &mut all, pairs)?;
    Ok(Items {
        items: all.into_iter().collect(alloc)?,
    })
}
