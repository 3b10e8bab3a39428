//! The values of items that a check has found, so that an item which several rules name is valued once.
ghost use Rattle.std.specs.Prelude.{◌≡◌, OnOk, IfSome};
ghost use Rattle.std.specs.BTreeMap.{is_at};
ghost use Rattle.std.specs.Map.{lookup};
ghost use Rattle.expr_lang.specs.declared.tree.Item.TheVariants as item;
ghost use Rattle.validation.specs.Known.{item_of, key_cmp, key_with, IsNoted};

use dh_base::frac::Frac;
use dh_base::memory::Memory;
use dh_base::plain::Rate;
use dh_base::uid::Uid;
use expr_lang::Item;
use std::collections::BTreeMap;

/// What tells apart the items whose values take work: elements, groups of units and rates. It is
/// ordered field by field.
#[derive(Clone, Copy, PartialEq, Eq, PartialOrd, Ord)]
pub struct ItemKey {
    /// 0 for an element, 1 for a group, from 2 on for a rate.
    pub code: u8,
    /// The element, the group or the data set.
    pub id: Uid,
    pub combo: Option<Uid>,
    pub attribute: Option<Uid>,
}

fn set_key(code: u8, id: &Uid) -> ItemKey
    ensures code { result.code ≡ code }
    ensures id { result.id ≡ id.now }
{
    ItemKey {
        code,
        id: *id,
        combo: None,
        attribute: None,
    }
}

fn rate_key(set: &Uid, rate: Rate) -> ItemKey
    ensures { item_of result ≡ item.Rate set.now rate }
{
    match rate {
        Rate::Expected => set_key(2, set),
        Rate::Actual => set_key(3, set),
        Rate::OnTime => set_key(4, set),
        Rate::Reported => set_key(5, set),
        Rate::ReportedOnTime => set_key(6, set),
    }
}

/// The key of an item whose value is kept.
pub(crate) fn key_of(item: &Item) -> Option<ItemKey>
    ensures { IfSome result (λ key. item_of key ≡ item.now) }
{
    match item {
        Item::Element {
            element,
            combo,
            attribute,
        } => Some(ItemKey {
            code: 0,
            id: *element,
            combo: *combo,
            attribute: *attribute,
        }),
        Item::Group(group) => Some(ItemKey {
            code: 1,
            id: *group,
            combo: None,
            attribute: None,
        }),
        Item::Rate { set, rate } => Some(rate_key(set, *rate)),
        _ => None,
    }
}

/// The value that was kept under the key.
pub(crate) fn look_up(
    known: &BTreeMap<ItemKey, Option<Frac>>,
    key: &ItemKey,
) -> Option<Option<Frac>>
    ensures { result ≡ lookup (is_at (key_cmp key.now)) known.now.entries }
{
    known.get(key).copied()
}

// The fields are named one by one, since the prover has to be told of their types where the map is changed.
fn insert(
    known: &mut BTreeMap<ItemKey, Option<Frac>>,
    code: u8,
    id: Uid,
    combo: Option<Uid>,
    attribute: Option<Uid>,
    value: Option<Frac>,
) -> Result<(), Memory>
    ensures { OnOk result (IsNoted known.old.entries known.new.entries (key_with code id combo attribute) value) }
{
    let key = ItemKey {
        code,
        id,
        combo,
        attribute,
    };
    known.insert(key, value)?;
    Ok(())
}

/// Keeps the value of the item that the key stands for.
pub(crate) fn note(
    known: &mut BTreeMap<ItemKey, Option<Frac>>,
    key: &ItemKey,
    value: &Option<Frac>,
) -> Result<(), Memory>
    ensures { OnOk result (IsNoted known.old.entries known.new.entries key.now value.now) }
{
    insert(known, key.code, key.id, key.combo, key.attribute, *value)
}
