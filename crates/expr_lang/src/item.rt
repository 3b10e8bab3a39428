//! The items that words name.

ghost use Rattle.std.specs.Prelude.{◌≡◌, ◌<◌};
ghost use Rattle.expr_lang.specs.Item.{uid_from, item_from, is_day_of, leaf_from};

use crate::days::DayItems;
use crate::tree::{Item, Leaf};
use crate::words::ItemForm;
use dh_base::uid::Uid;

fn uid_at(bytes: &[u8], from: usize) -> Option<Uid>
    requires { from < 64 }
    ensures { result ≡ uid_from from bytes.now }
{
    if bytes.len() < from + 11 {
        return None;
    }
    Uid::parse(&bytes[from..from + 11])
}

/// The item that a word of this form names.
#[tactic(auto, unfolding(crate::specs::Item::item_from))]
pub fn item_of(form: ItemForm, bytes: &[u8]) -> Option<Item>
    ensures { result ≡ item_from form bytes.now }
{
    match form {
        ItemForm::Element => Some(Item::Element {
            element: uid_at(bytes, 2)?,
            combo: None,
            attribute: None,
        }),
        ItemForm::ElementCombo => Some(Item::Element {
            element: uid_at(bytes, 2)?,
            combo: Some(uid_at(bytes, 14)?),
            attribute: None,
        }),
        ItemForm::ElementCombos => Some(Item::Element {
            element: uid_at(bytes, 2)?,
            combo: Some(uid_at(bytes, 14)?),
            attribute: Some(uid_at(bytes, 26)?),
        }),
        ItemForm::Constant => Some(Item::Constant(uid_at(bytes, 2)?)),
        ItemForm::Group => Some(Item::Group(uid_at(bytes, 4)?)),
        ItemForm::Days => Some(Item::Days),
        ItemForm::Rate(rate) => Some(Item::Rate {
            set: uid_at(bytes, 2)?,
            rate,
        }),
        ItemForm::StageElement => Some(Item::StageElement {
            stage: uid_at(bytes, 2)?,
            element: uid_at(bytes, 14)?,
        }),
        ItemForm::Attribute => Some(Item::Attribute(uid_at(bytes, 2)?)),
        ItemForm::EventDate => Some(Item::EventDate),
        ItemForm::EnrollmentDate => Some(Item::EnrollmentDate),
        ItemForm::EventCount => Some(Item::EventCount),
        ItemForm::EnrollmentCount => Some(Item::EnrollmentCount),
        ItemForm::EntityCount => Some(Item::EntityCount),
    }
}

/// The operand that an item is: some items are days.
pub fn leaf_of(item: Item, days: &DayItems) -> Leaf
    ensures { result ≡ leaf_from days.now item }
{
    if is_day(&item, days) {
        Leaf::Day(item)
    } else {
        Leaf::Item(item)
    }
}

fn is_day(item: &Item, days: &DayItems) -> bool
    ensures { result ≡ is_day_of days.now item.now }
{
    match item {
        Item::EventDate | Item::EnrollmentDate => true,
        Item::StageElement { stage: _, element } => days.has(*element),
        Item::Attribute(attribute) => days.has(*attribute),
        _ => false,
    }
}
