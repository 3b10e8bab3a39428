//! The values of tracker objects.
ghost use Rattle.std.specs.Prelude.{◌≡◌, Option, List, ℕ, IfOk};
ghost use Rattle.std.specs.List.{filter_map};
ghost use Rattle.dh_metadata.specs.declared.held.Records.{Records};
ghost use Rattle.table_rows.specs.declared.event.ItemValue.{ItemValue as Item};
ghost use Rattle.table_build.specs.Items as known;

use crate::lists::put_found;
use dh_base::items::Items;
use dh_base::memory::Memory;
use dh_base::uid::Uid;
use dh_metadata::kind::Kind;
use dh_metadata::metadata::Metadata;
use dh_metadata::names::ValueType;
use dh_periods::civil;
use dh_records::number::number_of;
use dh_records::value::fits;
use std::alloc::Global;
use table_rows::ItemValue;

// A text as a value of a type, where it is one.
#[tactic(auto, unfolding(crate::specs::Items::item_of, crate::specs::Items::day_item, crate::specs::Items::text_item, crate::specs::Items::number_item))]
fn item_of(kind: ValueType, text: &[u8]) -> Option<ItemValue>
    ensures { result ≡ known.item_of kind text.now }
{
    match kind {
        ValueType::Date => Some(ItemValue::Day(civil(text)?)),
        ValueType::Text => {
            if fits(ValueType::Text, text) {
                Some(ItemValue::Plain)
            } else {
                None
            }
        }
        number => Some(ItemValue::Number(number_of(number, text)?.value())),
    }
}

/// What tracker objects hold values of.
pub trait Valued {
    /// The value of one of them, where it stands in the metadata and the text is a value of its type.
    ghost value: { Records → List ℕ × List ℕ → Option (ℕ × Item) };

    /// The value of the one that the pair names, by its number.
    fn value_of(meta: &Metadata, pair: &(Uid, Items<u8>)) -> Option<(u32, ItemValue)>
        ensures { result ≡ value meta.now pair.now };
}

/// Of data elements.
pub struct Elements;

/// Of attributes.
pub struct Attributes;

impl Valued for Elements {
    ghost use Rattle.table_build.specs.Items.{element_value};

    ghost value = { element_value };

    #[tactic(auto, unfolding(crate::specs::Items::element_value, crate::specs::Items::element_item))]
    fn value_of(meta: &Metadata, pair: &(Uid, Items<u8>)) -> Option<(u32, ItemValue)> {
        let element = meta.find(Kind::DataElement, pair.0)?;
        let value = item_of(meta.element(element).value_type, pair.1.as_slice())?;
        Some((element, value))
    }
}

impl Valued for Attributes {
    ghost use Rattle.table_build.specs.Items.{attribute_value};

    ghost value = { attribute_value };

    #[tactic(auto, unfolding(crate::specs::Items::attribute_value, crate::specs::Items::attribute_item))]
    fn value_of(meta: &Metadata, pair: &(Uid, Items<u8>)) -> Option<(u32, ItemValue)> {
        let attribute = meta.find(Kind::TrackedEntityAttribute, pair.0)?;
        let value = item_of(meta.attribute(attribute).value_type, pair.1.as_slice())?;
        Some((attribute, value))
    }
}

/// The values of those that stand in the metadata and whose texts are values of their types.
pub fn values_of<T: Valued>(
    alloc: Global,
    meta: &Metadata,
    pairs: &[(Uid, Items<u8>)],
) -> Result<Items<(u32, ItemValue)>, Memory>
    ensures { IfOk result (λ values. values ≡ filter_map (T.value meta.now) pairs.now) }
{
    let mut values = Vec::new(alloc);
    for pair in pairs {
        put_found(&mut values, T::value_of(meta, pair))?;
    }
    Ok(Items::from(values))
}
