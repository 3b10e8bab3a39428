//! Attributes and data elements with their values, as they stand in a bundle.

ghost use Rattle.std.specs.Prelude.{◌≡◌, IfOk};
ghost use Rattle.json_read.specs.Views.{data_of};
ghost use Rattle.json_read.specs.Given.{Gives};
ghost use Rattle.import_forms.specs.Pairs.{pair_of, attributes_of, values_of};

use crate::lists::list_at;
use crate::text::{text_in, written_in};
use dh_base::items::Items;
use json::Value;
use json_read::fault::FormFault;
use json_read::form::{ReadJson, require_object};
use std::alloc::{AllocError, Global};

/// An attribute or a data element with its value, each as it stands in the body.
#[derive(Drop)]
pub struct Pair {
    /// The attribute or the data element.
    pub item: Option<Items<u8>>,
    pub value: Option<Items<u8>>,
}

/// An attribute of an entity or an enrollment.
#[derive(Drop)]
pub struct AttributePair {
    pub pair: Pair,
}

/// A data value of an event.
#[derive(Drop)]
pub struct ValuePair {
    pub pair: Pair,
}

#[tactic(auto, unfolding(crate::specs::Pairs::pair_of))]
fn pair_of(alloc: Global, key: &str, value: &Value<'_>) -> Result<Pair, AllocError>
    ensures { IfOk result (λ pair. pair ≡ pair_of key.now (data_of value.now)) }
{
    Ok(Pair {
        item: text_in(alloc, value, key)?,
        value: written_in(alloc, value, "value")?,
    })
}

impl ReadJson for AttributePair {
    ghost use Rattle.import_forms.specs.Pairs.{attribute_form};

    ghost form = { attribute_form };

    fn read(alloc: Global, value: &Value<'_>) -> Result<AttributePair, FormFault> {
        require_object(alloc, value)?;
        Ok(AttributePair {
            pair: pair_of(alloc, "attribute", value)?,
        })
    }
}

impl ReadJson for ValuePair {
    ghost use Rattle.import_forms.specs.Pairs.{value_form};

    ghost form = { value_form };

    fn read(alloc: Global, value: &Value<'_>) -> Result<ValuePair, FormFault> {
        require_object(alloc, value)?;
        Ok(ValuePair {
            pair: pair_of(alloc, "dataElement", value)?,
        })
    }
}

/// The attributes of an object.
#[tactic(auto, unfolding(crate::specs::Pairs::attributes_of))]
pub(crate) fn attributes_of(alloc: Global, value: &Value<'_>) -> Result<Items<Pair>, FormFault>
    ensures { Gives (attributes_of (data_of value.now)) result }
{
    let found: Items<AttributePair> = list_at(alloc, value, "attributes")?;
    let mut pairs = Vec::new(alloc);
    for each in found.items {
        pairs.push(each.pair)?;
    }
    Ok(Items::from(pairs))
}

/// The data values of an event.
#[tactic(auto, unfolding(crate::specs::Pairs::values_of))]
pub(crate) fn values_of(alloc: Global, value: &Value<'_>) -> Result<Items<Pair>, FormFault>
    ensures { Gives (values_of (data_of value.now)) result }
{
    let found: Items<ValuePair> = list_at(alloc, value, "dataValues")?;
    let mut pairs = Vec::new(alloc);
    for each in found.items {
        pairs.push(each.pair)?;
    }
    Ok(Items::from(pairs))
}
