//! Elements and attributes whose values are days.

ghost use Rattle.std.specs.Prelude.{◌≡◌, ◌++◌, OnOk, IfOk};
ghost use Rattle.meta_rules.specs.Days.{days_of, day_elements, day_attributes};

use dh_base::memory::Memory;
use dh_base::uid::Uid;
use dh_metadata::names::ValueType;
use dh_metadata::parts::MetaParts;
use dh_metadata::raw::{RawAttribute, RawElement};
use expr_lang::DayItems;
use std::alloc::Global;

fn add_elements(days: &mut Vec<Uid>, elements: &[RawElement]) -> Result<(), Memory>
    ensures { OnOk result (days.new.items ≡ days.old.items ++ day_elements elements.now) }
{
    for element in elements {
        if element.value_type == ValueType::Date {
            days.push(element.id)?;
        }
    }
    Ok(())
}

fn add_attributes(days: &mut Vec<Uid>, attributes: &[RawAttribute]) -> Result<(), Memory>
    ensures { OnOk result (days.new.items ≡ days.old.items ++ day_attributes attributes.now) }
{
    for attribute in attributes {
        if attribute.value_type == ValueType::Date {
            days.push(attribute.id)?;
        }
    }
    Ok(())
}

/// The elements and attributes of value type DATE.
pub fn days_of(alloc: Global, parts: &MetaParts) -> Result<DayItems, Memory>
    ensures { IfOk result (λ days. days ≡ days_of parts.now) }
{
    let mut days = Vec::new(alloc);
    add_elements(&mut days, parts.data_elements.as_slice())?;
    add_attributes(&mut days, parts.tracked_entity_attributes.as_slice())?;
    DayItems::of(alloc, &days)
}
