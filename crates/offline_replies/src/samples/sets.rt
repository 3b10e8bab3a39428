//! Samples as data values.
ghost use Rattle.std.specs.Prelude.{◌≡◌, IfOk, map};
ghost use Rattle.std.specs.Fmt.{decimal};
ghost use Rattle.offline_replies.specs.Ids.{facility_id, month_text};
ghost use Rattle.offline_replies.specs.Sets.{value_of};

use crate::samples::draws::Sample;
use crate::samples::ids::{ELEMENT, push_facility};
use dh_base::items::Items;
use dh_base::memory::Memory;
use dh_changes::text::Text;
use import_forms::set::SetValue;
use std::alloc::Global;

fn number_text(alloc: Global, number: u64) -> Result<Text, Memory>
    ensures { IfOk result (λ text. text ≡ decimal number) }
{
    let digits = format!(in alloc; "{number}")?.into_bytes();
    Text::of(alloc, digits.as_slice())
}

// The text of a month, counted from January 2023.
#[tactic(auto, unfolding(crate::specs::Ids::month_text))]
fn month_text(alloc: Global, month: u32) -> Result<Text, Memory>
    ensures { IfOk result (λ text. text ≡ month_text month) }
{
    let number = 202_301 + u64::from(month) / 12 * 100 + u64::from(month) % 12;
    number_text(alloc, number)
}

// The identifier of a facility.
fn facility_text(alloc: Global, facility: u32) -> Result<Text, Memory>
    ensures { IfOk result (λ text. text ≡ facility_id facility) }
{
    let mut id = Vec::new(alloc);
    push_facility(&mut id, facility)?;
    Text::of(alloc, id.as_slice())
}

#[tactic(auto, unfolding(crate::specs::Sets::value_of, crate::specs::Ids::element_id))]
fn value_of(alloc: Global, sample: &Sample) -> Result<SetValue, Memory>
    ensures { IfOk result (λ value. value ≡ value_of sample.now) }
{
    let element = Text::of(alloc, ELEMENT.as_slice())?;
    let value = number_text(alloc, sample.amount as u64)?;
    let period = month_text(alloc, sample.month)?;
    let unit = facility_text(alloc, sample.facility)?;
    Ok(SetValue {
        element: Some(element),
        combo: None,
        attribute: None,
        value: Some(value),
        period: Some(period),
        unit: Some(unit),
        deleted: false,
    })
}

/// The values of some samples.
pub(crate) fn values_of(alloc: Global, samples: &[Sample]) -> Result<Items<SetValue>, Memory>
    ensures { IfOk result (λ values. values ≡ map value_of samples.now) }
{
    let mut values = Vec::new(alloc);
    for sample in samples {
        values.push(value_of(alloc, sample)?)?;
    }
    Ok(Items::from(values))
}
