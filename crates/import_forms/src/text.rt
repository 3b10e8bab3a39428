//! Texts and truths under the keys of JSON objects.

ghost use Rattle.std.specs.Prelude.{◌≡◌, IfOk, Some, option_and_then};
ghost use Rattle.json_read.specs.Views.{data_of};
ghost use Rattle.serde_json.specs.Find.{as_number};
ghost use Rattle.json_read.specs.Given.{Gives};
ghost use Rattle.import_forms.specs.Texts.{text_at, text_in, four_texts_in, truth_in, truth_text, whole_text, written_of, written_in};

use crate::both::both;
use dh_base::items::Items;
use dh_base::memory::Memory;
use dh_changes::text::Text;
use json::Value;
use json_read::fault::FormFault;
use json_read::form::{ReadJson, field_or};
use json_read::look::{integer, is_null, member, natural, text, truth};
use std::alloc::{AllocError, Global};

/// A text that may be absent.
#[derive(Drop)]
pub struct TextOrNull {
    pub text: Option<Text>,
}

impl ReadJson for TextOrNull {
    ghost use Rattle.import_forms.specs.Texts.{text_or_null_of};

    ghost form = { text_or_null_of };

    #[tactic(auto, unfolding(crate::specs::Texts::text_or_null_of))]
    fn read(alloc: Global, value: &Value<'_>) -> Result<TextOrNull, FormFault> {
        if is_null(value) {
            return Ok(TextOrNull { text: None });
        }
        let found: Items<u8> = ReadJson::read(alloc, value)?;
        match Text::of(alloc, found.as_slice()) {
            Ok(text) => Ok(TextOrNull { text: Some(text) }),
            Err(_) => Err(FormFault::Memory),
        }
    }
}

/// The text under a key, where null counts as absent and data of another type is at fault.
#[tactic(auto, unfolding(crate::specs::Texts::text_at))]
pub(crate) fn text_at(
    alloc: Global,
    value: &Value<'_>,
    key: &str,
) -> Result<Option<Text>, FormFault>
    ensures { Gives (text_at key.now (data_of value.now)) result }
{
    let found: TextOrNull = field_or(alloc, value, key, TextOrNull { text: None })?;
    Ok(found.text)
}

fn copied(alloc: Global, text: &str) -> Result<Items<u8>, AllocError>
    ensures { IfOk result (λ copy. copy ≡ text.now) }
{
    Ok(Items::from(text.as_bytes().to_vec(alloc)?))
}

/// The text under a key, where data of another type counts as absent.
pub(crate) fn text_in(
    alloc: Global,
    value: &Value<'_>,
    key: &str,
) -> Result<Option<Items<u8>>, AllocError>
    ensures { IfOk result (λ text. text ≡ text_in key.now (data_of value.now)) }
{
    match member(value, key).and_then(text) {
        Some(found) => Ok(Some(copied(alloc, found)?)),
        None => Ok(None),
    }
}

/// The same text where a short one stands in its owner.
pub(crate) fn held_text_in(
    alloc: Global,
    value: &Value<'_>,
    key: &str,
) -> Result<Option<Text>, Memory>
    ensures { IfOk result (λ text. text ≡ text_in key.now (data_of value.now)) }
{
    match member(value, key).and_then(text) {
        Some(found) => Ok(Some(Text::of(alloc, found.as_bytes())?)),
        None => Ok(None),
    }
}

type Four<T> = ((Option<T>, Option<T>), (Option<T>, Option<T>));

/// The texts under four keys.
pub(crate) fn four_texts_in(
    alloc: Global,
    value: &Value<'_>,
    first: &str,
    second: &str,
    third: &str,
    fourth: &str,
) -> Result<Four<Items<u8>>, AllocError>
    ensures { IfOk result (λ texts. texts ≡ four_texts_in first.now second.now third.now fourth.now (data_of value.now)) }
{
    both(
        both(text_in(alloc, value, first), text_in(alloc, value, second)),
        both(text_in(alloc, value, third), text_in(alloc, value, fourth)),
    )
}

/// The same texts where short ones stand in their owner.
pub(crate) fn four_held_texts_in(
    alloc: Global,
    value: &Value<'_>,
    first: &str,
    second: &str,
    third: &str,
    fourth: &str,
) -> Result<Four<Text>, Memory>
    ensures { IfOk result (λ texts. texts ≡ four_texts_in first.now second.now third.now fourth.now (data_of value.now)) }
{
    both(
        both(
            held_text_in(alloc, value, first),
            held_text_in(alloc, value, second),
        ),
        both(
            held_text_in(alloc, value, third),
            held_text_in(alloc, value, fourth),
        ),
    )
}

/// The truth under a key, where data of another type counts as absent.
pub(crate) fn truth_in(value: &Value<'_>, key: &str) -> Option<bool>
    ensures { result ≡ truth_in key.now (data_of value.now) }
{
    member(value, key).and_then(truth)
}

fn truth_text(truth: bool) -> &'static str
    ensures { result.now ≡ truth_text truth }
{
    if truth { "true" } else { "false" }
}

fn whole_text(alloc: Global, value: &Value<'_>) -> Result<Option<Items<u8>>, AllocError>
    ensures { IfOk result (λ text. text ≡ option_and_then whole_text (as_number (data_of value.now))) }
{
    if let Some(number) = natural(value) {
        let digits = format!(in alloc; "{number}")?;
        return Ok(Some(Items::from(digits.into_bytes())));
    }
    match integer(value) {
        Some(number) => {
            let digits = format!(in alloc; "{number}")?;
            Ok(Some(Items::from(digits.into_bytes())))
        }
        None => Ok(None),
    }
}

fn written(alloc: Global, value: &Value<'_>) -> Result<Option<Items<u8>>, AllocError>
    ensures { IfOk result (λ text. text ≡ written_of (data_of value.now)) }
{
    if let Some(found) = text(value) {
        return Ok(Some(copied(alloc, found)?));
    }
    match truth(value) {
        Some(found) => Ok(Some(copied(alloc, truth_text(found))?)),
        None => whole_text(alloc, value),
    }
}

/// The text under a key, where a whole number or a truth counts as its text and data of another type
/// as absent.
pub(crate) fn written_in(
    alloc: Global,
    value: &Value<'_>,
    key: &str,
) -> Result<Option<Items<u8>>, AllocError>
    ensures { IfOk result (λ text. text ≡ written_in key.now (data_of value.now)) }
{
    match member(value, key) {
        Some(found) => written(alloc, found),
        None => Ok(None),
    }
}

/// The same text where a short one stands in its owner.
pub(crate) fn held_written_in(
    alloc: Global,
    value: &Value<'_>,
    key: &str,
) -> Result<Option<Text>, Memory>
    ensures { IfOk result (λ text. text ≡ written_in key.now (data_of value.now)) }
{
    let Some(found) = member(value, key) else {
        return Ok(None);
    };
    if let Some(found) = text(found) {
        return Ok(Some(Text::of(alloc, found.as_bytes())?));
    }
    match written(alloc, found)? {
        Some(other) => Ok(Some(Text::of(alloc, other.as_slice())?)),
        None => Ok(None),
    }
}
