//! The pairs of a query's text.
ghost use Rattle.std.specs.Prelude.{◌≡◌, ◌++◌, ◌∷◌, [], IfOk, OnOk};
ghost use Rattle.std.specs.Option.{option_copied};
ghost use Rattle.query_lang.specs.Form.{decoded, pairs_of};
ghost use Rattle.web_routes.specs.Parameters.{value_of};

use dh_base::items::Items;
use dh_base::memory::Memory;
use form_urlencoded::{decode, raw_pairs};
use std::alloc::Global;

#[tactic(auto, unfolding(query_lang::specs::Form::decoded))]
fn decoded(alloc: Global, bytes: &[u8]) -> Result<Items<u8>, Memory>
    ensures { IfOk result (λ text. text ≡ decoded bytes.now) }
{
    match decode(alloc, bytes) {
        Ok(text) => Ok(Items::from(Vec::from_slice(alloc, text.as_str().as_bytes())?)),
        Err(_) => Err(Memory),
    }
}

fn decoded_pair(alloc: Global, name: &[u8], value: &[u8]) -> Result<(Items<u8>, Items<u8>), Memory>
    ensures { IfOk result (λ pair. pair ≡ (decoded name.now, decoded value.now)) }
{
    let name = decoded(alloc, name)?;
    let value = decoded(alloc, value)?;
    Ok((name, value))
}

/// The names and values of a query's text, decoded, in order.
#[tactic(auto, unfolding(query_lang::specs::Form::pairs_of))]
pub fn pairs_of(alloc: Global, text: &[u8]) -> Result<Vec<(Items<u8>, Items<u8>)>, Memory>
    ensures { IfOk result (λ pairs. pairs.items ≡ pairs_of text.now) }
{
    let mut pairs = Vec::new(alloc);
    for (name, value) in raw_pairs(text) {
        pairs.push(decoded_pair(alloc, name, value)?)?;
    }
    Ok(pairs)
}

/// The last value under a name.
#[tactic(auto, unfolding(crate::specs::Parameters::value_of))]
pub fn value_of<'a>(pairs: &'a [(Items<u8>, Items<u8>)], name: &[u8]) -> Option<&'a [u8]>
    ensures { option_copied result ≡ value_of name.now pairs.now }
{
    let mut found = None;
    for pair in pairs {
        if pair.0.as_slice() == name {
            found = Some(pair.1.as_slice());
        }
    }
    found
}
