//! Texts as JSON values, and as they are written.

ghost use Rattle.std.specs.Prelude.{◌≡◌, [], ◌∷◌, ◌++◌, false, IfOk, OnOk};
ghost use Rattle.std.specs.List.{list_all};
ghost use Rattle.serde_json.specs.View.{view};
ghost use Rattle.serde_json.specs.Written.{has_float, compact_text};
ghost use Rattle.query_answer.specs.Texts.{text_of_bytes, is_plain, in_quotes};

use dh_base::memory::Memory;
use serde_json::Value;
use std::alloc::Global;

/// Bytes as a JSON text, where those that aren't UTF-8 are replaced.
pub fn text_value(alloc: Global, bytes: &[u8]) -> Result<Value, Memory>
    ensures { IfOk result (λ v. view v ≡ text_of_bytes bytes.now) }
{
    Ok(Value::String(String::from_utf8_lossy(alloc, bytes)?))
}

/// Whether the byte is ASCII that stands in quotes as it is.
fn is_plain(byte: u8) -> bool
    ensures { result ≡ is_plain byte }
{
    32 <= byte && byte < 128 && byte != b'"' && byte != b'\\'
}

fn are_plain(bytes: &[u8]) -> bool
    ensures { result ≡ list_all is_plain bytes.now }
{
    for byte in bytes {
        if !is_plain(*byte) {
            return false;
        }
    }
    true
}

fn push_plain(text: &mut Vec<u8>, bytes: &[u8]) -> Result<(), Memory>
    ensures { OnOk result (text.new.items ≡ text.old.items ++ 34 ∷ (bytes.now ++ 34 ∷ [])) }
{
    text.push(b'"')?;
    text.extend_from_slice(bytes)?;
    text.push(b'"')?;
    Ok(())
}

/// A value as it is written.
pub fn push_value(alloc: Global, text: &mut Vec<u8>, value: Value) -> Result<(), Memory>
    requires { has_float (view value) ≡ false }
    ensures { OnOk result (text.new.items ≡ text.old.items ++ compact_text (view value)) }
{
    let written = value.to_vec(alloc);
    drop(value);
    let written = written?;
    text.extend_from_slice(written.as_slice())?;
    Ok(())
}

#[tactic(auto, unfolding(crate::specs::Texts::in_quotes))]
fn push_escaped(alloc: Global, text: &mut Vec<u8>, bytes: &[u8]) -> Result<(), Memory>
    ensures { OnOk result (text.new.items ≡ text.old.items ++ in_quotes bytes.now) }
{
    let value = text_value(alloc, bytes)?;
    push_value(alloc, text, value)
}

/// The text in its quotes. What is plain, as nearly all of a body is, makes no value of its own.
#[tactic(auto, using(crate::proofs::RowLemmas::plain_text))]
pub fn push_quoted(alloc: Global, text: &mut Vec<u8>, bytes: &[u8]) -> Result<(), Memory>
    ensures { OnOk result (text.new.items ≡ text.old.items ++ in_quotes bytes.now) }
{
    if are_plain(bytes) {
        push_plain(text, bytes)
    } else {
        push_escaped(alloc, text, bytes)
    }
}

/// One more text of an array, with the comma before it.
pub fn push_more(alloc: Global, text: &mut Vec<u8>, bytes: &[u8]) -> Result<(), Memory>
    ensures { OnOk result (text.new.items ≡ text.old.items ++ 44 ∷ in_quotes bytes.now) }
{
    text.push(b',')?;
    push_quoted(alloc, text, bytes)
}
