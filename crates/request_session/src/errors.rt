//! Bodies of replies that refuse a request.
ghost use Rattle.std.specs.Prelude.{◌≡◌, IfOk};
ghost use Rattle.std.specs.Str.Lossy.{utf8_lossy};
ghost use Rattle.serde_json.specs.View.{view};
ghost use Rattle.http.specs.StatusCode.{IsStatusCode};
ghost use Rattle.request_session.specs.Bodies.{message_of, error_of, error_text};

use crate::members::{with_text, with_value};
use crate::response::with_status;
use dh_base::codes::Refusal;
use dh_base::memory::Memory;
use serde_json::{Map, Value};
use std::alloc::{AllocError, Global};

// The name of the code and, where there is a detail, a space and the detail.
fn message(alloc: Global, refusal: &Refusal) -> Result<Vec<u8>, Memory>
    ensures { IfOk result (λ text. text.items ≡ message_of refusal.now) }
{
    let mut text = refusal.code.name().as_bytes().to_vec(alloc)?;
    if !refusal.detail.is_empty() {
        text.push(b' ')?;
        text.extend_from_slice(refusal.detail.as_slice())?;
    }
    Ok(text)
}

#[tactic(auto, unfolding(crate::specs::Bodies::error_of))]
fn error_value(
    alloc: Global,
    number: &str,
    status: u16,
    message: &[u8],
) -> Result<Value, AllocError>
    requires { IsStatusCode status }
    ensures { IfOk result (λ v. view v ≡ error_of number.now status (utf8_lossy message.now)) }
{
    let message = Value::String(String::from_utf8_lossy(alloc, message)?);
    let members = with_value(alloc, Map::new(alloc), "message", message)?;
    let members = with_text(alloc, members, "errorCode", number)?;
    with_status(alloc, members, status, "ERROR")
}

/// The body of a reply that refuses a request.
#[tactic(auto, using(crate::proofs::HeadLemmas::has_status, crate::proofs::BodyLemmas::error_whole), unfolding(crate::specs::Bodies::error_text))]
pub fn error_body(alloc: Global, refusal: &Refusal) -> Result<Vec<u8>, Memory>
    ensures { IfOk result (λ text. text.items ≡ error_text refusal.now) }
{
    let message = message(alloc, refusal)?;
    let value = error_value(
        alloc,
        refusal.code.number(),
        refusal.code.status(),
        message.as_slice(),
    )?;
    Ok(value.to_vec(alloc)?)
}
