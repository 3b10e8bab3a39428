//! A reply with what it says of the request.
ghost use Rattle.std.specs.Prelude.{◌≡◌, IfOk, codes};
ghost use Rattle.serde_json.specs.Data.{number, unsigned, string, object, put};
ghost use Rattle.serde_json.specs.View.{view, members_view};
ghost use Rattle.http.specs.StatusCode.{IsStatusCode};
ghost use Rattle.request_session.specs.Bodies.{phrase_of, reply_of};

use crate::members::{with_number, with_text, with_value};
use crate::phrase::phrase;
use serde_json::{Map, Value};
use std::alloc::{AllocError, Global};

/// The members, the status and a word for the whole, as a reply's value.
pub(crate) fn with_status(
    alloc: Global,
    members: Map<String, Value>,
    status: u16,
    word: &str,
) -> Result<Value, AllocError>
    requires { IsStatusCode status }
    ensures { IfOk result (λ v. view v ≡ object
        (put (codes "status") (string word.now)
        (put (codes "httpStatusCode") (number (unsigned status))
        (put (codes "httpStatus") (string (phrase_of status)) (members_view members.entries))))) }
{
    let members = with_text(alloc, members, "httpStatus", phrase(status))?;
    let members = with_number(alloc, members, "httpStatusCode", u64::from(status))?;
    let members = with_text(alloc, members, "status", word)?;
    Ok(Value::Object(members))
}

/// A reply of this status, with what it says of the request and a word for the whole.
#[tactic(auto, unfolding(crate::specs::Bodies::reply_of))]
pub fn response_value(
    alloc: Global,
    status: u16,
    response: Value,
    word: &str,
) -> Result<Value, AllocError>
    requires { IsStatusCode status }
    ensures { IfOk result (λ v. view v ≡ reply_of status (view response) word.now) }
{
    let members = with_value(alloc, Map::new(alloc), "response", response)?;
    with_status(alloc, members, status, word)
}
