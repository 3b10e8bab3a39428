ghost use Rattle.std.specs.Prelude.{◌≡◌, ◌<◌, ◌≤◌, ◌^◌, map, true, length, codes};
ghost use Rattle.std.specs.List.{list_all};
ghost use Rattle.std.specs.Char.{is_ascii_digit};
ghost use Rattle.std.specs.Str.Parse.{digits_value};
ghost use Rattle.httparse.specs.Borrowed.{header_parts};
ghost use Rattle.http_wire.specs.Fields.{last_named};
ghost use Rattle.http_wire.specs.Plan.{length_by, announced, is_badly_framed, is_not_plain, has_body, is_too_long, plan_of};

use crate::fields::{self, Mark};
use dh_base::codes::Code;
use httparse::Header;

// How many bytes a body may have.
const BODY_LIMIT: u64 = 16_777_216;

/// The body that a head announces.
#[derive(Clone, Copy, Drop)]
pub enum Plan {
    /// So many bytes.
    Sized(u64),
    /// Chunks, up to one of no bytes.
    Chunked,
}

fn digits_value(text: &[u8]) -> u64
    requires digits { list_all is_ascii_digit text.now ≡ true }
    requires short { length text.now ≤ 18 }
    ensures value { result ≡ digits_value 10 text.now }
    ensures bound { result < 10 ^ length text.now }
{
    let mut value = 0;
    for byte in text {
        value = value * 10 + u64::from(*byte - b'0');
    }
    value
}

#[tactic(auto, unfolding(crate::specs::Plan::length_in))]
fn length_by(headers: &[Header]) -> u64
    ensures { result ≡ length_by (last_named (codes "content-length") (map header_parts headers.now)) }
{
    match fields::last_named(headers, b"content-length") {
        Some(value) => {
            if fields::is_length(value) {
                digits_value(value)
            } else {
                0
            }
        }
        None => 0,
    }
}

#[tactic(auto, unfolding(crate::specs::Plan::announced))]
fn announced(headers: &[Header]) -> Plan
    ensures { result ≡ announced (map header_parts headers.now) }
{
    if fields::has(headers, Mark::Transfer) {
        Plan::Chunked
    } else {
        Plan::Sized(length_by(headers))
    }
}

#[tactic(auto, unfolding(crate::specs::Plan::is_badly_framed))]
fn is_badly_framed(headers: &[Header]) -> bool
    ensures { result ≡ is_badly_framed (map header_parts headers.now) }
{
    1 < fields::count_named(headers, b"content-length")
        || (fields::has(headers, Mark::BadLength)
            || ((fields::has(headers, Mark::Length) && fields::has(headers, Mark::Transfer))
                || fields::has(headers, Mark::OtherTransfer)))
}

fn has_body(plan: Plan) -> bool
    ensures { result ≡ has_body plan }
{
    match plan {
        Plan::Sized(count) => 0 < count,
        Plan::Chunked => true,
    }
}

fn is_too_long(plan: Plan) -> bool
    ensures { result ≡ is_too_long plan }
{
    match plan {
        Plan::Sized(count) => BODY_LIMIT < count,
        Plan::Chunked => false,
    }
}

#[tactic(auto, unfolding(crate::specs::Plan::is_not_plain))]
fn is_not_plain(headers: &[Header], plan: Plan) -> bool
    ensures { result ≡ is_not_plain (map header_parts headers.now) plan }
{
    fields::has(headers, Mark::Coding) || (has_body(plan) && fields::has(headers, Mark::OtherMedia))
}

/// The plan of the body, or the code of the first fault.
#[tactic(auto, unfolding(crate::specs::Plan::plan_of))]
pub fn plan_body(headers: &[Header]) -> Result<Plan, Code>
    ensures { result ≡ plan_of (map header_parts headers.now) }
{
    if is_badly_framed(headers) {
        return Err(Code::F4);
    }
    let plan = announced(headers);
    if is_not_plain(headers, plan) {
        return Err(Code::F5);
    }
    if is_too_long(plan) {
        return Err(Code::F3);
    }
    Ok(plan)
}
