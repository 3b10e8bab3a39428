ghost use Rattle.std.specs.Prelude.{◌≡◌, ◌≤◌, Ok, IfOk, map, option_map, Option, nat_lt, false};
ghost use Rattle.httparse.specs.Borrowed.{header_parts};
ghost use Rattle.dh_base.specs.Memory.{Answers};
ghost use Rattle.http_wire.specs.Lines.{field_lines};
ghost use Rattle.http_wire.specs.Head.{Parts, head_with, said_by, cause_of, IsMeantBy, Says, Tells};
ghost use Rattle.http_wire.specs.declared.head.HeadFault.TheVariants.{Memory};

use crate::fields;
use crate::lines::field_lines;
use crate::plan::{Plan, plan_body};
use dh_base::codes::Code;
use dh_base::items::Items;
use httparse::{EMPTY_HEADER, Header, Status};
use std::alloc::{AllocError, Global};

// How many field lines a head may have.
const FIELDS: usize = 64;

/// What the head of a request says. The texts are bytes as they came.
#[derive(Drop)]
pub struct Head {
    pub method: Items<u8>,
    /// The target up to the first question mark.
    pub path: Items<u8>,
    /// The target after it.
    pub query: Items<u8>,
    /// The text of the one `Authorization` after `ApiToken `.
    pub token: Option<Items<u8>>,
    /// The value of the last `X-Min-Change`.
    pub asked: Option<Items<u8>>,
    /// Whether the connection goes on after the reply.
    pub keep: bool,
    /// The body that is announced.
    pub plan: Plan,
}

/// Why a head says nothing.
#[derive(Clone, Copy, Debug, Drop, thiserror::Error)]
pub enum HeadFault {
    /// The head is refused.
    #[error("the head is refused")]
    Refused(Code),
    /// No memory was found.
    #[error("out of memory")]
    Memory,
}

impl From<AllocError> for HeadFault {
    ghost from_gives = { λ _ e. e ≡ Memory };

    fn from(_: AllocError) -> Self {
        HeadFault::Memory
    }
}

fn copied(alloc: Global, text: &[u8]) -> Result<Items<u8>, AllocError>
    ensures { IfOk result (λ items. items ≡ text.now) }
{
    Ok(Items::from(text.to_vec(alloc)?))
}

fn copied_if(alloc: Global, text: Option<&[u8]>) -> Result<Option<Items<u8>>, AllocError>
    ensures { IfOk result (λ items. items ≡ option_map (λ t. t.now) text.entry) }
{
    match text {
        Some(text) => Ok(Some(copied(alloc, text)?)),
        None => Ok(None),
    }
}

// Both values, unless one is missing. So nothing is held where memory may run out.
fn both<A: Drop, B: Drop>(
    first: Result<A, AllocError>,
    second: Result<B, AllocError>,
) -> Result<(A, B), AllocError>
    ensures { IfOk result (λ pair. (first ≡ Ok pair.0) × (second ≡ Ok pair.1)) }
{
    match first {
        Ok(first) => match second {
            Ok(second) => Ok((first, second)),
            Err(error) => Err(error),
        },
        Err(error) => Err(error),
    }
}

fn head_with(
    alloc: Global,
    method: &[u8],
    target: &[u8],
    minor: u8,
    headers: &[Header],
    plan: Plan,
) -> Result<Head, HeadFault>
    ensures { Answers cause_of (Ok (head_with
        (record { method = method.now; target = target.now; minor = minor; fields = map header_parts headers.now }) plan)) result }
{
    let path = copied(alloc, fields::path(target));
    let query = copied(alloc, fields::query(target));
    let texts = both(copied(alloc, method), both(path, query));
    let token = copied_if(alloc, fields::token(headers));
    let asked = copied_if(alloc, fields::last_named(headers, b"x-min-change"));
    match both(texts, both(token, asked)) {
        Ok(((method, (path, query)), (token, asked))) => Ok(Head {
            method,
            path,
            query,
            token,
            asked,
            keep: fields::is_kept(minor, headers),
            plan,
        }),
        Err(_) => Err(HeadFault::Memory),
    }
}

#[tactic(auto, unfolding(crate::specs::Head::said_by))]
fn said_by(
    alloc: Global,
    method: &[u8],
    target: &[u8],
    minor: u8,
    headers: &[Header],
) -> Result<Head, HeadFault>
    ensures { Answers cause_of (said_by
        (record { method = method.now; target = target.now; minor = minor; fields = map header_parts headers.now })) result }
{
    match plan_body(headers) {
        Ok(plan) => head_with(alloc, method, target, minor, headers, plan),
        Err(code) => Err(HeadFault::Refused(code)),
    }
}

// Of a head with few enough lines.
fn read_lines(alloc: Global, head: &[u8]) -> Result<Head, HeadFault>
    requires { field_lines head.now ≤ 64 }
    ensures { Tells (IsMeantBy false head.now) result }
{
    let mut headers = [EMPTY_HEADER; FIELDS];
    let mut request = httparse::Request::new(&mut headers);
    match request.parse(head) {
        Ok(Status::Complete(end)) => {
            if end != head.len() {
                return Err(HeadFault::Refused(Code::F1));
            }
        }
        Ok(Status::Partial) => return Err(HeadFault::Refused(Code::F1)),
        Err(_) => return Err(HeadFault::Refused(Code::F1)),
    }
    let (Some(method), Some(target), Some(minor)) = (request.method, request.path, request.version)
    else {
        return Err(HeadFault::Refused(Code::F1));
    };
    said_by(
        alloc,
        method.as_bytes(),
        target.as_bytes(),
        minor,
        request.headers,
    )
}

/// What the bytes of a head say, as `find_opening` finds them.
pub fn read_head(alloc: Global, head: &[u8]) -> Result<Head, HeadFault>
    ensures { Tells (Says head.now) result }
{
    if field_lines(head) > FIELDS {
        return Err(HeadFault::Refused(Code::F2));
    }
    read_lines(alloc, head)
}
