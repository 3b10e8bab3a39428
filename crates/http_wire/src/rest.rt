//! Reading the next request after the bytes that are held.
ghost use Rattle.std.specs.Prelude.{◌≡◌, ◌≤◌, ◌^◌, ℕ, Ok, Err, [], length, take};
ghost use Rattle.dh_base.specs.declared.codes.Code.{Code};
ghost use Rattle.dh_outside.specs.Faults.{Rose};
ghost use Rattle.http_wire.specs.Next.{whole, refused, IsNext};
ghost use Rattle.http_wire.specs.declared.request.Request.{Request as Asked};
ghost use Rattle.http_wire.specs.Reads.{Reads, ReadsBehind, seen};
ghost use Rattle.http_wire.specs.Head.{Says, Tells};
ghost use Rattle.http_wire.specs.declared.fault.WireFault.TheVariants.{ReadFault};

use crate::Request;
use crate::body::read_body;
use crate::fault::{WireFault, fault_of};
use crate::front::find_head;
use crate::head::{Head, HeadFault, read_head};
use dh_outside::Source;
use std::alloc::Global;
use std::marker::Model;

/// The bytes that were read of one source and not yet used.
#[derive(Drop)]
pub struct Rest {
    bytes: Vec<u8>,
    read: u64,
}

impl Model for Rest {
    ghost use Rattle.std.specs.Prelude.{◌≤◌, ◌^◌};
    ghost use Rattle.http_wire.specs.Reads.{RestSeen};

    ghost Value = { RestSeen };

    ghost view = { λ r. record { bytes = r.bytes.items; read = r.read } };

    ghost invariant = { λ r. r.read ≤ 2 ^ 63 };
}

impl Rest {
    /// Nothing was read yet. This takes no memory.
    pub fn new(alloc: Global) -> Self
        ensures { result ≡ record { bytes = []; read = 0 } }
    {
        Rest {
            bytes: Vec::new(alloc),
            read: 0,
        }
    }
}

// The head at the front of the bytes.
fn head_at(alloc: Global, bytes: &Vec<u8>, end: usize) -> Result<Head, HeadFault>
    requires { end ≤ length bytes.now.items }
    ensures { Tells (Says (take end bytes.now.items)) result }
{
    let bytes = bytes.as_slice();
    read_head(alloc, &bytes[..end])
}

// Reads the body after a head of so many bytes.
fn read_at_head<S: Source>(
    alloc: Global,
    source: &mut S,
    bytes: &mut Vec<u8>,
    read: &mut u64,
    end: usize,
    head: Head,
) -> Result<Request, WireFault>
    requires within { end ≤ length bytes.old.items }
    requires bound { read.old ≤ 2 ^ 63 }
    requires says { Says (take end bytes.old.items) (Ok head) }
    ensures reads { ReadsBehind (S.left source.old) (S.left source.new) (S.source_talk source.old) (S.source_talk source.new)
        bytes.old.items bytes.new.items read.old read.new end result }
    ensures bound { read.new ≤ 2 ^ 63 }
    ensures failed { result ≡ Err ReadFault → Rose (S.source_faults source.old) (S.source_faults source.new) }
    ensures keeps { S.source_faults source.old ≤ S.source_faults source.new }
{
    match read_body(alloc, source, bytes, read, end, head.plan) {
        Ok(body) => Ok(Request {
            method: head.method,
            path: head.path,
            query: head.query,
            token: head.token,
            asked: head.asked,
            body,
            keep: head.keep,
        }),
        Err(error) => {
            drop(head);
            Err(error)
        }
    }
}

// Reads the request whose head of so many bytes stands at the front of the bytes held.
fn read_behind<S: Source>(
    alloc: Global,
    source: &mut S,
    bytes: &mut Vec<u8>,
    read: &mut u64,
    end: usize,
) -> Result<Request, WireFault>
    requires within { end ≤ length bytes.old.items }
    requires bound { read.old ≤ 2 ^ 63 }
    ensures reads { ReadsBehind (S.left source.old) (S.left source.new) (S.source_talk source.old) (S.source_talk source.new)
        bytes.old.items bytes.new.items read.old read.new end result }
    ensures bound { read.new ≤ 2 ^ 63 }
    ensures failed { result ≡ Err ReadFault → Rose (S.source_faults source.old) (S.source_faults source.new) }
    ensures keeps { S.source_faults source.old ≤ S.source_faults source.new }
{
    match head_at(alloc, bytes, end) {
        Ok(head) => read_at_head(alloc, source, bytes, read, end, head),
        Err(error) => Err(fault_of(error)),
    }
}

// Reads the next request after the bytes held.
fn read_next<S: Source>(
    alloc: Global,
    source: &mut S,
    bytes: &mut Vec<u8>,
    read: &mut u64,
) -> Result<Option<Request>, WireFault>
    requires bound { read.old ≤ 2 ^ 63 }
    ensures reads { Reads (S.left source.old) (S.left source.new) (S.source_talk source.old) (S.source_talk source.new)
        (seen bytes.old.items read.old) (seen bytes.new.items read.new) result }
    ensures bound { read.new ≤ 2 ^ 63 }
    ensures failed { result ≡ Err ReadFault → Rose (S.source_faults source.old) (S.source_faults source.new) }
    ensures keeps { S.source_faults source.old ≤ S.source_faults source.new }
{
    match find_head(source, bytes, read) {
        Ok(found) => match found {
            Some(end) => match read_behind(alloc, source, bytes, read, end) {
                Ok(request) => Ok(Some(request)),
                Err(error) => Err(error),
            },
            None => Ok(None),
        },
        Err(error) => Err(error),
    }
}

/// Reads the next request of a source, after the bytes that `rest` holds. `None` is the end of the input
/// between two requests. A refusal leaves the bytes of the request held, so no request follows one.
/// Nothing is read where the bytes held decide.
///
/// A source counts as ended after 2^63 bytes.
pub fn next_request<S: Source>(
    alloc: Global,
    source: &mut S,
    rest: &mut Rest,
) -> Result<Option<Request>, WireFault>
    ensures reads { Reads (S.left source.old) (S.left source.new) (S.source_talk source.old) (S.source_talk source.new) rest.old rest.new result }
    ensures whole { (request : Asked) → (used : ℕ) → IsNext rest.old.bytes (whole request used) → rest.new.read ≡ rest.old.read }
    ensures refused { (code : Code) → IsNext rest.old.bytes (refused code) → rest.new.read ≡ rest.old.read }
    ensures failed { result ≡ Err ReadFault → Rose (S.source_faults source.old) (S.source_faults source.new) }
    ensures keeps { S.source_faults source.old ≤ S.source_faults source.new }
{
    read_next(alloc, source, &mut rest.bytes, &mut rest.read)
}
