//! Reading the body after a head.
ghost use Rattle.std.specs.Prelude.{◌≡◌, ◌≤◌, ◌<◌, ◌+◌, ◌-◌, ◌^◌, Err, IfOk, IfErr, OnOk, OnErr, true, length, drop, take};
ghost use Rattle.dh_outside.specs.Faults.{Rose};
ghost use Rattle.dh_outside.specs.Pieces.{IsSpent};
ghost use Rattle.http_wire.specs.declared.plan.Plan.TheVariants.{Sized, Chunked};
ghost use Rattle.http_wire.specs.Chunks.{run, at_first, IsSound};
ghost use Rattle.http_wire.specs.Fed.{ComesTo};
ghost use Rattle.http_wire.specs.Reads.{Gathers, GivesChunks, ReadsBody, IsShort, IsWaiting, is_stop};
ghost use Rattle.http_wire.specs.declared.fault.WireFault.TheVariants.{ReadFault, Truncated, Memory};

use crate::chunks::{Chunks, Fed, feed, start};
use crate::fault::WireFault;
use crate::front::{drop_front, take_more};
use crate::plan::Plan;
use dh_base::items::Items;
use dh_outside::Source;
use std::alloc::{AllocError, Global};

// Reads on until so many bytes are held after a place.
fn wait_for<S: Source>(
    source: &mut S,
    bytes: &mut Vec<u8>,
    read: &mut u64,
    end: usize,
    count: u64,
) -> Result<(), WireFault>
    requires within { end ≤ length bytes.old.items }
    requires bound { read.old ≤ 2 ^ 63 }
    ensures gains { Gathers (IsShort end count) (S.left source.old) (S.left source.new) (S.source_talk source.old) (S.source_talk source.new)
        bytes.old.items bytes.new.items read.old read.new }
    ensures within { end ≤ length bytes.new.items }
    ensures enough { OnOk result (count ≤ length bytes.new.items - end) }
    ensures short { OnErr result (length bytes.new.items - end < count) }
    ensures stops { IfErr result (λ e. is_stop e ≡ true) }
    ensures over { result ≡ Err Truncated → IsSpent (S.left source.new) read.new }
    ensures bound { read.new ≤ 2 ^ 63 }
    ensures failed { result ≡ Err ReadFault → Rose (S.source_faults source.old) (S.source_faults source.new) }
    ensures keeps { S.source_faults source.old ≤ S.source_faults source.new }
{
    while ((bytes.len() - end) as u64) < count {
        if !take_more(source, bytes, read)? {
            return Err(WireFault::Truncated);
        }
    }
    Ok(())
}

// The bytes from a place on.
fn beyond(bytes: &[u8], from: usize) -> &[u8]
    requires { from ≤ length bytes.now }
    ensures { result.now ≡ drop from bytes.now }
{
    &bytes[from..]
}

fn copied(alloc: Global, bytes: &[u8], end: usize, count: usize) -> Result<Items<u8>, AllocError>
    requires { end + count ≤ length bytes.now }
    ensures { IfOk result (λ content. content ≡ take count (drop end bytes.now)) }
{
    let body = &bytes[end..end + count];
    Ok(Items::from(body.to_vec(alloc)?))
}

// Takes a body of so many bytes, which are held.
fn take_sized(
    alloc: Global,
    bytes: &mut Vec<u8>,
    end: usize,
    count: usize,
) -> Result<Items<u8>, WireFault>
    requires { end + count ≤ length bytes.old.items }
    ensures content { IfOk result (λ content. content ≡ take count (drop end bytes.old.items)) }
    ensures rest { OnOk result (bytes.new.items ≡ drop (end + count) bytes.old.items) }
    ensures same { OnErr result (bytes.new.items ≡ bytes.old.items) }
    ensures memory { IfErr result (λ e. e ≡ Memory) }
{
    let body = copied(alloc, bytes, end, count)?;
    drop_front(bytes, end + count);
    Ok(body)
}

fn read_sized<S: Source>(
    alloc: Global,
    source: &mut S,
    bytes: &mut Vec<u8>,
    read: &mut u64,
    end: usize,
    count: u64,
) -> Result<Items<u8>, WireFault>
    requires within { end ≤ length bytes.old.items }
    requires bound { read.old ≤ 2 ^ 63 }
    ensures reads { ReadsBody (S.left source.old) (S.left source.new) (S.source_talk source.old) (S.source_talk source.new)
        bytes.old.items bytes.new.items read.old read.new end (Sized count) result }
    ensures bound { read.new ≤ 2 ^ 63 }
    ensures failed { result ≡ Err ReadFault → Rose (S.source_faults source.old) (S.source_faults source.new) }
    ensures keeps { S.source_faults source.old ≤ S.source_faults source.new }
{
    wait_for(source, bytes, read, end, count)?;
    take_sized(alloc, bytes, end, count as usize)
}

// Feeds a body the bytes from a place on, and says whether it is whole.
fn feed_from(chunks: &mut Chunks, bytes: &Vec<u8>, at: usize) -> Result<bool, WireFault>
    requires sound { IsSound chunks.old.place }
    requires within { at ≤ length bytes.now.items }
    ensures comes { ComesTo (run chunks.old (drop at bytes.now.items)) chunks.new result }
    ensures sound { IsSound chunks.new.place }
{
    match feed(chunks, beyond(bytes, at))? {
        Fed::More => Ok(false),
        Fed::Whole => Ok(true),
        Fed::Refused(code) => Err(WireFault::Refused(code)),
    }
}

// Reads a body of chunks, of which nothing was read yet. Its bytes stay held.
fn read_chunks<S: Source>(
    chunks: &mut Chunks,
    source: &mut S,
    bytes: &mut Vec<u8>,
    read: &mut u64,
    end: usize,
) -> Result<(), WireFault>
    requires first { chunks.old ≡ at_first }
    requires sound { IsSound chunks.old.place }
    requires within { end ≤ length bytes.old.items }
    requires bound { read.old ≤ 2 ^ 63 }
    ensures gains { Gathers (IsWaiting end Chunked) (S.left source.old) (S.left source.new) (S.source_talk source.old) (S.source_talk source.new)
        bytes.old.items bytes.new.items read.old read.new }
    ensures within { end ≤ length bytes.new.items }
    ensures gives { GivesChunks (drop end bytes.new.items) (IsSpent (S.left source.new) read.new) chunks.new result }
    ensures bound { read.new ≤ 2 ^ 63 }
    ensures failed { result ≡ Err ReadFault → Rose (S.source_faults source.old) (S.source_faults source.new) }
    ensures keeps { S.source_faults source.old ≤ S.source_faults source.new }
{
    let mut at = end;
    loop {
        if feed_from(chunks, bytes, at)? {
            return Ok(());
        }
        at = bytes.len();
        if !take_more(source, bytes, read)? {
            return Err(WireFault::Truncated);
        }
    }
}

// Drops a head and the bytes of its body.
fn drop_body(bytes: &mut Vec<u8>, end: usize, count: u64)
    requires { end + count ≤ length bytes.old.items }
    ensures { bytes.new.items ≡ drop (end + count) bytes.old.items }
{
    drop_front(bytes, end + count as usize);
}

fn read_chunked<S: Source>(
    alloc: Global,
    source: &mut S,
    bytes: &mut Vec<u8>,
    read: &mut u64,
    end: usize,
) -> Result<Items<u8>, WireFault>
    requires within { end ≤ length bytes.old.items }
    requires bound { read.old ≤ 2 ^ 63 }
    ensures reads { ReadsBody (S.left source.old) (S.left source.new) (S.source_talk source.old) (S.source_talk source.new)
        bytes.old.items bytes.new.items read.old read.new end Chunked result }
    ensures bound { read.new ≤ 2 ^ 63 }
    ensures failed { result ≡ Err ReadFault → Rose (S.source_faults source.old) (S.source_faults source.new) }
    ensures keeps { S.source_faults source.old ≤ S.source_faults source.new }
{
    let mut chunks = start(alloc);
    read_chunks(&mut chunks, source, bytes, read, end)?;
    drop_body(bytes, end, chunks.seen);
    Ok(chunks.content)
}

/// Reads the body that is planned after a head of so many bytes, and drops both from the bytes held.
pub(crate) fn read_body<S: Source>(
    alloc: Global,
    source: &mut S,
    bytes: &mut Vec<u8>,
    read: &mut u64,
    end: usize,
    plan: Plan,
) -> Result<Items<u8>, WireFault>
    requires within { end ≤ length bytes.old.items }
    requires bound { read.old ≤ 2 ^ 63 }
    ensures reads { ReadsBody (S.left source.old) (S.left source.new) (S.source_talk source.old) (S.source_talk source.new)
        bytes.old.items bytes.new.items read.old read.new end plan result }
    ensures bound { read.new ≤ 2 ^ 63 }
    ensures failed { result ≡ Err ReadFault → Rose (S.source_faults source.old) (S.source_faults source.new) }
    ensures keeps { S.source_faults source.old ≤ S.source_faults source.new }
{
    match plan {
        Plan::Sized(count) => read_sized(alloc, source, bytes, read, end, count),
        Plan::Chunked => read_chunked(alloc, source, bytes, read, end),
    }
}
