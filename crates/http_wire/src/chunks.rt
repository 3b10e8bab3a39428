//! A body in chunks (RFC 9112, section 7.1), which goes on with each piece of the input.
ghost use Rattle.std.specs.Prelude.{◌≡◌, ◌≤◌, ◌<◌, ◌+◌, ◌++◌, IfOk, OnOk, length, drop, cond, nat_eq, nat_lt, false};
ghost use Rattle.http_wire.specs.Chunks.{frame_limit, step, sized, expect, is_content, advanced, run, at_first, IsSound, GoesSound};
ghost use Rattle.http_wire.specs.Fed.{FedTo, Comes};
ghost use Rattle.http_wire.specs.declared.chunks.Place.TheVariants as at;
ghost use Rattle.http_wire.specs.declared.chunks.Step.TheVariants.{Goes, Ends, Fails};
ghost use Rattle.dh_base.specs.declared.codes.Code.TheVariants.{F4};

use crate::size::{SizePlace, SizeStep, size_step};
use dh_base::codes::Code;
use dh_base::items::Items;
use std::alloc::{AllocError, Global};

// How many bytes the content may have, and how many all of the body with its framing.
const CONTENT_LIMIT: u64 = 16_777_216;

const FRAME_LIMIT: u64 = 33_554_432;

/// A place in a body of chunks.
#[derive(Clone, Copy, Drop)]
pub enum Place {
    /// In the line before a chunk.
    Size(SizePlace),
    /// Before so many bytes of a chunk; before the carriage return after it, where there are none left.
    Content(u64),
    /// Before the line feed after a chunk.
    Feed,
    /// Before a line of the trailer.
    Start,
    /// In a line of the trailer.
    Trailer,
    /// Before the line feed of such a line.
    TrailerEnd,
    /// Before the line feed of the last line, which is empty.
    LastEnd,
}

/// What one more byte comes to.
#[derive(Clone, Copy, Drop)]
pub enum Step {
    /// The body goes on.
    Goes(Place),
    /// The body is whole.
    Ends,
    /// The body is refused.
    Fails(Code),
}

/// A body of chunks that is being read.
#[derive(Drop)]
pub struct Chunks {
    pub place: Place,
    /// The content so far.
    pub content: Items<u8>,
    /// How many bytes of the body were read, with its framing.
    pub seen: u64,
}

/// What bytes came to.
#[derive(Clone, Copy, Drop)]
pub enum Fed {
    /// The body goes on.
    More,
    /// The body is whole. Bytes may be left after it.
    Whole,
    /// The body is refused.
    Refused(Code),
}

/// A body before its first byte.
pub fn start(alloc: Global) -> Chunks
    ensures value { result ≡ at_first }
    ensures sound { IsSound result.place }
{
    Chunks {
        place: Place::Size(SizePlace::Digits(0, 0)),
        content: Items::new(alloc),
        seen: 0,
    }
}

fn sized(size: u64, held: u64) -> Step
    ensures value { result ≡ sized size held }
    ensures sound { GoesSound result }
{
    if size == 0 {
        Step::Goes(Place::Start)
    } else if held.saturating_add(size) > CONTENT_LIMIT {
        Step::Fails(Code::F3)
    } else {
        Step::Goes(Place::Content(size))
    }
}

fn line_step(place: SizePlace, held: u64, byte: u8) -> Step
    requires { IsSound (at.Size place) }
    ensures value { result ≡ step (at.Size place) held byte }
    ensures sound { GoesSound result }
{
    match size_step(place, byte) {
        SizeStep::Goes(next) => Step::Goes(Place::Size(next)),
        SizeStep::Gives(size) => sized(size, held),
        SizeStep::Fails => Step::Fails(Code::F4),
    }
}

// The one byte that may stand at a place, and the next place.
fn expect(wanted: u8, next: Place, byte: u8) -> Step
    requires { IsSound next }
    ensures value { result ≡ expect wanted (Goes next) byte }
    ensures sound { GoesSound result }
{
    if byte == wanted {
        Step::Goes(next)
    } else {
        Step::Fails(Code::F4)
    }
}

fn trailer_step(end: Place, byte: u8) -> Step
    requires { IsSound end }
    ensures value { result ≡ cond (nat_eq byte 13) (Goes end) (cond (nat_eq byte 10) (Fails F4) (Goes at.Trailer)) }
    ensures sound { GoesSound result }
{
    if byte == b'\r' {
        Step::Goes(end)
    } else if byte == b'\n' {
        Step::Fails(Code::F4)
    } else {
        Step::Goes(Place::Trailer)
    }
}

// One more byte at a place, where so many bytes of content stand before it.
fn step_from(place: Place, held: u64, byte: u8) -> Step
    requires { IsSound place }
    ensures value { result ≡ step place held byte }
    ensures sound { GoesSound result }
{
    match place {
        Place::Size(line) => line_step(line, held, byte),
        Place::Content(0) => expect(b'\r', Place::Feed, byte),
        Place::Content(left) => Step::Goes(Place::Content(left - 1)),
        Place::Feed => expect(b'\n', Place::Size(SizePlace::Digits(0, 0)), byte),
        Place::Start => trailer_step(Place::LastEnd, byte),
        Place::Trailer => trailer_step(Place::TrailerEnd, byte),
        Place::TrailerEnd => expect(b'\n', Place::Start, byte),
        Place::LastEnd => {
            if byte == b'\n' {
                Step::Ends
            } else {
                Step::Fails(Code::F4)
            }
        }
    }
}

// How many bytes are left of the chunk in whose content the place is.
fn content_left(place: Place) -> u64
    ensures content { is_content place ≡ nat_lt 0 result }
    ensures left { 0 < result → place ≡ at.Content result }
{
    match place {
        Place::Content(left) => left,
        Place::Size(_) => 0,
        Place::Feed => 0,
        Place::Start => 0,
        Place::Trailer => 0,
        Place::TrailerEnd => 0,
        Place::LastEnd => 0,
    }
}

fn extend(content: &mut Items<u8>, bytes: &[u8]) -> Result<(), AllocError>
    ensures { OnOk result (content.new ≡ content.old ++ bytes.now) }
{
    content.items.extend_from_slice(bytes)
}

// Takes the content of a chunk from the front of the bytes, as much as is there, and says how much.
#[tactic(auto)]
fn take_content(chunks: &mut Chunks, left: u64, bytes: &[u8]) -> Result<usize, AllocError>
    requires place { chunks.old.place ≡ at.Content left }
    requires left { 0 < left }
    requires room { chunks.old.seen < frame_limit }
    requires some { 0 < length bytes.now }
    ensures runs { IfOk result (λ n. run chunks.old bytes.now ≡ run chunks.new (drop n bytes.now)) }
    ensures some { IfOk result (λ n. 0 < n) }
    ensures within { IfOk result (λ n. n ≤ length bytes.now) }
    ensures sound { IsSound chunks.new.place }
{
    let room = left.min(FRAME_LIMIT - chunks.seen);
    let count = bytes.len().min(room as usize);
    extend(&mut chunks.content, &bytes[..count])?;
    chunks.place = Place::Content(left - count as u64);
    chunks.seen += count as u64;
    Ok(count)
}

// Takes one byte that isn't content, or finds that there is no room for one more.
fn take_byte(chunks: &mut Chunks, byte: u8) -> Fed
    requires sound { IsSound chunks.old.place }
    requires framing { chunks.old.seen < frame_limit → is_content chunks.old.place ≡ false }
    ensures comes { FedTo (advanced chunks.old byte) chunks.new result }
    ensures sound { IsSound chunks.new.place }
{
    if chunks.seen >= FRAME_LIMIT {
        return Fed::Refused(Code::F3);
    }
    match step_from(chunks.place, chunks.content.len() as u64, byte) {
        Step::Goes(place) => {
            chunks.place = place;
            chunks.seen += 1;
            Fed::More
        }
        Step::Ends => {
            chunks.seen += 1;
            Fed::Whole
        }
        Step::Fails(code) => Fed::Refused(code),
    }
}

// The bytes from a place on.
fn rest(bytes: &[u8], from: usize) -> &[u8]
    requires { from ≤ length bytes.now }
    ensures value { result.now ≡ drop from bytes.now }
    ensures len { from + length result.now ≡ length bytes.now }
{
    &bytes[from..]
}

/// Reads on in a body. Where no memory was found, the body is to be read anew.
pub fn feed(chunks: &mut Chunks, bytes: &[u8]) -> Result<Fed, AllocError>
    requires { IsSound chunks.old.place }
    ensures comes { Comes (run chunks.old bytes.now) chunks.new result }
    ensures sound { IsSound chunks.new.place }
{
    let mut from = 0;
    while from < bytes.len() {
        let left = content_left(chunks.place);
        if left > 0 && chunks.seen < FRAME_LIMIT {
            from += take_content(chunks, left, rest(bytes, from))?;
        } else {
            match take_byte(chunks, bytes[from]) {
                Fed::More => from += 1,
                Fed::Whole => return Ok(Fed::Whole),
                Fed::Refused(code) => return Ok(Fed::Refused(code)),
            }
        }
    }
    Ok(Fed::More)
}
