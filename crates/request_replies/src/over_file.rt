//! A session over the bytes of a metadata file.
ghost use Rattle.std.specs.Prelude.{◌≡◌, ◌≢◌, ◌≤◌, ℕ, List, Some, IfOk, OnErr};
ghost use Rattle.dh_outside.specs.Faults.{Rose};
ghost use Rattle.request_session.specs.Turn.{Sent};
ghost use Rattle.request_session.specs.declared.ended.Ended.TheVariants.{ReadFault, WriteFault};
ghost use Rattle.request_replies.specs.OverFile.{OverMetadata, SessionOver, SessionOverAll, Refuses, RefusesLong, refusal_line};
ghost use Rattle.request_replies.specs.declared.over_file.SessionEnd.TheVariants as end;

use crate::serving::serve_session;
use dh_base::memory::Memory;
use dh_metadata::metadata::Metadata;
use dh_outside::{Clock, Failed, Sink, Source, write_all};
use meta_reader::fault::{MetaFault, Which};
use meta_reader::line::fault_line;
use meta_reader::read::read;
use request_session::Ended;
use std::alloc::Global;

/// How a session over a metadata file ended.
#[derive(Clone, Copy, Drop)]
pub enum SessionEnd {
    /// The metadata are refused, and the line that tells why is written. The input isn't read.
    Refused,
    /// That line couldn't be written, and the sink's count of faults rose. The input isn't read.
    Unwritten,
    /// The session was held over the metadata, and ended so.
    Ended(Ended),
    /// Memory ran out before the session began. Nothing was read or written.
    Memory,
}

/// The line that tells why the metadata are refused, with its line feed.
#[tactic(auto, unfolding(crate::specs::OverFile::refusal_line))]
pub fn refusal_line(alloc: Global, fault: &MetaFault) -> Result<Vec<u8>, Memory>
    ensures { IfOk result (λ text. text.items ≡ refusal_line fault.now) }
{
    let said = fault_line(alloc, fault)?;
    let mut text = b"dhis: metadata: ".to_vec(alloc)?;
    text.extend_from_slice(said.as_slice())?;
    text.push(b'\n')?;
    Ok(text)
}

#[tactic(auto, using(request_session::proofs::SendLemmas::sent_by))]
fn send<O: Sink>(output: &mut O, text: &[u8]) -> Result<(), Failed>
    ensures sent { Sent result (O.written output.old) (O.written output.new) (O.sink_talk output.old) (O.sink_talk output.new) text.now }
    ensures failed { OnErr result (Rose (O.sink_faults output.old) (O.sink_faults output.new)) }
    ensures keeps { O.sink_faults output.old ≤ O.sink_faults output.new }
{
    write_all(output, text)
}

// Writes why the metadata are refused.
fn refuse<O: Sink>(alloc: Global, output: &mut O, fault: &MetaFault) -> SessionEnd
    ensures refuses { Refuses fault.now (O.written output.old) (O.written output.new) result }
    ensures unwritten { result ≡ end.Unwritten → Rose (O.sink_faults output.old) (O.sink_faults output.new) }
    ensures output { O.sink_faults output.old ≤ O.sink_faults output.new }
{
    let Ok(text) = refusal_line(alloc, fault) else {
        return SessionEnd::Memory;
    };
    match send(output, &text) {
        Ok(()) => SessionEnd::Refused,
        Err(_) => SessionEnd::Unwritten,
    }
}

// Holds a session over metadata.
fn over_metadata<S: Source, O: Sink, C: Clock>(
    alloc: Global,
    meta: Metadata,
    input: &mut S,
    output: &mut O,
    clock: &C,
) -> SessionEnd
    ensures over { OverMetadata (C.shows clock.now) meta (S.left input.old) (S.left input.new) (O.written output.old) (O.written output.new) result }
    ensures read_fault { result ≡ end.Ended ReadFault → Rose (S.source_faults input.old) (S.source_faults input.new) }
    ensures write_fault { result ≡ end.Ended WriteFault → Rose (O.sink_faults output.old) (O.sink_faults output.new) }
    ensures unwritten { result ≡ end.Unwritten → Rose (O.sink_faults output.old) (O.sink_faults output.new) }
    ensures input { S.source_faults input.old ≤ S.source_faults input.new }
    ensures output { O.sink_faults output.old ≤ O.sink_faults output.new }
{
    match serve_session(alloc, meta, input, output, clock) {
        Ok(how) => SessionEnd::Ended(how),
        Err(_) => SessionEnd::Memory,
    }
}

/// Holds a session over the metadata of a file, or writes why they are refused.
pub fn session_over<S: Source, O: Sink, C: Clock>(
    alloc: Global,
    file: &[u8],
    input: &mut S,
    output: &mut O,
    clock: &C,
) -> SessionEnd
    ensures over { SessionOver (C.shows clock.now) file.now (S.left input.old) (S.left input.new) (O.written output.old) (O.written output.new) result }
    ensures told { (bytes : List ℕ) → S.left input.old ≡ Some bytes → result ≢ end.Ended ReadFault
        → SessionOverAll (C.shows clock.now) file.now bytes (O.written output.old) (O.written output.new) result }
    ensures read_fault { result ≡ end.Ended ReadFault → Rose (S.source_faults input.old) (S.source_faults input.new) }
    ensures write_fault { result ≡ end.Ended WriteFault → Rose (O.sink_faults output.old) (O.sink_faults output.new) }
    ensures unwritten { result ≡ end.Unwritten → Rose (O.sink_faults output.old) (O.sink_faults output.new) }
    ensures input { S.source_faults input.old ≤ S.source_faults input.new }
    ensures output { O.sink_faults output.old ≤ O.sink_faults output.new }
{
    match read(alloc, file) {
        Ok(meta) => over_metadata(alloc, meta, input, output, clock),
        Err(MetaFault::Memory) => SessionEnd::Memory,
        Err(fault) => refuse(alloc, output, &fault),
    }
}

/// Writes that a metadata file of more than the most bytes is refused.
pub fn refuse_long<O: Sink>(alloc: Global, output: &mut O) -> SessionEnd
    ensures refuses { RefusesLong (O.written output.old) (O.written output.new) result }
    ensures unwritten { result ≡ end.Unwritten → Rose (O.sink_faults output.old) (O.sink_faults output.new) }
    ensures output { O.sink_faults output.old ≤ O.sink_faults output.new }
{
    refuse(
        alloc,
        output,
        &MetaFault::Limit {
            which: Which::Bytes,
        },
    )
}
