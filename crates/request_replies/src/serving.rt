//! A session over metadata.
ghost use Rattle.std.specs.Prelude.{◌≡◌, ◌≢◌, ◌≤◌, ℕ, List, Some, IfOk, OnErr};
ghost use Rattle.dh_outside.specs.Faults.{Rose};
ghost use Rattle.request_session.specs.declared.ended.Ended.TheVariants.{ReadFault, WriteFault};
ghost use Rattle.request_replies.specs.Serving.{Served, ServedOver};

use crate::replier::Replier;
use dh_base::memory::Memory;
use dh_metadata::metadata::Metadata;
use dh_outside::{Clock, Sink, Source};
use engine::engine_in_memory;
use request_session::{Ended, serve_requests};
use std::alloc::Global;
use std::mem::forget;

// The most requests that a session answers.
const MOST_REQUESTS: u64 = 1_000_000;

/// Answers the requests of `input` over metadata, from an empty log, and writes the replies to `output`. Each request
/// takes one moment of the clock. A session is the last work of its program: the memory that it holds isn't given back.
pub fn serve_session<S: Source, O: Sink, C: Clock>(
    alloc: Global,
    meta: Metadata,
    input: &mut S,
    output: &mut O,
    clock: &C,
) -> Result<Ended, Memory>
    ensures ran { IfOk result (Served (C.shows clock.now) (S.left input.old) (S.left input.new) (O.written output.old) (O.written output.new) meta) }
    ensures told { IfOk result (λ how. (bytes : List ℕ) → S.left input.old ≡ Some bytes → how ≢ ReadFault
        → ServedOver (C.shows clock.now) bytes (O.written output.old) (O.written output.new) meta how) }
    ensures read_fault { IfOk result (λ how. how ≡ ReadFault → Rose (S.source_faults input.old) (S.source_faults input.new)) }
    ensures write_fault { IfOk result (λ how. how ≡ WriteFault → Rose (O.sink_faults output.old) (O.sink_faults output.new)) }
    ensures unread { OnErr result (S.left input.new ≡ S.left input.old) }
    ensures unwritten { OnErr result (O.written output.new ≡ O.written output.old) }
    ensures input { S.source_faults input.old ≤ S.source_faults input.new }
    ensures output { O.sink_faults output.old ≤ O.sink_faults output.new }
{
    let engine = engine_in_memory(alloc, meta)?;
    let mut machine = Replier::of(engine, clock);
    let ended = serve_requests(alloc, &mut machine, input, output, MOST_REQUESTS);
    // To give a large file's metadata back piece by piece takes longer than a query: the program ends, and the system takes all.
    forget(machine);
    Ok(ended)
}
