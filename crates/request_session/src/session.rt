//! The loop over requests.
ghost use Rattle.std.specs.Prelude.{◌≡◌, ◌≢◌, ◌≤◌, ◌<◌, ◌⊎◌, List, ℕ, Some};
ghost use Rattle.dh_outside.specs.Faults.{Rose};
ghost use Rattle.request_session.specs.Prompt.{Prompt};
ghost use Rattle.request_session.specs.Session.{Ran, RanOver, Served, ClosesBy};
ghost use Rattle.request_session.specs.Turn.{Speaks};
ghost use Rattle.request_session.specs.declared.ended.Ended.TheVariants.{ReadFault, WriteFault};

use crate::ended::{Ended, Turn};
use crate::machine::Machine;
use crate::peer::{Apart, Joint, Peer};
use crate::send::send_memory;
use crate::turn::turn;
use dh_outside::{Link, Sink, Source};
use http_wire::Rest;
use std::alloc::Global;

// Answers requests, at most as many as are allowed.
fn run<M: Machine, P: Peer>(alloc: Global, machine: &mut M, peer: &mut P, most: u64) -> Ended
    ensures ran { Ran M.step most (P.left peer.old) (P.left peer.new) (P.written peer.old) (P.written peer.new) machine.old machine.new result }
    ensures prompt { Prompt M.step most (P.talk peer.old) (P.talk peer.new) machine.old }
    ensures lends { P.lends peer.new ≡ P.lends peer.old }
    ensures read_fault { result ≡ ReadFault → Rose (P.read_faults peer.old) (P.read_faults peer.new) }
    ensures write_fault { result ≡ WriteFault → Rose (P.write_faults peer.old) (P.write_faults peer.new) }
    ensures reading { P.read_faults peer.old ≤ P.read_faults peer.new }
    ensures writing { P.write_faults peer.old ≤ P.write_faults peer.new }
{
    if most == 0 {
        return Ended::Limit;
    }
    let mut rest = Rest::new(alloc);
    let mut served = 0;
    loop {
        match turn(alloc, machine, peer, &mut rest, served + 1 < most) {
            Turn::Answered(keep) => {
                served += 1;
                if served == most {
                    return Ended::Limit;
                }
                if !keep {
                    return Ended::Closed;
                }
            }
            Turn::Stopped(ended) => return ended,
        }
    }
}

// The last word of a connection: out of memory it is the reply for that, which takes none.
fn last_word<P: Peer>(peer: &mut P, ended: Ended) -> Ended
    ensures closes { ClosesBy ended result (P.written peer.old) (P.written peer.new) }
    ensures speaks { Speaks (P.talk peer.old) (P.talk peer.new) }
    ensures left { P.left peer.new ≡ P.left peer.old }
    ensures lends { P.lends peer.new ≡ P.lends peer.old }
    ensures read_fault { result ≡ ReadFault → ended ≡ ReadFault }
    ensures write_fault { result ≡ WriteFault → (ended ≡ WriteFault) ⊎ Rose (P.write_faults peer.old) (P.write_faults peer.new) }
    ensures reading { P.read_faults peer.old ≤ P.read_faults peer.new }
    ensures writing { P.write_faults peer.old ≤ P.write_faults peer.new }
{
    if ended != Ended::Memory {
        return ended;
    }
    match send_memory(peer, false) {
        Ok(()) => Ended::Memory,
        Err(_) => Ended::WriteFault,
    }
}

/// Answers the requests of a link one after another, `most` of them at most, and writes the replies to it. Whenever
/// it reads, the replies to all requests that were whole before are written, if the link tells the order. If memory runs out while a
/// request is read, the reply for that stands last, and says that the connection is closed.
pub fn serve_link<M: Machine, N: Link>(
    alloc: Global,
    machine: &mut M,
    link: &mut N,
    most: u64,
) -> Ended
    ensures served { Served M.step most (N.left link.old) (N.left link.new) (N.written link.old) (N.written link.new) machine.old machine.new result }
    ensures prompt { Prompt M.step most (N.source_talk link.old) (N.source_talk link.new) machine.old }
    ensures read_fault { result ≡ ReadFault → Rose (N.source_faults link.old) (N.source_faults link.new) }
    ensures write_fault { result ≡ WriteFault → Rose (N.sink_faults link.old) (N.sink_faults link.new) }
    ensures keeps { N.source_faults link.old ≤ N.source_faults link.new }
{
    let mut peer = Joint { link };
    let ended = run(alloc, machine, &mut peer, most);
    last_word(&mut peer, ended)
}

/// Answers the requests of `input` one after another, `most` of them at most, and writes the replies to `output`.
/// The last reply that is allowed says that the connection is closed.
pub fn serve_requests<M: Machine, S: Source, O: Sink>(
    alloc: Global,
    machine: &mut M,
    input: &mut S,
    output: &mut O,
    most: u64,
) -> Ended
    ensures ran { Ran M.step most (S.left input.old) (S.left input.new) (O.written output.old) (O.written output.new) machine.old machine.new result }
    ensures told { (bytes : List ℕ) → S.left input.old ≡ Some bytes → result ≢ ReadFault → RanOver M.step most bytes
        (O.written output.old) (O.written output.new) machine.old machine.new result }
    ensures read_fault { result ≡ ReadFault → Rose (S.source_faults input.old) (S.source_faults input.new) }
    ensures write_fault { result ≡ WriteFault → Rose (O.sink_faults output.old) (O.sink_faults output.new) }
    ensures input { S.source_faults input.old ≤ S.source_faults input.new }
    ensures output { O.sink_faults output.old ≤ O.sink_faults output.new }
{
    let mut peer = Apart { input, output };
    run(alloc, machine, &mut peer, most)
}
