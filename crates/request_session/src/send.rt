//! Writing replies.
ghost use Rattle.std.specs.Prelude.{◌≡◌, ◌≤◌, ◌++◌, List, ℕ, OnErr};
ghost use Rattle.dh_outside.specs.Faults.{Rose};
ghost use Rattle.request_session.specs.Replies.{memory_reply, RefusesBy, text_in};
ghost use Rattle.request_session.specs.Turn.{Sent};

use crate::heads::head;
use crate::machine::Machine;
use crate::memory_body;
use crate::peer::Peer;
use crate::reply::Reply;
use crate::texts::refused_reply;
use dh_base::codes::Code;
use dh_outside::{Failed, Sink, write_all};
use http_wire::Request;
use std::alloc::Global;

#[tactic(auto, using(crate::proofs::SendLemmas::sent_by))]
fn send<O: Sink>(output: &mut O, text: &[u8]) -> Result<(), Failed>
    ensures sent { Sent result (O.written output.old) (O.written output.new) (O.sink_talk output.old) (O.sink_talk output.new) text.now }
    ensures failed { OnErr result (Rose (O.sink_faults output.old) (O.sink_faults output.new)) }
    ensures keeps { O.sink_faults output.old ≤ O.sink_faults output.new }
{
    write_all(output, text)
}

/// Writes two texts, one after the other.
#[tactic(auto, using(crate::proofs::SendLemmas::sent_behind))]
pub(crate) fn send_both<O: Sink>(output: &mut O, first: &[u8], second: &[u8]) -> Result<(), Failed>
    ensures sent { Sent result (O.written output.old) (O.written output.new) (O.sink_talk output.old) (O.sink_talk output.new) (first.now ++ second.now) }
    ensures failed { OnErr result (Rose (O.sink_faults output.old) (O.sink_faults output.new)) }
    ensures keeps { O.sink_faults output.old ≤ O.sink_faults output.new }
{
    match send(output, first) {
        Ok(()) => send(output, second),
        Err(failed) => Err(failed),
    }
}

/// Writes the reply for a lack of memory, which takes none.
#[tactic(auto, using(crate::proofs::HeadLemmas::memory_status), unfolding(crate::specs::Replies::memory_reply, crate::specs::Replies::reply_text))]
pub(crate) fn send_memory<P: Peer>(peer: &mut P, keep: bool) -> Result<(), Failed>
    ensures sent { Sent result (P.written peer.old) (P.written peer.new) (P.talk peer.old) (P.talk peer.new) (memory_reply keep) }
    ensures left { P.left peer.new ≡ P.left peer.old }
    ensures lends { P.lends peer.new ≡ P.lends peer.old }
    ensures failed { OnErr result (Rose (P.write_faults peer.old) (P.write_faults peer.new)) }
    ensures reading { P.read_faults peer.old ≤ P.read_faults peer.new }
    ensures writing { P.write_faults peer.old ≤ P.write_faults peer.new }
{
    let body = memory_body();
    let head = head(507, body.len() as u64, None, None, keep);
    peer.send(head.bytes(), body)
}

// Writes a reply: its head, and then its body.
fn send_reply<P: Peer>(peer: &mut P, reply: &Reply) -> Result<(), Failed>
    ensures sent { Sent result (P.written peer.old) (P.written peer.new) (P.talk peer.old) (P.talk peer.new) (text_in reply.now) }
    ensures left { P.left peer.new ≡ P.left peer.old }
    ensures lends { P.lends peer.new ≡ P.lends peer.old }
    ensures failed { OnErr result (Rose (P.write_faults peer.old) (P.write_faults peer.new)) }
    ensures reading { P.read_faults peer.old ≤ P.read_faults peer.new }
    ensures writing { P.write_faults peer.old ≤ P.write_faults peer.new }
{
    peer.send(reply.head.bytes(), reply.body.as_slice())
}

/// Writes the machine's reply to a request.
pub(crate) fn answer<M: Machine, P: Peer>(
    alloc: Global,
    machine: &mut M,
    peer: &mut P,
    request: &Request,
    keep: bool,
) -> Result<(), Failed>
    ensures answered { (text : List ℕ) × M.step machine.old request.now keep text machine.new × Sent result (P.written peer.old) (P.written peer.new)
        (P.talk peer.old) (P.talk peer.new) text }
    ensures left { P.left peer.new ≡ P.left peer.old }
    ensures lends { P.lends peer.new ≡ P.lends peer.old }
    ensures failed { OnErr result (Rose (P.write_faults peer.old) (P.write_faults peer.new)) }
    ensures reading { P.read_faults peer.old ≤ P.read_faults peer.new }
    ensures writing { P.write_faults peer.old ≤ P.write_faults peer.new }
{
    match machine.reply(alloc, request, keep) {
        Ok(reply) => send_reply(peer, &reply),
        Err(_) => send_memory(peer, keep),
    }
}

/// Writes the reply that refuses what isn't a request.
pub(crate) fn refuse<P: Peer>(alloc: Global, peer: &mut P, code: Code) -> Result<(), Failed>
    ensures refused { (text : List ℕ) × RefusesBy code text × Sent result (P.written peer.old) (P.written peer.new) (P.talk peer.old) (P.talk peer.new) text }
    ensures left { P.left peer.new ≡ P.left peer.old }
    ensures lends { P.lends peer.new ≡ P.lends peer.old }
    ensures failed { OnErr result (Rose (P.write_faults peer.old) (P.write_faults peer.new)) }
    ensures reading { P.read_faults peer.old ≤ P.read_faults peer.new }
    ensures writing { P.write_faults peer.old ≤ P.write_faults peer.new }
{
    match refused_reply(alloc, code) {
        Ok(refusal) => send_reply(peer, &refusal),
        Err(_) => send_memory(peer, false),
    }
}
