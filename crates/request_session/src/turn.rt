//! One turn of the loop: a request and its reply.
ghost use Rattle.std.specs.Prelude.{◌≡◌, ◌≢◌, ◌≤◌};
ghost use Rattle.dh_outside.specs.Faults.{Rose};
ghost use Rattle.request_session.specs.Turn.{Turns, Responds, Speaks, Stops};
ghost use Rattle.request_session.specs.declared.ended.Ended.TheVariants.{ReadFault, WriteFault};
ghost use Rattle.request_session.specs.declared.ended.Turn.TheVariants.{Stopped};
ghost use Rattle.http_wire.specs.declared.fault.WireFault.TheVariants as wire;

use crate::ended::{Ended, Turn};
use crate::machine::Machine;
use crate::peer::Peer;
use crate::send::{answer, refuse};
use http_wire::{Request, Rest, WireFault};
use std::alloc::Global;

// Answers a request. `more` says whether another one is allowed after it.
fn respond<M: Machine, P: Peer>(
    alloc: Global,
    machine: &mut M,
    peer: &mut P,
    request: &Request,
    more: bool,
) -> Turn
    ensures responds { Responds M.step more (P.written peer.old) (P.written peer.new) (P.talk peer.old) (P.talk peer.new)
        machine.old machine.new request.now result }
    ensures speaks { Speaks (P.talk peer.old) (P.talk peer.new) }
    ensures left { P.left peer.new ≡ P.left peer.old }
    ensures lends { P.lends peer.new ≡ P.lends peer.old }
    ensures write_fault { result ≡ Stopped WriteFault → Rose (P.write_faults peer.old) (P.write_faults peer.new) }
    ensures no_read { result ≢ Stopped ReadFault }
    ensures reading { P.read_faults peer.old ≤ P.read_faults peer.new }
    ensures writing { P.write_faults peer.old ≤ P.write_faults peer.new }
{
    match answer(alloc, machine, peer, request, request.keep && more) {
        Ok(()) => Turn::Answered(request.keep),
        Err(_) => Turn::Stopped(Ended::WriteFault),
    }
}

// Ends the session where there is no request.
fn stop<P: Peer>(alloc: Global, peer: &mut P, fault: WireFault) -> Ended
    ensures stops { Stops (P.written peer.old) (P.written peer.new) fault result }
    ensures speaks { Speaks (P.talk peer.old) (P.talk peer.new) }
    ensures left { P.left peer.new ≡ P.left peer.old }
    ensures lends { P.lends peer.new ≡ P.lends peer.old }
    ensures write_fault { result ≡ WriteFault → Rose (P.write_faults peer.old) (P.write_faults peer.new) }
    ensures read_fault { result ≡ ReadFault → fault ≡ wire.ReadFault }
    ensures reading { P.read_faults peer.old ≤ P.read_faults peer.new }
    ensures writing { P.write_faults peer.old ≤ P.write_faults peer.new }
{
    match fault {
        WireFault::Refused(code) => match refuse(alloc, peer, code) {
            Ok(()) => Ended::Refused(code),
            Err(_) => Ended::WriteFault,
        },
        WireFault::Truncated => Ended::Truncated,
        WireFault::ReadFault => Ended::ReadFault,
        WireFault::Memory => Ended::Memory,
    }
}

/// Reads the next request and answers it, or ends the session. `more` says whether another request is allowed
/// after it.
pub(crate) fn turn<M: Machine, P: Peer>(
    alloc: Global,
    machine: &mut M,
    peer: &mut P,
    rest: &mut Rest,
    more: bool,
) -> Turn
    ensures turns { Turns M.step more (P.left peer.old) (P.left peer.new) (P.talk peer.old) (P.talk peer.new)
        rest.old rest.new (P.written peer.old) (P.written peer.new) machine.old machine.new result }
    ensures lends { P.lends peer.new ≡ P.lends peer.old }
    ensures read_fault { result ≡ Stopped ReadFault → Rose (P.read_faults peer.old) (P.read_faults peer.new) }
    ensures write_fault { result ≡ Stopped WriteFault → Rose (P.write_faults peer.old) (P.write_faults peer.new) }
    ensures reading { P.read_faults peer.old ≤ P.read_faults peer.new }
    ensures writing { P.write_faults peer.old ≤ P.write_faults peer.new }
{
    match peer.next(alloc, rest) {
        Ok(found) => match found {
            Some(request) => respond(alloc, machine, peer, &request, more),
            None => Turn::Stopped(Ended::Closed),
        },
        Err(fault) => Turn::Stopped(stop(alloc, peer, fault)),
    }
}
