//! The connection of one caller.
ghost use denote.Param.Send.{IsSync};
ghost use Rattle.std.specs.Prelude.{◌≡◌, ◌≤◌, ℕ, Result};
ghost use Rattle.dh_base.specs.declared.plain.CutKind.{CutKind as Kind};
ghost use Rattle.dh_outside.specs.Faults.{Rose};
ghost use Rattle.request_session.specs.Prompt.{Prompt};
ghost use Rattle.request_session.specs.Session.{Served};
ghost use Rattle.request_session.specs.declared.ended.Ended.TheVariants.{ReadFault, WriteFault};
ghost use Rattle.engine.specs.declared.machine.CutFault.{CutFault as Fault};
ghost use Rattle.shared_server.specs.Replies.{UpdateCall};
ghost use Rattle.shared_server.specs.Serving.{most_requests};
ghost use Rattle.shared_server.specs.Steps.{SharedReply};

use crate::replier::SharedReplier;
use crate::system::System;
use crate::updating::{ByCall, Updates, Updating};
use dh_base::plain::CutKind;
use dh_outside::{Clock, Keeper, Link};
use engine::CutFault;
use request_session::{Ended, serve_link};
use shared_engine::{Gate, Naming, Pass};
use std::sync::Wait;
use std::thread::Threads;

// The most requests that a connection answers.
const MOST_REQUESTS: u64 = 1_000_000;

// Answers the requests of a link by a machine that has its caller's pass on loan.
fn serve_by<J: Naming, K: Keeper, C: Clock, R: Wait, G, U: Updates<Pass<J>> + Drop, N: Link>(
    machine: &mut SharedReplier<'_, '_, '_, J, K, C, R, G, U>,
    link: &mut N,
) -> Ended
    ensures served { Served (SharedReply J.made (C.shows machine.old.clock.now)) most_requests (N.left link.old) (N.left link.new) (N.written link.old)
        (N.written link.new) machine.old.pass.now machine.new.pass.now result }
    ensures prompt { Prompt (SharedReply J.made (C.shows machine.old.clock.now)) most_requests (N.source_talk link.old) (N.source_talk link.new)
        machine.old.pass.now }
    ensures lends { machine.new.pass.ghost_name ≡ machine.old.pass.ghost_name }
    ensures read_fault { result ≡ ReadFault → Rose (N.source_faults link.old) (N.source_faults link.new) }
    ensures write_fault { result ≡ WriteFault → Rose (N.sink_faults link.old) (N.sink_faults link.new) }
    ensures keeps { N.source_faults link.old ≤ N.source_faults link.new }
{
    serve_link(machine.system.alloc, machine, link, MOST_REQUESTS)
}

// Answers the requests of a link for the caller of a pass, by what makes updates.
fn serve_in<'a, J: Naming, K: Keeper, C: Clock, R: Wait, G, U: Updates<Pass<J>> + Drop, N: Link>(
    system: System<'a, J, K, R, G>,
    updates: U,
    pass: &mut Pass<J>,
    clock: &'a C,
    link: &mut N,
) -> Ended
    requires may { (kind : Kind) → U.may updates kind }
    requires says { (kind : Kind) (old : _) (answer : Result ℕ Fault) (new : _)
        → U.says updates old kind answer new → UpdateCall J.made old kind answer new }
    ensures served { Served (SharedReply J.made (C.shows clock.now)) most_requests (N.left link.old) (N.left link.new) (N.written link.old)
        (N.written link.new) pass.old pass.new result }
    ensures prompt { Prompt (SharedReply J.made (C.shows clock.now)) most_requests (N.source_talk link.old) (N.source_talk link.new) pass.old }
    ensures read_fault { result ≡ ReadFault → Rose (N.source_faults link.old) (N.source_faults link.new) }
    ensures write_fault { result ≡ WriteFault → Rose (N.sink_faults link.old) (N.sink_faults link.new) }
    ensures keeps { N.source_faults link.old ≤ N.source_faults link.new }
{
    let updating = Updating::by(updates);
    let mut machine = SharedReplier {
        system,
        updating: &updating,
        pass,
        clock,
    };
    serve_by(&mut machine, link)
}

/// Answers the requests of a link one after another, each before it reads on, for the caller of a pass. Each request takes one moment
/// of the clock. At most 1,000,000 requests are answered. The parts of an update are built by the system's workers, outside the lock.
pub fn serve_connection<
    J: Naming,
    K: Keeper,
    C: Clock,
    R: Threads + Wait + Sync,
    G: Gate + Sync,
    N: Link,
>(system: System<'_, J, K, R, G>, pass: &mut Pass<J>, clock: &C, link: &mut N) -> Ended
    ensures served { Served (SharedReply J.made (C.shows clock.now)) most_requests (N.left link.old) (N.left link.new) (N.written link.old)
        (N.written link.new) pass.old pass.new result }
    ensures prompt { Prompt (SharedReply J.made (C.shows clock.now)) most_requests (N.source_talk link.old) (N.source_talk link.new) pass.old }
    ensures read_fault { result ≡ ReadFault → Rose (N.source_faults link.old) (N.source_faults link.new) }
    ensures write_fault { result ≡ WriteFault → Rose (N.sink_faults link.old) (N.sink_faults link.new) }
    ensures keeps { N.source_faults link.old ≤ N.source_faults link.new }
{
    let shared = system.shared;
    let rt = system.rt;
    let alloc = system.alloc;
    let workers = system.workers;
    let gate = system.gate;
    let run = |pass: &mut Pass<J>, kind: CutKind| -> Result<u64, CutFault>
        requires { IsSync R.row × IsSync G.row }
        ensures { UpdateCall J.made pass.old kind result pass.new }
    { shared.update(rt, alloc, pass, kind, workers, gate) };
    serve_in(system, ByCall { run }, pass, clock, link)
}
