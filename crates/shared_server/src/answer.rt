//! The answers to one link.
ghost use Rattle.std.specs.Prelude.{◌≡◌, []};
ghost use Rattle.shared_engine.specs.Entries.{caller_of};
ghost use Rattle.shared_engine.specs.Histories.{IsLegal};
ghost use Rattle.shared_engine.specs.Views.{own};
ghost use Rattle.shared_server.specs.Links.{Answered};

use crate::serving::serve_connection;
use crate::setup::Setup;
use crate::system::System;
use dh_outside::{Clock, Keeper};
use net_doors::End;
use shared_engine::{Gate, Naming, Pass, Shared};
use std::sync::Wait;
use std::thread::Threads;

/// Answers the requests of a link, for a new caller of the shared engine, whose pass is left.
pub(crate) fn answer_link<
    J: Naming,
    K: Keeper + Send,
    R: Threads + Wait + Sync,
    C: Clock,
    G: Gate + Sync,
    N: End,
>(setup: &Setup<'_, R, C, G>, shared: &Shared<J, K>, link: N, pass: Pass<J>) -> (N, Pass<J>)
    requires alone { own caller_of pass.caller pass.list ≡ [] }
    requires legal { IsLegal J.made pass.list }
    ensures { Answered (C.shows setup.now.clock.now) N.left N.written N.source_talk N.source_faults J.made result.1 link result.0 }
{
    let mut link = link;
    let mut pass = pass;
    let system = System {
        shared,
        rt: setup.rt,
        alloc: setup.alloc,
        workers: setup.workers,
        gate: setup.gate,
    };
    serve_connection(system, &mut pass, setup.clock, &mut link);
    (link, pass)
}
