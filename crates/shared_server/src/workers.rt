//! The workers, over an engine that has its name.
ghost use denote.Param.Send.{IsSend, IsSync};
ghost use Rattle.std.specs.Prelude.{◌≡◌, ◌<◌, ◌+◌, List, [], map};
ghost use Rattle.net_doors.specs.Serving.{HasServed};
ghost use Rattle.shared_engine.specs.Entries.{Entry, caller_of};
ghost use Rattle.shared_engine.specs.Histories.{IsLegal};
ghost use Rattle.shared_engine.specs.Views.{TokenView, known_of, own};
ghost use Rattle.shared_server.specs.Links.{Answered, Answers, ServesBy, Untouched};

use crate::answer::answer_link;
use crate::pass_lender::PassLender;
use crate::setup::Setup;
use dh_outside::{Clock, Keeper};
use net_doors::{End, Listener, Served, serve_all};
use shared_engine::{Gate, Naming, Opened, Pass, Shared};
use std::marker::Brand;
use std::sync::Wait;
use std::thread::Threads;

// Serves links over a shared engine. As many passes were handed out as links were accepted, and that of each link's caller came back.
fn serve_links<
    'a,
    J: Naming + Send + Sync,
    K: Keeper + Send,
    R: Threads + Wait + Sync,
    C: Clock + Sync,
    G: Gate + Sync,
    N: End + Send,
    L: Listener<N> + Send,
>(
    setup: &Setup<'_, R, C, G>,
    shared: &Shared<J, K>,
    lender: PassLender<'a, J, K, R>,
    listener: L,
) -> Served<L, PassLender<'a, J, K, R>>
    requires some { 0 < setup.now.workers }
    requires new { (lender.count ≡ 1) × (lender.gone ≡ []) }
    ensures { (callers : List (TokenView Entry)) × (result.lender.count ≡ result.links + 1) × (result.lender.gone ≡ map known_of callers)
        × HasServed (Answers (Untouched N.source_talk N.source_faults)
        (Answered (C.shows setup.now.clock.now) N.left N.written N.source_talk N.source_faults J.made))
        (L.shows listener) (L.shows result.listener) setup.now.connections result.links result.ending callers }
{
    serve_all(
        setup.rt,
        listener,
        lender,
        &|link: N, pass: Pass<J>| -> (N, Pass<J>)
            requires { IsSync R.row × IsSync G.row × IsSend K.row
                × (own caller_of pass.caller pass.list ≡ []) × IsLegal J.made pass.list }
            ensures { Answered (C.shows setup.entry.now.clock.now) N.left N.written N.source_talk N.source_faults J.made result.1 link result.0 }
        { answer_link(setup, shared, link, pass) },
        setup.workers,
        setup.connections,
    )
}

// The same with the name of the engine, and the history from the first link on. Once no more passes are handed out, it is told what all
// callers made.
fn serve_named<
    J: Naming + Send + Sync,
    K: Keeper + Send,
    R: Threads + Wait + Sync,
    C: Clock + Sync,
    G: Gate + Sync,
    N: End + Send,
    L: Listener<N> + Send,
>(setup: &Setup<'_, R, C, G>, opened: Opened<K>, listener: L) -> Served<L, ()>
    requires name { opened ≡ J.made }
    requires some { 0 < setup.now.workers }
    ensures { ServesBy (Untouched N.source_talk N.source_faults)
        (Answered (C.shows setup.now.clock.now) N.left N.written N.source_talk N.source_faults)
        (L.shows listener) (L.shows result.listener) J.made setup.now.connections result.links result.ending }
{
    let (shared, callers) = opened.named::<J>();
    let lender = PassLender {
        shared: &shared,
        rt: setup.rt,
        callers,
    };
    let Served {
        listener,
        lender,
        links,
        ending,
    } = serve_links(setup, &shared, lender, listener);
    let PassLender {
        shared: _,
        rt: _,
        callers,
    } = lender;
    callers.close();
    Served {
        listener,
        lender: (),
        links,
        ending,
    }
}

/// Serves the links of a listener over an engine that is opened, until as many were accepted as the setup says, the listener is closed,
/// or an accept failed. Each link that was accepted is answered for a caller of its own, and given back; all that these callers know are
/// beginnings of one history, which has no other entries than theirs.
pub fn serve_opened<
    K: Keeper + Send,
    R: Threads + Wait + Sync,
    C: Clock + Sync,
    G: Gate + Sync,
    N: End + Send,
    L: Listener<N> + Send,
>(setup: &Setup<'_, R, C, G>, opened: Opened<K>, listener: L) -> Served<L, ()>
    requires { 0 < setup.now.workers }
    ensures { ServesBy (Untouched N.source_talk N.source_faults)
        (Answered (C.shows setup.now.clock.now) N.left N.written N.source_talk N.source_faults)
        (L.shows listener) (L.shows result.listener) opened setup.now.connections result.links result.ending }
{
    serve_named::<Brand, K, R, C, G, N, L>(setup, opened, listener)
}
