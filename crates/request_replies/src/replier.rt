//! What answers requests.
ghost use Rattle.std.specs.Prelude.{◌≡◌};
ghost use Rattle.change_log.specs.Log.{NeverFails};
ghost use Rattle.engine.specs.Seen.{IsSound};
ghost use Rattle.engine.specs.MetaAfter.{published_meta};
ghost use Rattle.web_routes.specs.Calls.{IsSound as IsSoundCall};
ghost use Rattle.web_routes.specs.Given.{cause_of};
ghost use Rattle.request_replies.specs.Texts.{told, Refuses};
ghost use Rattle.request_replies.specs.Steps.{ReplyAt, CallReply};

use crate::change::reply_to_change;
use crate::check::reply_to_check;
use crate::query::reply_to_query;
use crate::texts::refusal_reply;
use crate::update::reply_to_update;
use dh_base::memory::Memory;
use dh_outside::{Clock, Keeper};
use dh_periods::day_of;
use engine::{ChangeRequest, Engine};
use http_wire::Request;
use request_session::{Machine, Reply};
use std::alloc::Global;
use web_routes::RouteFault;
use web_routes::call::Call;
use web_routes::routing::route;

// The reply to a call at a moment.
fn reply_to_call<K: Keeper>(
    alloc: Global,
    engine: &mut Engine<K>,
    moment: i64,
    call: Call,
    keep: bool,
) -> Result<Reply, Memory>
    requires sound { IsSoundCall (published_meta engine.old) call }
    ensures replies { CallReply engine.old moment call keep (told result) engine.new }
    ensures sound { IsSound engine.old → IsSound engine.new }
    ensures sure { NeverFails K.keeper_faults → engine.old.faults ≡ 0 → engine.new.faults ≡ 0 }
{
    match call {
        Call::Query { user, asked, query } => {
            let reply = reply_to_query(alloc, engine, user, asked, &query, keep);
            drop(query);
            reply
        }
        Call::Check {
            user,
            asked,
            checked,
        } => reply_to_check(alloc, engine, user, asked, &checked, keep),
        Call::Update { kind } => reply_to_update(alloc, engine, kind, keep),
        Call::Values { user, set } => reply_to_change(
            alloc,
            engine,
            user,
            moment,
            ChangeRequest::Values(set),
            keep,
        ),
        Call::Completion { user, list } => reply_to_change(
            alloc,
            engine,
            user,
            moment,
            ChangeRequest::Completion(list),
            keep,
        ),
        Call::Approval { user, act } => reply_to_change(
            alloc,
            engine,
            user,
            moment,
            ChangeRequest::Approval(act),
            keep,
        ),
        Call::Tracker { user, bundle } => reply_to_change(
            alloc,
            engine,
            user,
            moment,
            ChangeRequest::Tracker(bundle),
            keep,
        ),
    }
}

/// The reply to a request that is no call.
pub fn refuse(alloc: Global, keep: bool, fault: &RouteFault) -> Result<Reply, Memory>
    ensures { Refuses keep (cause_of fault.now) (told result) }
{
    match fault {
        RouteFault::Refused(refused) => refusal_reply(alloc, None, keep, refused),
        RouteFault::Memory => Err(Memory),
    }
}

// The reply to a request at a moment.
#[tactic(auto, using(crate::proofs::ReplyLemmas::replies))]
fn reply_at<K: Keeper>(
    alloc: Global,
    engine: &mut Engine<K>,
    moment: i64,
    request: &Request,
    keep: bool,
) -> Result<Reply, Memory>
    ensures replies { ReplyAt engine.old moment request.now keep (told result) engine.new }
    ensures sound { IsSound engine.old → IsSound engine.new }
    ensures sure { NeverFails K.keeper_faults → engine.old.faults ≡ 0 → engine.new.faults ≡ 0 }
{
    match route(alloc, request, engine.published_meta(), day_of(moment)) {
        Ok(call) => reply_to_call(alloc, engine, moment, call, keep),
        Err(fault) => refuse(alloc, keep, &fault),
    }
}

/// An engine that answers requests by a clock that is lent to it.
#[derive(Drop)]
pub struct Replier<'a, K: Keeper, C: Clock> {
    pub engine: Engine<K>,
    pub clock: &'a C,
}

impl<'a, K: Keeper, C: Clock> Replier<'a, K, C> {
    /// The engine and the clock by which it answers.
    pub fn of(engine: Engine<K>, clock: &'a C) -> Replier<'a, K, C>
        ensures engine { result.engine ≡ engine }
        ensures clock { result.clock.now ≡ clock.now }
    {
        Replier { engine, clock }
    }
}

impl<'a, K: Keeper, C: Clock> Machine for Replier<'a, K, C> {
    ghost use Rattle.std.specs.Prelude.{IfOk, OnErr};
    ghost use Rattle.request_session.specs.Replies.{text_in, memory_reply};
    ghost use Rattle.request_replies.specs.Steps.{MachineStep};
    ghost use Rattle.request_replies.specs.Unseen.{UnseenReply};

    ghost step = { λ old request keep text new. MachineStep K.keeper_faults C.shows old.clock.now new.clock.now old.engine request keep text new.engine };

    fn reply(&mut self, alloc: Global, request: &Request, keep: bool) -> Result<Reply, Memory>
        ensures replies { IfOk result (λ reply. MachineStep K.keeper_faults C.shows self.old.clock.now self.new.clock.now self.old.engine request.now keep
            (text_in reply) self.new.engine) }
        ensures memory { OnErr result (MachineStep K.keeper_faults C.shows self.old.clock.now self.new.clock.now self.old.engine request.now keep
            (memory_reply keep) self.new.engine) }
        // nothing that the user doesn't see changes it
        ensures unseen { IfOk result (λ reply. UnseenReply (C.shows self.old.clock.now) self.old.engine request.now keep (text_in reply) self.new.engine) }
    {
        let moment = self.clock.now();
        reply_at(alloc, &mut self.engine, moment, request, keep)
    }
}
