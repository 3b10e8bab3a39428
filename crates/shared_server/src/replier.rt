//! What answers the requests of one caller.
ghost use Rattle.std.specs.Prelude.{◌≡◌, List};
ghost use Rattle.dh_changes.specs.declared.change.Change.{Change};
ghost use Rattle.engine.specs.MetaAfter.{meta_after};
ghost use Rattle.web_routes.specs.Calls.{IsSound};
ghost use Rattle.request_replies.specs.Texts.{told};
ghost use Rattle.shared_server.specs.Steps.{CallReply, ReplyAt};

use crate::change::reply_to_change;
use crate::look::{reply_to_check, reply_to_query};
use crate::system::{System, meta_of};
use crate::update::reply_to_update;
use crate::updating::{Updates, Updating};
use dh_base::memory::Memory;
use dh_metadata::metadata::Metadata;
use dh_outside::{Clock, Keeper};
use dh_periods::day_of;
use engine::ChangeRequest;
use http_wire::Request;
use request_replies::replier::refuse;
use request_session::{Machine, Reply};
use shared_engine::{Naming, Pass};
use std::alloc::Global;
use std::sync::Wait;
use web_routes::call::Call;
use web_routes::routing::route;

// The reply to a call at a moment.
fn reply_to_call<J: Naming, K: Keeper, R: Wait, G, U: Updates<Pass<J>> + Drop>(
    system: &System<'_, J, K, R, G>,
    updating: &Updating<J, U>,
    pass: &mut Pass<J>,
    meta: &Metadata,
    moment: i64,
    call: Call,
    keep: bool,
) -> Result<Reply, Memory>
    requires meta { (log : List Change) → meta.now ≡ meta_after J.made.meta log }
    requires sound { IsSound meta.now call }
    ensures { CallReply J.made moment call keep pass.old (told result) pass.new }
{
    match call {
        Call::Query { user, asked, query } => {
            let reply = reply_to_query(system, pass, meta, user, asked, &query, keep);
            drop(query);
            reply
        }
        Call::Check {
            user,
            asked,
            checked,
        } => reply_to_check(system, pass, meta, user, asked, &checked, keep),
        Call::Update { kind } => reply_to_update(system.alloc, updating, pass, kind, keep),
        Call::Values { user, set } => reply_to_change(
            system,
            pass,
            user,
            moment,
            ChangeRequest::Values(set),
            keep,
        ),
        Call::Completion { user, list } => reply_to_change(
            system,
            pass,
            user,
            moment,
            ChangeRequest::Completion(list),
            keep,
        ),
        Call::Approval { user, act } => reply_to_change(
            system,
            pass,
            user,
            moment,
            ChangeRequest::Approval(act),
            keep,
        ),
        Call::Tracker { user, bundle } => reply_to_change(
            system,
            pass,
            user,
            moment,
            ChangeRequest::Tracker(bundle),
            keep,
        ),
    }
}

/// The reply to a request at a moment, which is read over the metadata as the published changes leave them.
pub(crate) fn reply_at<J: Naming, K: Keeper, R: Wait, G, U: Updates<Pass<J>> + Drop>(
    system: &System<'_, J, K, R, G>,
    updating: &Updating<J, U>,
    pass: &mut Pass<J>,
    moment: i64,
    request: &Request,
    keep: bool,
) -> Result<Reply, Memory>
    ensures { ReplyAt J.made moment request.now keep pass.old (told result) pass.new }
{
    let meta = meta_of(system.shared);
    match route(system.alloc, request, meta, day_of(moment)) {
        Ok(call) => reply_to_call(system, updating, pass, meta, moment, call, keep),
        Err(fault) => refuse(system.alloc, keep, &fault),
    }
}

/// What answers the requests of one caller, whose pass is lent to it, by a clock that is lent to it.
#[derive(Drop)]
pub(crate) struct SharedReplier<
    'a,
    'b,
    'c,
    J: Naming,
    K: Keeper,
    C: Clock,
    R: Wait,
    G,
    U: Updates<Pass<J>> + Drop,
> {
    pub(crate) system: System<'a, J, K, R, G>,
    pub(crate) updating: &'c Updating<J, U>,
    pub(crate) pass: &'b mut Pass<J>,
    pub(crate) clock: &'a C,
}

impl<'a, 'b, 'c, J: Naming, K: Keeper, C: Clock, R: Wait, G, U: Updates<Pass<J>> + Drop> Machine
    for SharedReplier<'a, 'b, 'c, J, K, C, R, G, U> {
    ghost use Rattle.std.specs.Prelude.{IfOk, OnErr};
    ghost use Rattle.request_session.specs.Replies.{text_in, memory_reply};
    ghost use Rattle.shared_server.specs.Serving.{LentStep};

    ghost step = { λ old request keep text new. LentStep J.made C.shows old.pass.now new.pass.now old.pass.ghost_name new.pass.ghost_name
        old.clock.now new.clock.now request keep text };

    fn reply(&mut self, alloc: Global, request: &Request, keep: bool) -> Result<Reply, Memory>
        ensures replies { IfOk result (λ reply. LentStep J.made C.shows self.old.pass.now self.new.pass.now self.old.pass.ghost_name
            self.new.pass.ghost_name self.old.clock.now self.new.clock.now request.now keep (text_in reply)) }
        ensures memory { OnErr result (LentStep J.made C.shows self.old.pass.now self.new.pass.now self.old.pass.ghost_name
            self.new.pass.ghost_name self.old.clock.now self.new.clock.now request.now keep (memory_reply keep)) }
    {
        let _alloc = alloc;
        let moment = self.clock.now();
        reply_at(
            &self.system,
            self.updating,
            self.pass,
            moment,
            request,
            keep,
        )
    }
}
