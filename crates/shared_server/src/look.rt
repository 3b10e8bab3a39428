//! Replies to queries and checks: a look at the tables, and the answer over them.
ghost use Rattle.std.specs.Prelude.{◌≡◌, ◌<◌, List, length};
ghost use Rattle.dh_changes.specs.declared.change.Change.{Change};
ghost use Rattle.engine.specs.MetaAfter.{meta_after};
ghost use Rattle.query_answer.specs.Asked.{CanAnswer};
ghost use Rattle.query_lang.specs.Askable.{IsAskable};
ghost use Rattle.request_replies.specs.Texts.{told, IsTold};
ghost use Rattle.request_replies.specs.Queries.{look_text};
ghost use Rattle.request_replies.specs.Checks.{check_text, place_of};
ghost use Rattle.shared_server.specs.Replies.{LookReply};
ghost use Rattle.shared_server.specs.Views.{viewed_answer, viewed_check};

use crate::system::System;
use dh_base::codes::Code;
use dh_base::memory::Memory;
use dh_metadata::metadata::Metadata;
use dh_outside::Keeper;
use engine::{LookFault, View};
use query_lang::Query;
use request_replies::check::{by_user, place_of};
use request_replies::query::over_rows;
use request_replies::texts::number_reply;
use request_session::Reply;
use shared_engine::{Naming, Pass};
use std::alloc::Global;
use std::sync::Wait;
use validation::Place;
use web_routes::checked::Checked;

// What a look at the tables came to is told to who asks a query.
#[tactic(auto, using(request_replies::proofs::TellLemmas::is_told))]
fn tell_answer(
    alloc: Global,
    meta: &Metadata,
    user: u32,
    found: Result<View, LookFault>,
    query: &Query,
    keep: bool,
) -> Result<Reply, Memory>
    requires user { user < length meta.now.users }
    requires query { CanAnswer meta.now query.now }
    ensures { IsTold (told result) (viewed_answer meta.now user query.now keep found) }
{
    match found {
        Ok(view) => over_rows(
            alloc,
            meta,
            user,
            &*view.tables,
            query,
            view.published,
            keep,
        ),
        Err(LookFault::NotYet { published }) => number_reply(alloc, keep, Code::F19, published),
        Err(LookFault::Memory) => Err(Memory),
    }
}

/// The reply to a query over the tables that are published.
pub(crate) fn reply_to_query<J: Naming, K: Keeper, R: Wait, G>(
    system: &System<'_, J, K, R, G>,
    pass: &mut Pass<J>,
    meta: &Metadata,
    user: u32,
    asked: u64,
    query: &Query,
    keep: bool,
) -> Result<Reply, Memory>
    requires meta { (log : List Change) → meta.now ≡ meta_after J.made.meta log }
    requires user { user < length meta.now.users }
    requires query { IsAskable meta.now user query.now }
    ensures { LookReply J.made asked (λ log found. look_text J.made.meta log user query.now keep found) pass.old (told result) pass.new }
{
    let found = system.shared.look(system.rt, pass, asked);
    tell_answer(system.alloc, meta, user, found, query, keep)
}

// What a look at the tables came to is told to who asks for a check.
#[tactic(auto, using(request_replies::proofs::TellLemmas::is_told))]
fn tell_check(
    alloc: Global,
    meta: &Metadata,
    user: u32,
    found: Result<View, LookFault>,
    place: &Place,
    keep: bool,
) -> Result<Reply, Memory>
    requires user { user < length meta.now.users }
    requires set { place.now.set < length meta.now.data_sets }
    requires unit { place.now.unit < length meta.now.organisation_units }
    ensures { IsTold (told result) (viewed_check meta.now user place.now keep found) }
{
    match found {
        Ok(view) => by_user(
            alloc,
            meta,
            user,
            &*view.tables,
            place,
            view.published,
            keep,
        ),
        Err(LookFault::NotYet { published }) => number_reply(alloc, keep, Code::F19, published),
        Err(LookFault::Memory) => Err(Memory),
    }
}

/// The reply to a check over the tables that are published.
pub(crate) fn reply_to_check<J: Naming, K: Keeper, R: Wait, G>(
    system: &System<'_, J, K, R, G>,
    pass: &mut Pass<J>,
    meta: &Metadata,
    user: u32,
    asked: u64,
    checked: &Checked,
    keep: bool,
) -> Result<Reply, Memory>
    requires meta { (log : List Change) → meta.now ≡ meta_after J.made.meta log }
    requires user { user < length meta.now.users }
    requires set { checked.now.set < length meta.now.data_sets }
    requires unit { checked.now.unit < length meta.now.organisation_units }
    ensures { LookReply J.made asked (λ log found. check_text J.made.meta log user (place_of checked.now) keep found) pass.old (told result) pass.new }
{
    let found = system.shared.look(system.rt, pass, asked);
    let place = place_of(checked);
    tell_check(system.alloc, meta, user, found, &place, keep)
}
