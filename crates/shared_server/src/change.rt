//! Replies to changes.
ghost use Rattle.std.specs.Prelude.{◌<◌, length};
ghost use Rattle.request_replies.specs.Changes.{asking};
ghost use Rattle.request_replies.specs.Texts.{told};
ghost use Rattle.shared_server.specs.Replies.{ChangeReply};

use crate::system::System;
use dh_base::memory::Memory;
use dh_changes::outcome::Who;
use dh_outside::Keeper;
use engine::ChangeRequest;
use request_replies::change::tell;
use request_session::Reply;
use shared_engine::{Naming, Pass};
use std::sync::Wait;

/// The reply to a change that a user asks for. A change that was made needs no memory to be told.
pub(crate) fn reply_to_change<J: Naming, K: Keeper, R: Wait, G>(
    system: &System<'_, J, K, R, G>,
    pass: &mut Pass<J>,
    user: u32,
    moment: i64,
    request: ChangeRequest,
    keep: bool,
) -> Result<Reply, Memory>
    requires user { user < length J.made.meta.users }
    ensures { ChangeReply J.made (asking moment user request) keep pass.old (told result) pass.new }
{
    let found = system.shared.change(
        system.rt,
        system.alloc,
        pass,
        Who::User(user),
        moment,
        &request,
    );
    drop(request);
    tell(system.alloc, found, keep)
}
