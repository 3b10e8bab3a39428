//! Replies to updates of the tables. Room for the reply is made before the update, so that one that was made is always told.
ghost use Rattle.std.specs.Prelude.{◌≡◌, ◌≤◌, length, take, None, Some, IfOk};
ghost use Rattle.request_session.specs.Replies.{text_in};
ghost use Rattle.request_replies.specs.Texts.{told, IsTold, update_reply};
ghost use Rattle.shared_server.specs.Replies.{UpdateReply, Attempt, update_told};

use crate::updating::{Updates, Updating};
use dh_base::memory::Memory;
use dh_base::plain::CutKind;
use engine::CutFault;
use request_replies::update::not_begun;
use request_session::{Reply, update_body, whole_reply};
use shared_engine::{Naming, Pass};
use std::alloc::Global;

// As many bytes as the body of a reply to an update may have.
const ROOM: usize = 128;

// Room for the body of a reply.
fn room(alloc: Global) -> Result<Vec<u8>, Memory>
    ensures { IfOk result (λ room. length room.items ≡ 128) }
{
    Ok(vec![in alloc; 0u8; ROOM]?)
}

fn put_front(room: &mut [u8], text: &[u8])
    requires { length text.now ≤ length room.old }
    ensures { take (length text.now) room.new ≡ text.now }
{
    room[..text.len()].copy_from_slice(text);
}

// Puts a text into the room.
fn fill(room: Vec<u8>, text: &[u8]) -> Vec<u8>
    requires { length text.now ≤ length room.items }
    ensures { result.items ≡ text.now }
{
    let mut room = room;
    put_front(&mut room, text);
    room.truncate(text.len());
    room
}

// The reply to an update that was made. It takes no memory.
#[tactic(auto, using(request_replies::proofs::Statuses::ok_status), unfolding(request_replies::specs::Texts::update_reply))]
fn updated(room: Vec<u8>, published: u64, keep: bool, kind: CutKind) -> Reply
    requires { length room.items ≡ 128 }
    ensures { text_in result ≡ update_reply published keep kind }
{
    let body = update_body(kind, published);
    whole_reply(200, Some(published), None, keep, fill(room, body.bytes()))
}

// What an update came to is told.
#[tactic(auto, using(crate::proofs::ReplyLemmas::update_sure, request_replies::proofs::TellLemmas::is_told))]
fn tell(
    alloc: Global,
    room: Vec<u8>,
    found: Result<u64, CutFault>,
    kind: CutKind,
    keep: bool,
) -> Result<Reply, Memory>
    requires { length room.items ≡ 128 }
    ensures tells { IsTold (told result) (update_told keep kind found) }
    ensures sure { IfOk found (λ published. told result ≡ Some (update_reply published keep kind)) }
{
    match found {
        Ok(published) => Ok(updated(room, published, keep, kind)),
        Err(fault) => {
            drop(room);
            not_begun(alloc, fault, keep)
        }
    }
}

// The reply to an update, with room for it.
fn reply_in<J: Naming, U: Updates<Pass<J>> + Drop>(
    alloc: Global,
    updating: &Updating<J, U>,
    pass: &mut Pass<J>,
    kind: CutKind,
    keep: bool,
    room: Vec<u8>,
) -> Result<Reply, Memory>
    requires { length room.items ≡ 128 }
    ensures { UpdateReply J.made kind keep pass.old (told result) pass.new }
{
    let found = updating.update(pass, kind);
    tell(alloc, room, found, kind, keep)
}

/// The reply to an update.
pub(crate) fn reply_to_update<J: Naming, U: Updates<Pass<J>> + Drop>(
    alloc: Global,
    updating: &Updating<J, U>,
    pass: &mut Pass<J>,
    kind: CutKind,
    keep: bool,
) -> Result<Reply, Memory>
    ensures { Attempt (UpdateReply J.made kind keep) pass.old (told result) pass.new }
{
    match room(alloc) {
        Ok(room) => reply_in(alloc, updating, pass, kind, keep, room),
        Err(_) => Err(Memory),
    }
}
