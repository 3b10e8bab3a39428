//! The texts of replies.
ghost use Rattle.std.specs.Prelude.{◌≡◌, true, IfOk};
ghost use Rattle.request_session.specs.Heads.{is_reply_status};
ghost use Rattle.request_session.specs.Replies.{text_in, reply_text, refused_text};

use crate::error_body;
use crate::heads::head;
use crate::reply::Reply;
use dh_base::codes::{Code, Refusal};
use dh_base::items::Items;
use dh_base::memory::Memory;
use std::alloc::Global;

/// A whole reply: its head, which tells how long the body is, and the body. This takes no memory.
#[tactic(auto, unfolding(crate::specs::Replies::reply_text))]
pub fn whole_reply(
    status: u16,
    published: Option<u64>,
    change: Option<u64>,
    keep: bool,
    body: Vec<u8>,
) -> Reply
    requires { is_reply_status status ≡ true }
    ensures { text_in result ≡ reply_text status published change keep body.items }
{
    let head = head(status, body.len() as u64, published, change, keep);
    Reply { head, body }
}

/// The reply that refuses what isn't a request, after which the connection ends.
#[tactic(auto, using(crate::proofs::HeadLemmas::has_reply), unfolding(crate::specs::Replies::refused_text))]
pub(crate) fn refused_reply(alloc: Global, code: Code) -> Result<Reply, Memory>
    ensures { IfOk result (λ reply. text_in reply ≡ refused_text code) }
{
    let refusal = Refusal {
        code,
        detail: Items::new(alloc),
    };
    let body = error_body(alloc, &refusal)?;
    Ok(whole_reply(code.status(), None, None, false, body))
}
