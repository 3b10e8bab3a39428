//! The texts of replies.
ghost use Rattle.std.specs.Prelude.{◌≡◌, decimal, None, IfOk};
ghost use Rattle.query_lang.specs.Given.{refusal};
ghost use Rattle.request_session.specs.Replies.{text_in};
ghost use Rattle.request_replies.specs.Texts.{refusal_reply, update_reply};

use dh_base::codes::{Code, Refusal};
use dh_base::items::Items;
use dh_base::memory::Memory;
use dh_base::plain::CutKind;
use request_session::{Reply, error_body, update_body, whole_reply};
use std::alloc::Global;

/// The refusal with a number as its detail.
pub(crate) fn numbered(alloc: Global, code: Code, number: u64) -> Result<Refusal, Memory>
    ensures { IfOk result (λ refused. refused ≡ refusal code (decimal number)) }
{
    let detail = Items::from(format!(in alloc; "{number}")?.into_bytes());
    Ok(Refusal { code, detail })
}

/// The reply that refuses a request.
#[tactic(auto, using(crate::proofs::Statuses::has_reply), unfolding(crate::specs::Texts::refusal_reply))]
pub fn refusal_reply(
    alloc: Global,
    published: Option<u64>,
    keep: bool,
    refused: &Refusal,
) -> Result<Reply, Memory>
    ensures { IfOk result (λ reply. text_in reply ≡ refusal_reply published keep refused.now) }
{
    let body = error_body(alloc, refused)?;
    Ok(whole_reply(refused.code.status(), published, None, keep, body))
}

/// The same with a number as its detail.
pub fn number_reply(alloc: Global, keep: bool, code: Code, number: u64) -> Result<Reply, Memory>
    ensures { IfOk result (λ reply. text_in reply ≡ refusal_reply None keep (refusal code (decimal number))) }
{
    let refused = numbered(alloc, code, number)?;
    refusal_reply(alloc, None, keep, &refused)
}

/// The reply to an update that was made.
#[tactic(auto, using(crate::proofs::Statuses::ok_status), unfolding(crate::specs::Texts::update_reply))]
pub(crate) fn update_reply(
    alloc: Global,
    published: u64,
    keep: bool,
    kind: CutKind,
) -> Result<Reply, Memory>
    ensures { IfOk result (λ reply. text_in reply ≡ update_reply published keep kind) }
{
    let body = update_body(kind, published).bytes().to_vec(alloc)?;
    Ok(whole_reply(200, Some(published), None, keep, body))
}
