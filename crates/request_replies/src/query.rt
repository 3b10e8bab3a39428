//! The reply to a query.
ghost use Rattle.std.specs.Prelude.{◌≡◌, ◌<◌, length, Some, None, IfOk};
ghost use Rattle.engine.specs.MetaAfter.{published_meta};
ghost use Rattle.query_answer.specs.Asked.{CanAnswer};
ghost use Rattle.query_lang.specs.Askable.{IsAskable};
ghost use Rattle.query_lang.specs.Given.{refusal};
ghost use Rattle.cell_values.specs.Seen.{contents_of};
ghost use Rattle.request_session.specs.Replies.{text_in, reply_text};
ghost use Rattle.request_replies.specs.Texts.{told, refusal_reply};
ghost use Rattle.request_replies.specs.Queries.{QueryReply, answer_by};
ghost use Rattle.dh_base.specs.declared.codes.Code.TheVariants.{F18};

use crate::texts::{number_reply, refusal_reply};
use cell_values::Seer;
use dh_base::codes::{Code, Refusal};
use dh_base::items::Items;
use dh_base::memory::Memory;
use dh_metadata::metadata::Metadata;
use dh_outside::Keeper;
use engine::{Engine, LookFault};
use query_answer::{AnswerFault, answer};
use query_lang::Query;
use request_session::{Reply, whole_reply};
use std::alloc::Global;
use table_rows::RowStore;

// The answer is told.
fn answered(published: u64, keep: bool, body: Vec<u8>) -> Reply
    ensures { text_in result ≡ reply_text 200 (Some published) None keep body.items }
{
    whole_reply(200, Some(published), None, keep, body)
}

fn too_wide(alloc: Global, published: u64, keep: bool, id: Items<u8>) -> Result<Reply, Memory>
    ensures { IfOk result (λ reply. text_in reply ≡ refusal_reply (Some published) keep (refusal F18 id)) }
{
    let refused = Refusal {
        code: Code::F18,
        detail: id,
    };
    refusal_reply(alloc, Some(published), keep, &refused)
}

/// The answer to a user over the rows of tables that stand for so many changes.
#[tactic(auto, unfolding(crate::specs::Texts::answer_reply, crate::specs::Queries::answer_by))]
pub fn over_rows<S: RowStore>(
    alloc: Global,
    meta: &Metadata,
    user: u32,
    store: &S,
    query: &Query,
    published: u64,
    keep: bool,
) -> Result<Reply, Memory>
    requires user { user < length meta.now.users }
    requires query { CanAnswer meta.now query.now }
    ensures { IfOk result (λ reply. text_in reply ≡ answer_by meta.now (contents_of (S.rows store.now) (S.events store.now) (S.regs store.now)) user query.now
        keep published) }
{
    let seer = Seer::of(alloc, meta, user)?;
    match answer(alloc, meta, store, &seer, query) {
        Ok(body) => Ok(answered(published, keep, body.items)),
        Err(AnswerFault::Wide { id }) => too_wide(alloc, published, keep, id),
        Err(AnswerFault::Memory) => Err(Memory),
    }
}

/// The reply to a query over the tables that are published.
#[tactic(auto, using(crate::proofs::TellLemmas::is_told))]
pub(crate) fn reply_to_query<K: Keeper>(
    alloc: Global,
    engine: &Engine<K>,
    user: u32,
    asked: u64,
    query: &Query,
    keep: bool,
) -> Result<Reply, Memory>
    requires user { user < length (published_meta engine.now).users }
    requires query { IsAskable (published_meta engine.now) user query.now }
    ensures { QueryReply engine.now user asked query.now keep (told result) }
{
    match engine.look(asked) {
        Ok(view) => over_rows(
            alloc,
            engine.published_meta(),
            user,
            &*view.tables,
            query,
            view.published,
            keep,
        ),
        Err(LookFault::NotYet { published }) => number_reply(alloc, keep, Code::F19, published),
        Err(LookFault::Memory) => Err(Memory),
    }
}
