//! The reply over the bytes of a bundle.

ghost use Rattle.std.specs.Prelude.{◌≡◌, ◌<◌, ℕ, List, length, IfOk};
ghost use Rattle.json_read.specs.Bytes.{document_of};
ghost use Rattle.json_read.specs.Views.{data_of};
ghost use Rattle.meta_reader.specs.File.{most_bytes};
ghost use Rattle.offline_replies.specs.Bytes.{Asked, asked, IsReplyTo};
ghost use Rattle.offline_replies.specs.Steps.{AreForms, AreFormsIn, IsOverDocument};
ghost use Rattle.offline_replies.specs.Unseen.{IsUnseenReply};
ghost use Rattle.offline_replies.specs.declared.bundle.reply.Reply.{Reply as Said};

use crate::bundle::over::over_forms;
use crate::bundle::reply::{Reply, meta_refused};
use dh_base::items::Items;
use dh_base::limits::MOST_INPUT_BYTES;
use dh_base::memory::Memory;
use dh_metadata::parts::MetaParts;
use import_forms::set::{SetValue, read_values};
use json::{Scratch, Value};
use json_read::fault::FormFault;
use json_read::read::read;
use meta_forms::parts::read_parts;
use meta_reader::fault::{MetaFault, Which};
use std::alloc::Global;

/// The most bytes of a bundle.
pub const MOST_BYTES: usize = MOST_INPUT_BYTES;

/// What a bundle says: its raw records, and its values or the first fault of their form.
#[derive(Drop)]
pub(crate) struct Forms {
    pub parts: MetaParts,
    pub values: Result<Items<SetValue>, FormFault>,
}

// What the data says.
fn forms_of(alloc: Global, json: &Value<'_>) -> Result<Forms, FormFault>
    ensures { AreForms (data_of json.now) result }
{
    let values = read_values(alloc, json);
    let parts = read_parts(alloc, json)?;
    Ok(Forms { parts, values })
}

// What the bytes say, if they are JSON. Their data is dropped here, before metadata is made.
fn forms_in(alloc: Global, bytes: &[u8]) -> Result<Option<Result<Forms, FormFault>>, Memory>
    ensures { IfOk result (AreFormsIn (document_of bytes.now)) }
{
    let mut scratch = Scratch::new(alloc);
    match read(alloc, bytes, &mut scratch)? {
        Some(json) => Ok(Some(forms_of(alloc, &json))),
        None => Ok(None),
    }
}

fn over_document(
    alloc: Global,
    user: &[u8],
    query: &[u8],
    moment: i64,
    bytes: &[u8],
) -> Result<Reply, Memory>
    ensures { IfOk result (IsOverDocument (asked user.now query.now moment) (document_of bytes.now)) }
{
    match forms_in(alloc, bytes)? {
        Some(Ok(forms)) => over_forms(alloc, user, query, moment, forms),
        Some(Err(FormFault::At(path))) => meta_refused(alloc, &MetaFault::Shape { path }),
        Some(Err(FormFault::Memory)) => Err(Memory),
        None => meta_refused(alloc, &MetaFault::NotJson),
    }
}

/// The reply to every query over a bundle of more than the most bytes.
#[tactic(auto, using(crate::proofs::ReplyLemmas::long_reply))]
pub fn reply_to_long(alloc: Global) -> Result<Reply, Memory>
    ensures { IfOk result (λ reply. (ask : Asked) (bytes : List ℕ) → most_bytes < length bytes → IsReplyTo ask bytes reply) }
{
    meta_refused(
        alloc,
        &MetaFault::Limit {
            which: Which::Bytes,
        },
    )
}

// The reply by the definition.
#[tactic(auto, using(crate::proofs::ReplyLemmas::short_reply))]
fn over_bytes(
    alloc: Global,
    user: &[u8],
    query: &[u8],
    moment: i64,
    bytes: &[u8],
) -> Result<Reply, Memory>
    ensures { IfOk result (λ reply. IsReplyTo (asked user.now query.now moment) bytes.now reply) }
{
    if bytes.len() > MOST_BYTES {
        return reply_to_long(alloc);
    }
    over_document(alloc, user, query, moment, bytes)
}

/// The reply to a query of the user with an identifier, at a moment in seconds from 1970-01-01 in UTC,
/// over the bytes of a bundle: a metadata file that may have data values.
pub fn reply_to_bytes(
    alloc: Global,
    user: &[u8],
    query: &[u8],
    moment: i64,
    bytes: &[u8],
) -> Result<Reply, Memory>
    ensures over { IfOk result (λ reply. IsReplyTo (asked user.now query.now moment) bytes.now reply) }
    // there is no other
    ensures sole { IfOk result (λ reply. (other : Said) → IsReplyTo (asked user.now query.now moment) bytes.now other → other ≡ reply) }
    // nothing that the user doesn't see changes it
    ensures unseen { IfOk result (IsUnseenReply (asked user.now query.now moment) bytes.now) }
{
    over_bytes(alloc, user, query, moment, bytes)
}
