//! How a query over a bundle ends, and what is told.

ghost use Rattle.std.specs.Prelude.{◌≡◌, IfOk};
ghost use Rattle.offline_replies.specs.Reply.{told, meta_refused, query_refused};
ghost use Rattle.meta_reader.specs.Line.{line_of};

use dh_base::codes::Refusal;
use dh_base::items::Items;
use dh_base::memory::Memory;
use meta_reader::fault::MetaFault;
use meta_reader::line::fault_line;
use request_session::error_body;
use std::alloc::Global;

/// How a query over a bundle ends.
#[derive(Clone, Copy)]
pub enum Ending {
    /// It is answered.
    Ok,
    /// The metadata, or the form of the values, are refused.
    MetaRefused,
    /// There is no such user, or the query is refused.
    QueryRefused,
    /// The values are refused.
    DataRefused,
}

/// A reply: how it ends, and the text that is told.
#[derive(Drop)]
pub struct Reply {
    pub ending: Ending,
    pub text: Items<u8>,
}

/// A reply that ends so, with a line feed after its text.
#[tactic(auto, unfolding(crate::specs::Reply::told))]
pub(crate) fn told(ending: Ending, text: Vec<u8>) -> Result<Reply, Memory>
    ensures { IfOk result (λ reply. reply ≡ told ending text.items) }
{
    let mut text = text;
    text.push(b'\n')?;
    Ok(Reply {
        ending,
        text: Items::from(text),
    })
}

/// A refused query.
#[tactic(auto, unfolding(crate::specs::Reply::query_refused))]
pub(crate) fn query_refused(alloc: Global, refused: &Refusal) -> Result<Reply, Memory>
    ensures { IfOk result (λ reply. reply ≡ query_refused refused.now) }
{
    told(Ending::QueryRefused, error_body(alloc, refused)?)
}

/// Refused metadata, by their first fault.
#[tactic(auto, unfolding(crate::specs::Reply::meta_refused))]
pub(crate) fn meta_refused(alloc: Global, fault: &MetaFault) -> Result<Reply, Memory>
    ensures { IfOk result (λ reply. reply ≡ meta_refused (line_of fault.now)) }
{
    let line = fault_line(alloc, fault)?;
    let mut text = b"dhis: metadata: ".to_vec(alloc)?;
    text.extend_from_slice(line.as_slice())?;
    told(Ending::MetaRefused, text)
}
