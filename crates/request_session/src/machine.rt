//! What answers requests.
ghost use Rattle.std.specs.Prelude.{ℕ, Bool, List, IfOk, OnErr};
ghost use Rattle.http_wire.specs.declared.request.Request.{Request as Asked};
ghost use Rattle.request_session.specs.Replies.{memory_reply, text_in};

use crate::reply::Reply;
use dh_base::memory::Memory;
use http_wire::Request;
use std::alloc::Global;

/// What answers requests.
pub trait Machine {
    /// Which reply it may give to a request in a state, and the state after it. The reply is the whole text, head
    /// and body, and says whether the connection is kept as it is told to. The reply for a lack of memory is one of
    /// those that it may give, and the relation says what the state is then.
    ghost step: { Self → Asked → Bool → List ℕ → Self → Type 0 };

    /// The reply to a request. Where it finds no memory, the reply for a lack of memory stands in its place. Head
    /// and body stand apart, so that a machine that has changed needs no memory to join them.
    fn reply(&mut self, alloc: Global, request: &Request, keep: bool) -> Result<Reply, Memory>
        ensures replies { IfOk result (λ reply. step self.old request.now keep (text_in reply) self.new) }
        ensures memory { OnErr result (step self.old request.now keep (memory_reply keep) self.new) };
}
