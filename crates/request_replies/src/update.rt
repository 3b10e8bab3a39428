//! The reply to an update of the tables.
ghost use Rattle.std.specs.Prelude.{◌≡◌, IsTrue, max, None, Some, Ok, IfOk};
ghost use Rattle.engine.specs.Machine.{Step, is_begun, number_of, staged_of};
ghost use Rattle.engine.specs.Machine.Act.{dropped};
ghost use Rattle.engine.specs.Seen.{IsSound, update_in};
ghost use Rattle.request_replies.specs.Texts.{told, IsTold, cut_text};
ghost use Rattle.request_replies.specs.Updates.{OwnUpdateReply, EndsUpdate, Ends};

use crate::texts::{number_reply, update_reply};
use dh_base::codes::Code;
use dh_base::memory::Memory;
use dh_base::plain::CutKind;
use dh_outside::Keeper;
use engine::{Cut, CutFault, Engine};
use request_session::Reply;
use std::alloc::Global;

/// Why no update was begun is told.
#[tactic(auto, using(crate::proofs::TellLemmas::is_told))]
pub fn not_begun(alloc: Global, fault: CutFault, keep: bool) -> Result<Reply, Memory>
    ensures { IsTold (told result) (cut_text keep fault) }
{
    match fault {
        CutFault::Busy { ticket } => number_reply(alloc, keep, Code::F30, ticket),
        CutFault::UpdatesSpent { limit } => number_reply(alloc, keep, Code::F32, limit),
        CutFault::Memory => Err(Memory),
    }
}

// Out of memory the update is dropped.
fn give_up<K: Keeper>(engine: &mut Engine<K>, ticket: u64) -> Result<Reply, Memory>
    requires { IsTrue (is_begun engine.old.state ticket) }
    ensures none { told result ≡ None }
    ensures dropped { Step engine.old.meta engine.old.limits engine.old.state (dropped ticket) engine.new.state }
    ensures same { engine.new ≡ record engine.old { state = engine.new.state; tables = engine.new.tables; part = engine.new.part } }
    ensures sound { IsSound engine.new }
{
    engine.drop_update(ticket);
    Err(Memory)
}

// Swaps the update in that is begun. The reply is made before. Out of memory the update is dropped.
#[tactic(auto, using(crate::proofs::TellLemmas::dropped_of))]
fn swap_in<K: Keeper>(
    alloc: Global,
    engine: &mut Engine<K>,
    ticket: u64,
    published: u64,
    kind: CutKind,
    keep: bool,
) -> Result<Reply, Memory>
    requires begun { IsTrue (is_begun engine.old.state ticket) }
    requires number { published ≡ max engine.old.state.published (number_of engine.old.state ticket) }
    ensures ends { EndsUpdate engine.old.meta engine.old.limits kind ticket keep engine.old.state (told result) engine.new.state }
    ensures same { engine.new ≡ record engine.old { state = engine.new.state; tables = engine.new.tables; part = engine.new.part } }
    ensures sound { IsSound engine.new }
{
    match update_reply(alloc, published, keep, kind) {
        Ok(reply) => match engine.swap(alloc, ticket) {
            Ok(_swapped) => Ok(reply),
            Err(_) => give_up(engine, ticket),
        },
        Err(_) => give_up(engine, ticket),
    }
}

// Ends the update if it is begun, and else tells why it isn't.
#[tactic(auto, using(crate::proofs::UpdateLemmas::refused_of))]
fn end<K: Keeper>(
    alloc: Global,
    engine: &mut Engine<K>,
    found: Result<Cut, CutFault>,
    kind: CutKind,
    keep: bool,
) -> Result<Reply, Memory>
    requires staged { IfOk found (λ begun. staged_of engine.old.state kind ≡ Some (record { ticket = begun.ticket; number = begun.number })) }
    requires sound { IsSound engine.old }
    ensures ends { Ends engine.old.meta engine.old.limits kind keep (update_in found) engine.old.state (told result) engine.new.state }
    ensures same { engine.new ≡ record engine.old { state = engine.new.state; tables = engine.new.tables; part = engine.new.part } }
    ensures sound { IsSound engine.new }
{
    match found {
        Ok(begun) => {
            let published = engine.standing().published.max(begun.number);
            swap_in(alloc, engine, begun.ticket, published, kind, keep)
        }
        Err(fault) => not_begun(alloc, fault, keep),
    }
}

/// The reply to an update. It is made before the tables are published, so that these stay out of memory.
#[tactic(auto, using(crate::proofs::UpdateLemmas::cut_begins, crate::proofs::UpdateLemmas::own_reply))]
pub(crate) fn reply_to_update<K: Keeper>(
    alloc: Global,
    engine: &mut Engine<K>,
    kind: CutKind,
    keep: bool,
) -> Result<Reply, Memory>
    ensures replies { OwnUpdateReply engine.old kind keep (told result) engine.new }
    ensures faults { engine.new.faults ≡ engine.old.faults }
    ensures sound { IsSound engine.new }
{
    let found = engine.cut(alloc, kind);
    end(alloc, engine, found, kind, keep)
}
