//! How an update ends.
ghost use Rattle.std.specs.Prelude.{◌≡◌, ◌≤◌, IsTrue, IfOk, Some};
ghost use Rattle.engine.specs.Machine.{is_begun};
ghost use Rattle.shared_engine.specs.Builds.{HasParts};
ghost use Rattle.shared_engine.specs.Ends.{end_act, told_after, Goes};

use crate::builds::hand_in_all;
use dh_base::memory::Memory;
use dh_base::plain::CutKind;
use dh_outside::Keeper;
use engine::Engine;
use std::alloc::Global;
use table_sums::Partition;

/// Hands in the parts that were built of an update, and swaps it in; out of memory it is dropped.
#[tactic(auto, using(crate::proofs::Calls::ends))]
pub(crate) fn end_with<K: Keeper>(
    alloc: Global,
    engine: &mut Engine<K>,
    kind: CutKind,
    ticket: u64,
    parts: Vec<Option<Partition>>,
) -> Result<u64, Memory>
    requires begun { IsTrue (is_begun engine.old.state ticket) }
    requires parts { HasParts engine.old kind ticket parts.items }
    ensures goes { Goes engine.old (end_act ticket result) engine.new }
    ensures published { engine.new.state.published ≡ told_after engine.old.state.published result }
    ensures rises { IfOk result (λ number. engine.old.state.published ≤ number) }
{
    hand_in_all(engine, kind, ticket, parts);
    match engine.swap(alloc, ticket) {
        Ok(number) => Ok(number),
        Err(fault) => {
            engine.drop_update(ticket);
            Err(fault)
        }
    }
}
