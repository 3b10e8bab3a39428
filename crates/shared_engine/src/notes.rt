//! The entries that calls add to the history, in the name of the caller who is taken in. A call that found no memory adds none.
//!
//! A note knows of the engine no more than its keeper's count of faults, and of the call no more than the act of the machine that it was.
ghost use Rattle.std.specs.Prelude.{◌≡◌, ◌≤◌, ◌++◌, ◌∷◌, [], IsSome, IfOk};
ghost use Rattle.engine.specs.Machine.{lacks_memory};
ghost use Rattle.shared_engine.specs.Entries.{Entry, entry_by, entries_by};
ghost use Rattle.shared_engine.specs.Ends.{end_act, told_after};

use crate::names::Item;
use crate::{HistoryTable, LockSeat};
use dh_base::memory::Memory;
use dh_base::plain::CutKind;
use dh_changes::outcome::Who;
use dh_outside::Keeper;
use engine::{ChangeFault, ChangeRequest, Cut, CutFault, Engine, LookFault, Report, View};
use std::marker::Brand;

/// Has a keeper, whose faults are counted.
pub(crate) trait Kept {
    ghost use Rattle.std.specs.Prelude.{ℕ};

    ghost faults: { Self → ℕ };
}

impl<K: Keeper> Kept for Engine<K> {
    ghost faults = { λ engine. engine.faults };
}

/// A call of the engine with its reply.
pub(crate) trait Told {
    ghost use Rattle.engine.specs.Machine.{Act};

    /// The act of the machine that it was.
    ghost act: { Self → Act };

    /// Whether it found no memory.
    fn lacks(&self) -> bool
        ensures { result ≡ lacks_memory (act self.now) };
}

/// A change.
#[derive(Drop)]
pub(crate) struct Changed<'a> {
    pub(crate) who: Who,
    pub(crate) moment: i64,
    pub(crate) request: &'a ChangeRequest,
    pub(crate) reply: &'a Result<Report, ChangeFault>,
}

impl<'a> Told for Changed<'a> {
    ghost use Rattle.engine.specs.Machine.Act.{changed};

    ghost act = { λ call. changed (record { who = call.who; moment = call.moment; request = call.request.now }) call.reply.now };

    fn lacks(&self) -> bool {
        match self.reply {
            Ok(_) => false,
            Err(ChangeFault::Refused(_)) => false,
            Err(ChangeFault::LogFull { .. }) => false,
            Err(ChangeFault::StoreFault) => false,
            Err(ChangeFault::Memory) => true,
        }
    }
}

/// A look at the tables.
#[derive(Drop)]
pub(crate) struct Looked<'a> {
    pub(crate) asked: u64,
    pub(crate) reply: &'a Result<View, LookFault>,
}

impl<'a> Told for Looked<'a> {
    ghost use Rattle.engine.specs.Machine.Act.{looked};
    ghost use Rattle.engine.specs.Seen.{published_in};

    ghost act = { λ call. looked call.asked (published_in call.reply.now) };

    fn lacks(&self) -> bool {
        match self.reply {
            Ok(_) => false,
            Err(LookFault::NotYet { .. }) => false,
            Err(LookFault::Memory) => true,
        }
    }
}

/// The beginning of an update.
#[derive(Drop)]
pub(crate) struct Begun<'a> {
    pub(crate) kind: CutKind,
    pub(crate) reply: &'a Result<Cut, CutFault>,
}

impl<'a> Told for Begun<'a> {
    ghost use Rattle.engine.specs.Machine.Act.{begun};
    ghost use Rattle.engine.specs.Seen.{update_in};

    ghost act = { λ call. begun call.kind (update_in call.reply.now) };

    fn lacks(&self) -> bool {
        match self.reply {
            Ok(_) => false,
            Err(CutFault::Busy { .. }) => false,
            Err(CutFault::UpdatesSpent { .. }) => false,
            Err(CutFault::Memory) => true,
        }
    }
}

/// Adds the entry of a call, unless it found no memory.
#[tactic(auto, using(crate::proofs::Calls::none_added, crate::proofs::Calls::one_added))]
pub(crate) fn note<E: Kept, A: Told>(
    seat: &mut LockSeat<Item>,
    words: &HistoryTable<Item>,
    engine: &E,
    call: &A,
)
    ghost entry: { Entry }
    requires table { seat.old.table ≡ words.now }
    requires taken { IsSome seat.old.taken }
    requires entry { entry ≡ entry_by seat.old.taken (A.act call.now) (E.faults engine.now) }
    ensures { seat.new ≡ record seat.old { list = seat.old.list ++ entries_by seat.old.taken (A.act call.now) (E.faults engine.now) } }
{
    if !call.lacks() {
        seat.stamp::<Brand>(words);
    }
}

/// Adds the entry of an update's end, and then tells the number that was swapped in.
pub(crate) fn note_end<E: Kept>(
    seat: &mut LockSeat<Item>,
    words: &HistoryTable<Item>,
    engine: &E,
    ticket: u64,
    reply: &Result<u64, Memory>,
)
    ghost entry: { Entry }
    requires table { seat.old.table ≡ words.now }
    requires taken { IsSome seat.old.taken }
    requires rises { IfOk reply.now (λ number. seat.old.told ≤ number) }
    requires entry { entry ≡ entry_by seat.old.taken (end_act ticket reply.now) (E.faults engine.now) }
    ensures { seat.new ≡ record seat.old {
      list = seat.old.list ++ entry_by seat.old.taken (end_act ticket reply.now) (E.faults engine.now) ∷ [];
      told = told_after seat.old.told reply.now;
    } }
{
    seat.stamp::<Brand>(words);
    match reply {
        Ok(number) => seat.tell(words, *number),
        Err(_) => (),
    }
}
