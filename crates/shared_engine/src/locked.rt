//! What lies under the lock: the engine, and the seat that knows the whole history. Each call takes its caller in, makes one step of
//! the machine, adds its entry, and gives the caller its token back. Here are the two steps of an update; what is one call alone is a
//! method of `Shared`.
ghost use Rattle.std.specs.Prelude.{◌≡◌, ◌∷◌, ℕ, [], IfOk, map};
ghost use Rattle.std.specs.Arc.{arc_value};
ghost use Rattle.engine.specs.Machine.Act.{begun};
ghost use Rattle.engine.specs.Seen.{update_in};
ghost use Rattle.shared_engine.specs.Entries.{entries_of};
ghost use Rattle.shared_engine.specs.Ends.{end_act};
ghost use Rattle.shared_engine.specs.Builds.{CanBuild, ArePartsOf, IsCutBy};
ghost use Rattle.shared_engine.specs.Calls.{IsCall};

use crate::names::{Item, Naming};
use crate::notes::{Begun, note, note_end};
use crate::steps::end_with;
use crate::{HistoryTable, LockSeat, Token};
use dh_base::memory::Memory;
use dh_base::plain::CutKind;
use dh_outside::Keeper;
use engine::{Cut, CutFault, Engine};
use std::alloc::Global;
use std::marker::{Model, PhantomData};
use table_sums::Partition;

/// The engine with its history. Contracts see that it is there, and its type that it stands where a legal history leaves it.
#[derive(Drop)]
pub(crate) struct Locked<J: Naming, K: Keeper> {
    pub(crate) engine: Engine<K>,
    pub(crate) seat: LockSeat<Item>,
    pub(crate) of: PhantomData<J>,
}

impl<J: Naming, K: Keeper> Model for Locked<J, K> {
    ghost use Rattle.std.specs.Prelude.{ℕ};
    ghost use Rattle.shared_engine.specs.Histories.{IsRunning};

    ghost Value = { ℕ };

    ghost view = { λ _. 0 };

    ghost invariant = { λ locked. IsRunning J.made locked.engine locked.seat };
}

impl<J: Naming, K: Keeper> Locked<J, K> {
    /// Begins an update, by the caller of a token.
    pub(crate) fn cut(
        &mut self,
        alloc: Global,
        words: &HistoryTable<Item>,
        token: Token<Item>,
        kind: CutKind,
    ) -> (Token<Item>, Result<Cut, CutFault>)
        requires table { (words.now ≡ J.made.table) × (token.table ≡ J.made.table) }
        ensures call { (faults : ℕ) × IsCall J.made token result.0 (entries_of token.caller (begun kind (update_in result.1)) faults) }
        ensures begun { IfOk result.1 (IsCutBy J.made result.0.list token.caller) }
        ensures builds { IfOk result.1 (λ cut. CanBuild (map arc_value cut.changes.items)) }
    {
        self.seat.take_in(words, token);
        let reply = self.engine.cut(alloc, kind);
        let call = Begun {
            kind,
            reply: &reply,
        };
        note(&mut self.seat, words, &self.engine, &call);
        let token = self.seat.give_back(words);
        (token, reply)
    }

    /// Hands in what was built of an update that the caller of a token has begun, and ends it: it is swapped in or, out of memory,
    /// dropped.
    pub(crate) fn finish(
        &mut self,
        alloc: Global,
        words: &HistoryTable<Item>,
        token: Token<Item>,
        cut: &Cut,
        parts: Vec<Option<Partition>>,
    ) -> (Token<Item>, Result<u64, Memory>)
        requires table { (words.now ≡ J.made.table) × (token.table ≡ J.made.table) }
        requires begun { IsCutBy J.made token.list token.caller cut.now }
        requires parts { ArePartsOf J.made.meta (map arc_value cut.now.changes.items) parts.items }
        ensures { (faults : ℕ) × IsCall J.made token result.0
            (record { caller = token.caller; act = end_act cut.now.ticket result.1; faults = faults } ∷ []) }
    {
        self.seat.take_in(words, token);
        let reply = end_with(alloc, &mut self.engine, cut.kind, cut.ticket, parts);
        note_end(&mut self.seat, words, &self.engine, cut.ticket, &reply);
        let token = self.seat.give_back(words);
        (token, reply)
    }
}
