//! The lock, the words beside it, and the passes of its callers.
ghost use Rattle.std.specs.Prelude.{◌≡◌, ◌≤◌, ◌+◌, ◌++◌, ◌∷◌, [], ℕ, List, IfOk, take};
ghost use Rattle.std.specs.Arc.{arc_value};
ghost use Rattle.value_import.specs.Outcomes.{IsKnown};
ghost use Rattle.table_rows.specs.Store.{contents_in};
ghost use Rattle.shared_engine.specs.Views.{known_of, own, Settled};
ghost use Rattle.engine.specs.Machine.{start};
ghost use Rattle.engine.specs.Machine.Act.{changed, looked};
ghost use Rattle.engine.specs.Seen.{published_in};
ghost use Rattle.engine.specs.Stands.{Stands};
ghost use Rattle.engine.specs.Tables.{tables_of};
ghost use Rattle.shared_engine.specs.Entries.{Entry, entries_of, caller_of};
ghost use Rattle.shared_engine.specs.Histories.{stand_of, IsLegal};
ghost use Rattle.shared_engine.specs.Ends.{answer_of};
ghost use Rattle.shared_engine.specs.Calls.{IsCall, IsUpdate};

use crate::builds::build_parts;
use crate::locked::Locked;
use crate::names::{Item, Naming};
use crate::notes::{Changed, Looked, note};
use crate::{FirstToken, Gate, HistoryTable, LockSeat, Token};
use dh_base::memory::Memory;
use dh_base::plain::CutKind;
use dh_changes::outcome::Who;
use dh_metadata::metadata::Metadata;
use dh_outside::Keeper;
use engine::{ChangeFault, ChangeRequest, CutFault, Engine, LookFault, Report, View};
use std::alloc::Global;
use std::marker::{Model, PhantomData};
use std::sync::{Arc, Mutex, Wait};
use std::thread::Threads;

/// A caller's pass. Contracts see the caller, the history as its last call left it, and the greatest number that it was told.
#[derive(Drop)]
pub struct Pass<J: Naming> {
    token: Option<Token<Item>>,
    of: PhantomData<J>,
}

impl<J: Naming> Model for Pass<J> {
    ghost use Rattle.std.specs.Prelude.{◌≡◌, unwrap_or, IfSome, IsSome};
    ghost use Rattle.shared_engine.specs.Views.{TokenView};
    ghost use Rattle.shared_engine.specs.Entries.{Entry};
    ghost use Rattle.shared_engine.specs.Calls.{no_token};

    ghost Value = { TokenView Entry };

    ghost view = { λ pass. unwrap_or pass.token no_token };

    ghost invariant = { λ pass. IsSome pass.token × ((unwrap_or pass.token no_token).table ≡ J.made.table) };
}

/// Who hands out passes and takes them back. Contracts see the history as its last call left it, how many callers there are, and who of them
/// is gone, with what they knew last. It is the first caller itself, and makes no call.
#[derive(Drop)]
pub struct Callers<J: Naming> {
    token: Option<FirstToken<Item>>,
    of: PhantomData<J>,
}

impl<J: Naming> Model for Callers<J> {
    ghost use Rattle.std.specs.Prelude.{unwrap_or, IsSome};
    ghost use Rattle.shared_engine.specs.Views.{FirstView};
    ghost use Rattle.shared_engine.specs.Entries.{Entry};
    ghost use Rattle.shared_engine.specs.Calls.{no_first, IsFirst};

    ghost Value = { FirstView Entry };

    ghost view = { λ callers. unwrap_or callers.token no_first };

    ghost invariant = { λ callers. IsSome callers.token × IsFirst J.made (unwrap_or callers.token no_first) };
}

impl<J: Naming> Callers<J> {
    /// Tells what is known in the end: a legal history, in which the first caller has no entry, with all entries of those who are gone.
    pub fn close(self)
        ensures legal { IsLegal J.made self.list }
        ensures none { own caller_of 0 self.list ≡ [] }
        ensures settled { Settled caller_of self.count self.gone self.list }
    {
        let Callers { token: _, of: _ } = self;
    }
}

/// The engine that threads share.
#[derive(Drop)]
pub struct Shared<J: Naming, K: Keeper> {
    words: HistoryTable<Item>,
    meta: Arc<Metadata>,
    lock: Mutex<Locked<J, K>>,
}

impl<J: Naming, K: Keeper> Model for Shared<J, K> {
    ghost use Rattle.std.specs.Prelude.{◌≡◌, ℕ};
    ghost use Rattle.std.specs.Arc.{arc_value};

    ghost Value = { ℕ };

    ghost view = { λ _. 0 };

    ghost invariant = { λ shared. (shared.words ≡ J.made.table) × (arc_value shared.meta ≡ J.made.meta) };
}

/// An engine with words of its own and an empty history, which has no name yet. Contracts see what it is made for.
#[derive(Drop)]
pub struct Opened<K: Keeper> {
    words: HistoryTable<Item>,
    seat: LockSeat<Item>,
    meta: Arc<Metadata>,
    engine: Engine<K>,
}

impl<K: Keeper> Model for Opened<K> {
    ghost use Rattle.std.specs.Coded.{codes};
    ghost use Rattle.expr_lang.specs.contracts.expr.Expr as expression;
    ghost use Rattle.std.specs.Prelude.{◌≡◌, [], Some};
    ghost use Rattle.std.specs.Arc.{arc_value};
    ghost use Rattle.engine.specs.Machine.{start};
    ghost use Rattle.shared_engine.specs.Histories.{Made};

    ghost Value = { Made };

    ghost coded = { Prim.hlevel (codes, expression.the_row.coded) };

    ghost view = { λ opened. record {
      table = opened.words;
      meta = arc_value opened.meta;
      limits = opened.engine.limits;
      opening = opened.engine.faults;
    } };

    ghost invariant = { λ opened.
        (opened.seat ≡ record { table = opened.words; list = []; told = 0; count = 1; taken = Some 0; gone = [] })
        × (opened.engine.state ≡ start) × (opened.engine.meta ≡ arc_value opened.meta) };
}

impl<K: Keeper> Opened<K> {
    /// Puts the engine and the history under a lock, at which nobody has been. The name says which system it is.
    pub fn named<J: Naming>(self) -> (Shared<J, K>, Callers<J>)
        requires { self ≡ J.made }
        ensures { (result.1.count ≡ 1) × (result.1.gone ≡ []) }
    {
        let Opened {
            words,
            seat,
            meta,
            engine,
        } = self;
        let mut seat = seat;
        let token = Some(seat.first_back(&words));
        let lock = Mutex::new(Locked {
            engine,
            seat,
            of: PhantomData,
        });
        let callers = Callers {
            token,
            of: PhantomData,
        };
        (Shared { words, meta, lock }, callers)
    }
}

/// Gives an engine in the start state words that count its history. `meta` is the engine's metadata.
pub fn open<K: Keeper>(
    alloc: Global,
    engine: Engine<K>,
    meta: Arc<Metadata>,
) -> Result<Opened<K>, Memory>
    requires start { engine.state ≡ start }
    requires meta { engine.meta ≡ arc_value meta }
    ensures { IfOk result (λ opened. (opened.meta ≡ engine.meta) × (opened.limits ≡ engine.limits) × (opened.opening ≡ engine.faults)) }
{
    match HistoryTable::new(alloc) {
        Ok((words, seat)) => Ok(Opened {
            words,
            seat,
            meta,
            engine,
        }),
        Err(fault) => {
            drop(engine);
            drop(meta);
            Err(fault)
        }
    }
}

impl<J: Naming, K: Keeper> Shared<J, K> {
    /// A new caller's pass, which is told what is published.
    pub fn pass<R: Wait>(&self, rt: &R, callers: &mut Callers<J>) -> Pass<J>
        ensures counts { (callers.new.count ≡ callers.old.count + 1) × (callers.new.gone ≡ callers.old.gone) }
        ensures none { own caller_of result.caller result.list ≡ [] }
        ensures legal { IsLegal J.made result.list }
        ensures told { result.told ≡ (stand_of J.made result.list).machine.published }
    {
        let first = callers.token.take().unwrap();
        let mut locked = self.lock.lock(rt);
        let seat = &mut locked.seat;
        seat.take_first(&self.words, first);
        let token = seat.new_pass(&self.words);
        let first = seat.first_back(&self.words);
        callers.token = Some(first);
        Pass {
            token: Some(token),
            of: PhantomData,
        }
    }

    /// Takes a pass back for good. The callers then know the whole history, and what this one knew last.
    pub fn take_back<R: Wait>(&self, rt: &R, callers: &mut Callers<J>, pass: Pass<J>)
        ensures { (callers.new.count ≡ callers.old.count) × (callers.new.gone ≡ callers.old.gone ++ known_of pass ∷ []) }
    {
        let Pass { token, of: _ } = pass;
        let token = token.unwrap();
        let first = callers.token.take().unwrap();
        let mut locked = self.lock.lock(rt);
        let seat = &mut locked.seat;
        seat.take_first(&self.words, first);
        seat.forget(&self.words, token);
        let first = seat.first_back(&self.words);
        callers.token = Some(first);
    }

    /// The metadata.
    pub fn meta(&self) -> &Metadata
        ensures { result.now ≡ J.made.meta }
    {
        &self.meta
    }

    /// The number that was told last, which is no lower than any that this caller was told. It takes no lock.
    pub fn published(&self, pass: &mut Pass<J>) -> u64
        ensures told { pass.new ≡ record pass.old { told = result } }
        ensures rises { pass.old.told ≤ result }
    {
        let mut token = pass.token.take().unwrap();
        let published = self.words.published(&mut token);
        pass.token = Some(token);
        published
    }

    /// Changes the log as the request says.
    pub fn change<R: Wait>(
        &self,
        rt: &R,
        alloc: Global,
        pass: &mut Pass<J>,
        who: Who,
        moment: i64,
        request: &ChangeRequest,
    ) -> Result<Report, ChangeFault>
        requires { IsKnown J.made.meta who }
        ensures { (faults : ℕ) × IsCall J.made pass.old pass.new
            (entries_of pass.old.caller (changed (record { who = who; moment = moment; request = request.now }) result) faults) }
    {
        let token = pass.token.take().unwrap();
        let mut guard = self.lock.lock(rt);
        let locked = &mut *guard;
        locked.seat.take_in(&self.words, token);
        let reply = locked.engine.change(alloc, who, moment, request);
        let call = Changed {
            who,
            moment,
            request,
            reply: &reply,
        };
        note(&mut locked.seat, &self.words, &locked.engine, &call);
        let token = locked.seat.give_back(&self.words);
        pass.token = Some(token);
        reply
    }

    /// The tables, if so many changes are published.
    pub fn look<R: Wait>(&self, rt: &R, pass: &mut Pass<J>, asked: u64) -> Result<View, LookFault>
        ensures call { (faults : ℕ) × IsCall J.made pass.old pass.new (entries_of pass.old.caller (looked asked (published_in result)) faults) }
        ensures tables { IfOk result (λ view. contents_in (arc_value view.tables).all
            ≡ tables_of J.made.meta (take view.published (stand_of J.made pass.new.list).machine.log)) }
        ensures stands { IfOk result (λ view. Stands J.made.meta (stand_of J.made pass.new.list).machine.log
            (stand_of J.made pass.new.list).machine.base_cut view.published (arc_value view.tables)) }
        ensures told { IfOk result (λ view. view.published ≡ pass.new.told) }
    {
        let token = pass.token.take().unwrap();
        let mut guard = self.lock.lock(rt);
        let locked = &mut *guard;
        locked.seat.take_in(&self.words, token);
        let reply = locked.engine.look(asked);
        let call = Looked {
            asked,
            reply: &reply,
        };
        note(&mut locked.seat, &self.words, &locked.engine, &call);
        let token = locked.seat.give_back(&self.words);
        pass.token = Some(token);
        reply
    }

    /// Makes new tables and answers how many changes they stand for. It is begun under the lock; then so many workers build the parts
    /// of its years outside the lock, each of which calls the gate before it builds a year; under the lock again the parts are handed
    /// in and it is ended. Other callers' calls may come between its beginning and its end. The parts for which there was no memory
    /// are built under the lock; if there is none then, the update is dropped. A latest update has no years: its part is made as it is
    /// begun, of what changed since the last full one.
    pub fn update<R: Threads + Wait + Sync, G: Gate + Sync>(
        &self,
        rt: &R,
        alloc: Global,
        pass: &mut Pass<J>,
        kind: CutKind,
        workers: u32,
        gate: &G,
    ) -> Result<u64, CutFault>
        ensures { (entries : List Entry) × IsCall J.made pass.old pass.new entries × IsUpdate pass.old.caller kind result entries }
    {
        let token = pass.token.take().unwrap();
        let (token, answer) = self.update_by(rt, alloc, token, kind, workers, gate);
        pass.token = Some(token);
        answer
    }

    #[tactic(auto, using(crate::proofs::Calls::update_refused))]
    fn update_by<R: Threads + Wait + Sync, G: Gate + Sync>(
        &self,
        rt: &R,
        alloc: Global,
        token: Token<Item>,
        kind: CutKind,
        workers: u32,
        gate: &G,
    ) -> (Token<Item>, Result<u64, CutFault>)
        requires { token.table ≡ J.made.table }
        ensures { (entries : List Entry) × IsCall J.made token result.0 entries × IsUpdate token.caller kind result.1 entries }
    {
        let (token, begun) = self.lock.lock(rt).cut(alloc, &self.words, token, kind);
        match begun {
            Ok(cut) => {
                // Nobody has to wait for the lock meanwhile.
                let parts = build_parts(rt, alloc, self.meta(), &cut, workers, gate);
                let (token, ended) = self
                    .lock
                    .lock(rt)
                    .finish(alloc, &self.words, token, &cut, parts);
                (token, answer_of(ended))
            }
            Err(fault) => (token, Err(fault)),
        }
    }
}

fn answer_of(ended: Result<u64, Memory>) -> Result<u64, CutFault>
    ensures { result ≡ answer_of ended }
{
    match ended {
        Ok(number) => Ok(number),
        Err(_) => Err(CutFault::Memory),
    }
}
