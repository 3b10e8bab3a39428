//! The table of the two words, the seat that lies under the lock, and the callers' tokens.
ghost use Rattle.std.specs.Prelude.{◌≡◌, ◌≤◌, ◌+◌, ◌++◌, ◌∷◌, [], None, Some, IfOk, IfSome, IsSome};
ghost use Rattle.shared_engine.specs.Views.{own, Follows, IsOneOf, Settled};
ghost use Rattle.shared_engine.specs.Rule.{Names};

use crate::seat_steps::{Adds, Asks, Forgets, Law, Meets, Returns, Stamps, Takes, Tells};
use crate::views::{EntryName, Recorded, View};
use atomic_table::{Seat, Table};
use dh_base::memory::Memory;
use std::alloc::Global;
use std::marker::Model;

/// The two words. Contracts see which table it is.
#[derive(Drop)]
pub struct HistoryTable<E: Recorded> {
    table: Table<(), View<E>, (), Law<E>, Global>,
}

impl<E: Recorded> Model for HistoryTable<E> {
    ghost use Rattle.std.specs.Prelude.{◌≡◌};
    ghost use Rattle.atomic_table.specs.Seated.{TableId, table_id_coded};

    ghost Value = { TableId };

    ghost coded = { table_id_coded };

    ghost view = { λ words. words.table.shared.table_id };

    ghost invariant = { λ words. words.table.shared.table_id.words ≡ 2 };
}

/// The seat that lies under the lock. It knows the whole history.
#[derive(Drop)]
pub struct LockSeat<E> {
    seat: Seat<(), View<E>>,
}

impl<E> Model for LockSeat<E> {
    ghost use Rattle.std.specs.Prelude.{◌≡◌, None, []};
    ghost use Rattle.shared_engine.specs.Views.{LockView};
    ghost use Rattle.shared_engine.specs.declared.views.Role.TheVariants.{Lock};

    ghost Value = { LockView E };

    ghost view = { λ lock. record {
      table = lock.seat.table_id;
      list = lock.seat.me.0.list;
      told = lock.seat.me.0.told;
      count = lock.seat.me.0.count;
      taken = lock.seat.me.0.taken;
      gone = lock.seat.me.0.gone;
    } };

    ghost invariant = { λ lock. (lock.seat.id ≡ 0) × (lock.seat.me.1 ≡ []) × (lock.seat.me.0.role ≡ Lock) × (lock.seat.me.0.old ≡ None) };
}

/// A caller's token, which the caller gives away for the time of a call under the lock.
#[derive(Drop)]
pub struct Token<E> {
    seat: Seat<(), View<E>>,
}

impl<E> Model for Token<E> {
    ghost use Rattle.std.specs.Prelude.{◌≡◌, []};
    ghost use Rattle.shared_engine.specs.Views.{TokenView};
    ghost use Rattle.shared_engine.specs.declared.views.Role.TheVariants.{Caller};

    ghost Value = { TokenView E };

    ghost view = { λ token. record {
      table = token.seat.table_id;
      caller = token.seat.me.0.caller;
      list = token.seat.me.0.list;
      told = token.seat.me.0.told;
    } };

    ghost invariant = { λ token. (token.seat.me.1 ≡ []) × (token.seat.me.0.role ≡ Caller) };
}

/// The token of the first caller, who makes no entry: with it under the lock other callers come and go.
#[derive(Drop)]
pub struct FirstToken<E> {
    seat: Seat<(), View<E>>,
}

impl<E> Model for FirstToken<E> {
    ghost use Rattle.std.specs.Prelude.{◌≡◌, []};
    ghost use Rattle.shared_engine.specs.Views.{FirstView};
    ghost use Rattle.shared_engine.specs.declared.views.Role.TheVariants.{Caller};

    ghost Value = { FirstView E };

    ghost view = { λ first. record {
      table = first.seat.table_id;
      list = first.seat.me.0.list;
      count = first.seat.me.0.count;
      gone = first.seat.me.0.gone;
    } };

    ghost invariant = { λ first. (first.seat.me.1 ≡ []) × (first.seat.me.0.role ≡ Caller) × (first.seat.me.0.caller ≡ 0) };
}

impl<E: Recorded> HistoryTable<E> {
    /// Two words with an empty history and nothing told; the first caller is taken in.
    pub fn new(alloc: Global) -> Result<(HistoryTable<E>, LockSeat<E>), Memory>
        ensures { IfOk result (λ made. made.1 ≡ record { table = made.0; list = []; told = 0; count = 1; taken = Some 0; gone = [] }) }
    {
        let (table, seat) = Table::of_words(alloc, &[0, 0], &())?;
        Ok((HistoryTable { table }, LockSeat { seat }))
    }

    /// The number that was told last. It is no lower than any that this caller knew, and takes no lock.
    pub fn published(&self, token: &mut Token<E>) -> u64
        requires { token.old.table ≡ self.now }
        ensures told { token.new ≡ record token.old { told = result } }
        ensures rises { token.old.told ≤ result }
    {
        self.table.shared.load::<Asks>(&mut token.seat, 1)
    }
}

impl<E: Recorded> LockSeat<E> {
    /// The token of a new caller, who has no entry yet, while the first one is taken in.
    pub fn new_pass(&mut self, table: &HistoryTable<E>) -> Token<E>
        requires table { self.old.table ≡ table.now }
        requires first { self.old.taken ≡ Some 0 }
        ensures lock { self.new ≡ record self.old { count = self.old.count + 1 } }
        ensures token { result ≡ record { table = self.old.table; caller = self.old.count; list = self.old.list; told = self.old.told } }
        ensures none { own E.caller result.caller result.list ≡ [] }
    {
        table.table.shared.load::<Meets>(&mut self.seat, 0);
        let seat = table.table.shared.split_seat::<Adds>(&mut self.seat);
        Token { seat }
    }

    /// Takes in the first caller, who knows how many callers there are and who is gone.
    pub fn take_first(&mut self, table: &HistoryTable<E>, first: FirstToken<E>)
        requires table { (self.old.table ≡ table.now) × (first.table ≡ table.now) }
        requires nobody { self.old.taken ≡ None }
        ensures taken { self.new ≡ record self.old { taken = Some 0 } }
        ensures knows { (first.count ≡ self.old.count) × (first.gone ≡ self.old.gone) }
        ensures same { own E.caller 0 self.old.list ≡ own E.caller 0 first.list }
    {
        let FirstToken { seat } = first;
        table.table.shared.join_seat::<Takes>(&mut self.seat, seat);
        table.table.shared.load::<Meets>(&mut self.seat, 0);
    }

    /// Takes a caller's token back for good, while the first caller is taken in.
    pub fn forget(&mut self, table: &HistoryTable<E>, token: Token<E>)
        requires table { (self.old.table ≡ table.now) × (token.table ≡ table.now) }
        requires first { self.old.taken ≡ Some 0 }
        ensures { self.new ≡ record self.old { gone = self.old.gone ++ record { caller = token.caller; list = token.list } ∷ [] } }
    {
        let Token { seat } = token;
        table
            .table
            .shared
            .join_seat::<Forgets>(&mut self.seat, seat);
    }

    /// Gives the first caller its token back.
    pub fn first_back(&mut self, table: &HistoryTable<E>) -> FirstToken<E>
        requires table { self.old.table ≡ table.now }
        requires first { self.old.taken ≡ Some 0 }
        ensures lock { self.new ≡ record self.old { taken = None } }
        ensures token { result ≡ record { table = self.old.table; list = self.old.list; count = self.old.count; gone = self.old.gone } }
        ensures settled { Settled E.caller result.count result.gone result.list }
    {
        table.table.shared.load::<Meets>(&mut self.seat, 0);
        let seat = table.table.shared.split_seat::<Returns>(&mut self.seat);
        FirstToken { seat }
    }

    /// Takes in a caller: from now on its entries may be added.
    pub fn take_in(&mut self, table: &HistoryTable<E>, token: Token<E>)
        requires table { (self.old.table ≡ table.now) × (token.table ≡ table.now) }
        requires nobody { self.old.taken ≡ None }
        ensures taken { self.new ≡ record self.old { taken = Some token.caller } }
        ensures follows { Follows E.caller token self.new }
    {
        let Token { seat } = token;
        table.table.shared.join_seat::<Takes>(&mut self.seat, seat);
        table.table.shared.load::<Meets>(&mut self.seat, 0);
    }

    /// Gives the caller who is taken in its token back, which then knows the whole history.
    pub fn give_back(&mut self, table: &HistoryTable<E>) -> Token<E>
        requires table { self.old.table ≡ table.now }
        requires taken { IsSome self.old.taken }
        ensures lock { self.new ≡ record self.old { taken = None } }
        ensures token { IfSome self.old.taken (λ caller. result ≡ record
            { table = self.old.table; caller = caller; list = self.old.list; told = self.old.told }) }
    {
        let seat = table.table.shared.split_seat::<Returns>(&mut self.seat);
        Token { seat }
    }

    /// Adds an entry of the caller who is taken in.
    pub fn stamp<N: EntryName<E>>(&mut self, table: &HistoryTable<E>)
        requires table { self.old.table ≡ table.now }
        requires entry { IsOneOf E.caller self.old.taken N.added }
        ensures { self.new ≡ record self.old { list = self.old.list ++ N.added } }
    {
        table
            .table
            .shared
            .fetch_add::<Stamps<N>>(&mut self.seat, 0, 1);
    }

    /// Tells a number that an entry names and that is no lower than the one told last.
    pub fn tell(&mut self, table: &HistoryTable<E>, published: u64)
        requires table { self.old.table ≡ table.now }
        requires named { Names E.caller E.named self.old.list published }
        requires rises { self.old.told ≤ published }
        ensures { self.new ≡ record self.old { told = published } }
    {
        table
            .table
            .shared
            .fetch_max::<Tells>(&mut self.seat, 1, published);
    }
}
