//! The plain store, over three lists.
ghost use Rattle.std.specs.Prelude.{◌≡◌, ◌≤◌, ◌*◌, ◌^◌, List, ℤ, IsTrue, IfOk, unsigned_abs};
ghost use Rattle.table_rows.specs.Store.{is_store};

use crate::event::{EventRow, EventsAsked, RegRow};
use crate::plain;
use crate::row::{Group, Row};
use crate::store::RowStore;
use crate::sum::Sum;
use dh_base::items::Items;
use dh_base::memory::Memory;
use dh_base::plain::Need;
use std::alloc::Global;
use std::marker::Model;

/// A store that holds its lists as they are and looks through them at each call.
pub struct ListRows {
    rows: Vec<Row>,
    events: Vec<EventRow>,
    regs: Vec<RegRow>,
    years: Vec<i32>,
}

// By hand, so that it is proved here alone and not in each crate above.
impl Drop for ListRows {
    fn drop(self) {
        let ListRows {
            rows: _,
            events: _,
            regs: _,
            years: _,
        } = self;
    }
}

impl Model for ListRows {
    ghost use Rattle.std.specs.Prelude.{IsTrue};
    ghost use Rattle.table_rows.specs.Store.{Listed, is_store};

    ghost Value = { Listed };

    ghost view = { λ list. record { rows = list.rows.items; events = list.events.items; regs = list.regs.items; years = list.years.items } };

    ghost invariant = { λ list. IsTrue (is_store list.rows.items list.events.items list.regs.items list.years.items) };
}

impl ListRows {
    ghost use Rattle.table_rows.specs.Store.{Listed};

    /// The store of these lists, of which `is_store` says whether they are those of a store.
    pub fn of(rows: Vec<Row>, events: Vec<EventRow>, regs: Vec<RegRow>, years: Vec<i32>) -> ListRows
        requires { IsTrue (is_store rows.items events.items regs.items years.items) }
        ensures rows { result.rows ≡ rows.items }
        ensures events { result.events ≡ events.items }
        ensures regs { result.regs ≡ regs.items }
        ensures years { result.years ≡ years.items }
    {
        ListRows {
            rows,
            events,
            regs,
            years,
        }
    }
}

impl RowStore for ListRows {
    ghost rows = { λ list. list.rows };

    ghost events = { λ list. list.events };

    ghost regs = { λ list. list.regs };

    ghost built = { λ list. list.years };

    fn groups(&self, alloc: Global, element: u32) -> Result<Items<Group>, Memory> {
        plain::groups(alloc, &self.rows, element)
    }

    fn range_sum(&self, group: Group, need: Need, from: u32, to: u32) -> Sum {
        plain::range_sum(&self.rows, &group, need, from, to)
    }

    fn rows_of(
        &self,
        alloc: Global,
        group: Group,
        need: Need,
        from: u32,
        to: u32,
    ) -> Result<Items<Row>, Memory> {
        plain::rows_of(alloc, &self.rows, &group, need, from, to)
    }

    fn lend_events(
        &self,
        alloc: Global,
        program: u32,
        from_day: i32,
        to_day: i32,
    ) -> Result<Vec<&EventRow>, Memory> {
        let asked = EventsAsked {
            program,
            from_day,
            to_day,
        };
        plain::events_of(alloc, &self.events, &asked)
    }

    fn regs_of(&self, alloc: Global, set: u32) -> Result<Items<RegRow>, Memory> {
        plain::regs_of(alloc, &self.regs, set)
    }

    fn years(&self) -> &[i32] {
        &self.years
    }
}
