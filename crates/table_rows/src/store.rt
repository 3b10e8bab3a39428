//! What a store of rows promises.
ghost use Rattle.std.specs.Prelude.{◌≡◌, ◌≤◌, ◌*◌, ◌^◌, List, ℤ, IsTrue, IfOk, map, unsigned_abs};
ghost use Rattle.table_rows.specs.declared.event.EventRow.{EventRow};
ghost use Rattle.table_rows.specs.declared.event.RegRow.{RegRow};
ghost use Rattle.table_rows.specs.declared.row.Row.{Row};
ghost use Rattle.table_rows.specs.Events.{events_of, regs_of};
ghost use Rattle.table_rows.specs.Groups.{groups_of};
ghost use Rattle.table_rows.specs.Rows.{wanted_rows};
ghost use Rattle.table_rows.specs.Store.{is_store};
ghost use Rattle.table_rows.specs.Sums.{sum_of_rows, IsSized};

use crate::event::{EventRow, RegRow, copies};
use crate::row::{Group, Row};
use crate::sum::Sum;
use dh_base::items::Items;
use dh_base::memory::Memory;
use dh_base::plain::Need;
use std::alloc::Global;

/// A store stands for three plain lists, of rows, of events and of registrations, each in its order
/// and of at most 4,194,304 members. What each call answers is a part of these lists.
pub trait RowStore {
    /// The rows that it stands for.
    ghost rows: { Self → List Row };

    /// The events.
    ghost events: { Self → List EventRow };

    /// The registrations.
    ghost regs: { Self → List RegRow };

    /// The years that were built.
    ghost built: { Self → List ℤ };

    /// The groups of the element that have a row, in order, each once.
    fn groups(&self, alloc: Global, element: u32) -> Result<Items<Group>, Memory>
        ensures groups { IfOk result (λ groups. groups ≡ groups_of element (rows self.now)) }
        ensures store { IsTrue
            (is_store (rows self.now) (events self.now) (regs self.now) (built self.now)) };

    /// The sum of the rows of the group that meet the need and whose order is from `from` up to
    /// below `to`. It is small enough that callers can add many.
    fn range_sum(&self, group: Group, need: Need, from: u32, to: u32) -> Sum
        ensures sum { result ≡ sum_of_rows (wanted_rows group need from to (rows self.now)) }
        ensures size { IsSized result };

    /// These rows themselves, in row order.
    fn rows_of(
        &self,
        alloc: Global,
        group: Group,
        need: Need,
        from: u32,
        to: u32,
    ) -> Result<Items<Row>, Memory>
        ensures rows { IfOk result
            (λ found. found ≡ wanted_rows group need from to (rows self.now)) }
        ensures store { IsTrue
            (is_store (rows self.now) (events self.now) (regs self.now) (built self.now)) };

    /// The events of the program from the one day to the other, both counted, by day and identifier. The store lends them.
    fn lend_events(
        &self,
        alloc: Global,
        program: u32,
        from_day: i32,
        to_day: i32,
    ) -> Result<Vec<&EventRow>, Memory>
        ensures events { IfOk result
            (λ found. map (λ event. event.now) found.items ≡ events_of program from_day to_day (events self.now)) }
        ensures store { IsTrue
            (is_store (rows self.now) (events self.now) (regs self.now) (built self.now)) };

    /// Copies of the events of the program from the one day to the other, both counted, by day and identifier.
    fn events_of(
        &self,
        alloc: Global,
        program: u32,
        from_day: i32,
        to_day: i32,
    ) -> Result<Items<EventRow>, Memory>
        ensures events { IfOk result
            (λ found. found ≡ events_of program from_day to_day (events self.now)) }
        ensures store { IsTrue
            (is_store (rows self.now) (events self.now) (regs self.now) (built self.now)) }
    {
        let lent = self.lend_events(alloc, program, from_day, to_day)?;
        copies(alloc, &lent)
    }

    /// The registrations of the data set, by period, unit and attribute combination.
    fn regs_of(&self, alloc: Global, set: u32) -> Result<Items<RegRow>, Memory>
        ensures regs { IfOk result (λ found. found ≡ regs_of set (regs self.now)) }
        ensures store { IsTrue
            (is_store (rows self.now) (events self.now) (regs self.now) (built self.now)) };

    /// The years that were built, ascending.
    fn years(&self) -> &[i32]
        ensures years { result.now ≡ built self.now }
        ensures store { IsTrue
            (is_store (rows self.now) (events self.now) (regs self.now) (built self.now)) };
}
