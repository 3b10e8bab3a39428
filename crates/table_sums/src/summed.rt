//! The store that keeps running sums of its rows.
ghost use Rattle.std.specs.Prelude.{◌≡◌, ◌<◌, IsTrue, IfOk};
ghost use Rattle.table_rows.specs.Groups as known;
ghost use Rattle.table_rows.specs.Rows.{wanted_rows};
ghost use Rattle.table_rows.specs.Store.{is_store};
ghost use Rattle.table_rows.specs.Sums.{sum_of_rows, IsSized};

use crate::days::events_between;
use crate::groups::groups_of;
use crate::range::{Part, rows_of_part, sum_of_part};
use crate::running::RunningRows;
use crate::steps::Steps;
use dh_base::items::Items;
use dh_base::memory::Memory;
use dh_base::plain::Need;
use std::alloc::Global;
use std::marker::{Brand, Model};
use std::sync::ledger::{Blank, Ledger};
use table_rows::{EventRow, EventsAsked, Group, ListRows, RegRow, Row, RowStore, Sum};

/// A store that finds rows by binary search and takes sums as differences of running sums.
pub struct SummedRows {
    list: RunningRows,
    events: Vec<EventRow>,
    // the registrations and years
    rest: ListRows,
}

// By hand, so that it is proved here alone and not in each crate above.
impl Drop for SummedRows {
    fn drop(self) {
        let SummedRows {
            list: _,
            events: _,
            rest: _,
        } = self;
    }
}

impl Model for SummedRows {
    ghost use Rattle.std.specs.Prelude.{IsTrue};
    ghost use Rattle.table_rows.specs.Store.{Listed, is_store};

    ghost Value = { Listed };

    ghost view = { λ store. record { rows = store.list; events = store.events.items; regs = store.rest.regs; years = store.rest.years } };

    ghost invariant = { λ store. IsTrue (is_store store.list store.events.items store.rest.regs store.rest.years) };
}

/// The store of these lists. Of the rows each takes 40 bytes.
pub fn with_sums(
    alloc: Global,
    rows: &[Row],
    events: Vec<EventRow>,
    regs: Vec<RegRow>,
    years: Vec<i32>,
) -> Result<SummedRows, Memory>
    requires { IsTrue (is_store rows.now events.items regs.items years.items) }
    ensures rows { IfOk result (λ store. store.rows ≡ rows.now) }
    ensures events { IfOk result (λ store. store.events ≡ events.items) }
    ensures regs { IfOk result (λ store. store.regs ≡ regs.items) }
    ensures years { IfOk result (λ store. store.years ≡ years.items) }
{
    let list = RunningRows::of(alloc, rows)?;
    let rest = ListRows::of(Vec::new(alloc), Vec::new(alloc), regs, years);
    Ok(SummedRows { list, events, rest })
}

// For a caller that counts nothing.
fn groups_from<L: Ledger>(
    alloc: Global,
    blank: Blank,
    list: &RunningRows,
    element: u32,
) -> Result<Items<Group>, Memory>
    requires name { blank.name ≡ L.name }
    requires parts { blank.parts ≡ L.parts }
    requires one { blank.parts ≡ 1 }
    ensures { IfOk result (λ groups. groups ≡ known.groups_of element list.now) }
{
    let mut steps: Steps<L> = Steps::of(blank);
    groups_of(alloc, list.rows(), element, &mut steps)
}

fn sum_from<L: Ledger>(blank: Blank, list: &RunningRows, part: &Part, need: Need) -> Sum
    requires name { blank.name ≡ L.name }
    requires parts { blank.parts ≡ L.parts }
    requires one { blank.parts ≡ 1 }
    ensures sum { result ≡ sum_of_rows (wanted_rows part.now.group need part.now.from part.now.to list.now) }
    ensures size { IsSized result }
{
    let mut steps: Steps<L> = Steps::of(blank);
    sum_of_part(list, part, need, &mut steps)
}

fn rows_from<L: Ledger>(
    alloc: Global,
    blank: Blank,
    list: &RunningRows,
    part: &Part,
    need: Need,
) -> Result<Items<Row>, Memory>
    requires name { blank.name ≡ L.name }
    requires parts { blank.parts ≡ L.parts }
    requires one { blank.parts ≡ 1 }
    ensures { IfOk result (λ found. found ≡ wanted_rows part.now.group need part.now.from part.now.to list.now) }
{
    let mut steps: Steps<L> = Steps::of(blank);
    rows_of_part(alloc, list, part, need, &mut steps)
}

impl SummedRows {
    /// The rows in their order, of which each read is counted.
    pub fn running(&self) -> &RunningRows
        ensures { result.now ≡ self.now.rows }
    {
        &self.list
    }
}

impl RowStore for SummedRows {
    ghost rows = { λ store. store.rows };

    ghost events = { λ store. store.events };

    ghost regs = { λ store. store.regs };

    ghost built = { λ store. store.years };

    fn groups(&self, alloc: Global, element: u32) -> Result<Items<Group>, Memory> {
        groups_from::<Brand>(alloc, Blank::new(1), &self.list, element)
    }

    fn range_sum(&self, group: Group, need: Need, from: u32, to: u32) -> Sum {
        sum_from::<Brand>(Blank::new(1), &self.list, &Part { group, from, to }, need)
    }

    fn rows_of(
        &self,
        alloc: Global,
        group: Group,
        need: Need,
        from: u32,
        to: u32,
    ) -> Result<Items<Row>, Memory> {
        let part = Part { group, from, to };
        rows_from::<Brand>(alloc, Blank::new(1), &self.list, &part, need)
    }

    #[tactic(auto, using(crate::proofs::DayLemmas::events_up))]
    fn lend_events(
        &self,
        alloc: Global,
        program: u32,
        from_day: i32,
        to_day: i32,
    ) -> Result<Vec<&EventRow>, Memory> {
        let asked = EventsAsked {
            program,
            from_day,
            to_day,
        };
        events_between(alloc, &self.events, &asked)
    }

    fn regs_of(&self, alloc: Global, set: u32) -> Result<Items<RegRow>, Memory> {
        self.rest.regs_of(alloc, set)
    }

    fn years(&self) -> &[i32] {
        self.rest.years()
    }
}
