//! The rows of a group between two orders, one approved position after the other.
ghost use Rattle.std.specs.Prelude.{◌≡◌, ◌+◌, ◌-◌, ◌*◌, ◌≤◌, ◌<◌, ◌^◌, ◌++◌, ℕ, true, All, max, min, length, take, drop, OnOk, IfOk};
ghost use Rattle.std.specs.List.{filter};
ghost use Rattle.table_rows.specs.Order.{row_cmp};
ghost use Rattle.table_rows.specs.Rows.{wanted_rows};
ghost use Rattle.table_rows.specs.Store.{rises};
ghost use Rattle.table_rows.specs.Sums.{sum_of_rows, joined, IsSized};
ghost use Rattle.table_sums.specs.Bounds.{is_before, IsCut};
ghost use Rattle.table_sums.specs.Parts.{is_upto, bound_of, key_at, AreEnough};
ghost use Rattle.table_sums.specs.Running.{IsPlaced};

use crate::rows::Rows;
use crate::running::RunningRows;
use crate::search::{place_between, place_in};
use crate::steps::Steps;
use dh_base::items::Items;
use dh_base::memory::Memory;
use dh_base::plain::Need;
use std::alloc::Global;
use std::sync::ledger::Ledger;
use table_rows::{Group, Row, RowKey, Sum};

/// The rows of a group whose order is from `from` up to below `to`.
#[derive(Clone, Copy)]
pub struct Part {
    pub group: Group,
    pub from: u32,
    pub to: u32,
}

fn key_at(part: &Part, position: u16, order: u32) -> RowKey
    ensures { result ≡ key_at part.now position order }
{
    RowKey {
        group: part.group,
        position,
        order,
    }
}

// Where the rows of the part at a position have ended that begin at a place, before the end of their group: no two of them have one
// order.
fn end_of(part: &Part, low: usize, high: usize) -> usize
    requires { low ≤ high }
    ensures { result ≡ low + min (high - low) (max part.now.to part.now.from - part.now.from) }
{
    let width = part.to.max(part.from) - part.from;
    low + (high - low).min(width as usize)
}

// Where the rows of the part at a position begin and end.
fn run_of<L: Ledger>(
    rows: &Rows,
    part: &Part,
    position: u16,
    steps: &mut Steps<L>,
) -> (usize, usize)
    requires { rises row_cmp rows.now ≡ true }
    ensures low { IsCut (is_before (bound_of part.now position part.now.from)) rows.now result.0 }
    ensures high { IsCut (is_before (bound_of part.now position (max part.now.to part.now.from))) rows.now result.1 }
    ensures cost { (d : ℕ) → length rows.now < 2 ^ d → steps.new ≤ steps.old + 2 * d }
{
    let span = rows.span_of(&part.group);
    let low = place_in(rows, &key_at(part, position, part.from), span, steps);
    let end = end_of(part, low, span.high);
    let last = key_at(part, position, part.to.max(part.from));
    let high = place_between(rows, &last, low, end, steps);
    (low, high)
}

fn joined_sums(first: &Sum, more: &Sum) -> Sum
    requires first { IsSized first.now }
    requires more { IsSized more.now }
    ensures { result ≡ joined first.now more.now }
{
    first.join(more)
}

// The sum of the rows up to this position, from the sum of those before it.
fn add_position<L: Ledger>(
    list: &RunningRows,
    part: &Part,
    position: u16,
    sum: &Sum,
    steps: &mut Steps<L>,
) -> Sum
    requires { sum.now ≡ sum_of_rows (filter (is_upto part.now position) list.now) }
    ensures sum { result ≡ sum_of_rows (filter (is_upto part.now (position + 1)) list.now) }
    ensures size { IsSized result }
    ensures cost { (d : ℕ) → length list.now < 2 ^ d → steps.new ≤ steps.old + 2 * d }
{
    let (low, high) = run_of(list.rows(), part, position, steps);
    joined_sums(sum, &list.sum_between(low, high))
}

fn sum_upto<L: Ledger>(list: &RunningRows, part: &Part, positions: u16, steps: &mut Steps<L>) -> Sum
    ensures sum { result ≡ sum_of_rows (filter (is_upto part.now positions) list.now) }
    ensures size { IsSized result }
    ensures cost { (d : ℕ) → length list.now < 2 ^ d → steps.new ≤ steps.old + 2 * d * positions }
{
    let mut sum = Sum::none();
    for position in 0..positions {
        sum = add_position(list, part, position, &sum, steps);
    }
    sum
}

// How many positions there are of those at which rows stand that meet the need.
fn positions_for(list: &RunningRows, need: Need) -> u16
    ensures few { All (IsPlaced 8) list.now → result ≤ 8 }
    ensures enough { AreEnough need list.now result }
{
    let positions = list.positions();
    match need {
        Need::All => positions,
        Need::Upto(most) => (u16::from(most) + 1).min(positions),
    }
}

/// The sum of the rows of the part that meet the need. It reads at most eighteen times as many rows as the number of
/// rows has binary digits, where approved positions are below eight.
pub fn sum_of_part<L: Ledger>(
    list: &RunningRows,
    part: &Part,
    need: Need,
    steps: &mut Steps<L>,
) -> Sum
    ensures sum { result ≡ sum_of_rows (wanted_rows part.now.group need part.now.from part.now.to list.now) }
    ensures size { IsSized result }
    ensures cost { (d : ℕ) → All (IsPlaced 8) list.now → length list.now < 2 ^ d → steps.new ≤ steps.old + 18 * d }
{
    let positions = positions_for(list, need);
    let sum = sum_upto(list, part, positions, steps);
    match need {
        Need::All => add_position(list, part, 256, &sum, steps),
        Need::Upto(_) => sum,
    }
}

// Adds the rows between two places.
fn push_rows<L: Ledger>(
    found: &mut Vec<Row>,
    rows: &Rows,
    low: usize,
    high: usize,
    steps: &mut Steps<L>,
) -> Result<(), Memory>
    requires upto { low ≤ high }
    requires within { high ≤ length rows.now }
    ensures { OnOk result (found.new.items ≡ found.old.items ++ drop low (take high rows.now)) }
{
    for place in low..high {
        found.push(rows.row(place, steps))?;
    }
    Ok(())
}

fn push_position<L: Ledger>(
    found: &mut Vec<Row>,
    rows: &Rows,
    part: &Part,
    position: u16,
    steps: &mut Steps<L>,
) -> Result<(), Memory>
    requires rise { rises row_cmp rows.now ≡ true }
    requires found { found.old.items ≡ filter (is_upto part.now position) rows.now }
    ensures { OnOk result (found.new.items ≡ filter (is_upto part.now (position + 1)) rows.now) }
{
    let (low, high) = run_of(rows, part, position, steps);
    push_rows(found, rows, low, high, steps)?;
    Ok(())
}

fn rows_upto<L: Ledger>(
    alloc: Global,
    rows: &Rows,
    part: &Part,
    positions: u16,
    steps: &mut Steps<L>,
) -> Result<Vec<Row>, Memory>
    requires { rises row_cmp rows.now ≡ true }
    ensures { IfOk result (λ found. found.items ≡ filter (is_upto part.now positions) rows.now) }
{
    let mut found: Vec<Row> = Vec::new(alloc);
    for position in 0..positions {
        push_position(&mut found, rows, part, position, steps)?;
    }
    Ok(found)
}

/// The rows of the part that meet the need, in row order.
pub fn rows_of_part<L: Ledger>(
    alloc: Global,
    list: &RunningRows,
    part: &Part,
    need: Need,
    steps: &mut Steps<L>,
) -> Result<Items<Row>, Memory>
    ensures { IfOk result (λ found. found ≡ wanted_rows part.now.group need part.now.from part.now.to list.now) }
{
    let rows = list.rows();
    let positions = positions_for(list, need);
    let mut found = rows_upto(alloc, rows, part, positions, steps)?;
    match need {
        Need::All => {
            push_position(&mut found, rows, part, 256, steps)?;
            Ok(Items::from(found))
        }
        Need::Upto(_) => Ok(Items::from(found)),
    }
}
