//! Rows with running sums beside them.
ghost use Rattle.std.specs.Prelude.{◌≡◌, ◌+◌, ◌-◌, ◌-ℤ◌, ◌≤◌, ◌<◌, ◌^◌, ◌∷◌, ◌++◌, [], ℕ, ℤ, pos, true, All, unsigned_abs, length, take, drop, get_or};
ghost use Rattle.std.specs.Prelude.{IfOk, OnOk};
ghost use Rattle.table_rows.specs.Order.{row_cmp};
ghost use Rattle.table_rows.specs.Store.{rises};
ghost use Rattle.table_rows.specs.Sums.{sum_of_rows};
ghost use Rattle.table_sums.specs.Running.{AreSums, ArePlaced, IsFit, IsPlaced};
ghost use Rattle.dh_base.specs.declared.limits.TheConstants.{MOST_RECORDS};

use crate::rows::Rows;
use dh_base::memory::Memory;
use std::alloc::Global;
use std::marker::Model;
use table_rows::{Row, Sum};

/// In place i the sum of the numbers of the first i rows, and how many of these have one: 20 bytes a row.
#[derive(Drop)]
pub struct Sums {
    micros: Vec<i128>,
    plain: Vec<u32>,
}

fn put_sum(sums: &mut Sums, sum: &Sum) -> Result<(), Memory>
    requires { sum.now.plain < 2 ^ 32 }
    ensures micros { OnOk result (sums.new.micros.items ≡ sums.old.micros.items ++ sum.now.micros ∷ []) }
    ensures plain { OnOk result (sums.new.plain.items ≡ sums.old.plain.items ++ sum.now.plain ∷ []) }
{
    sums.micros.push(sum.micros)?;
    sums.plain.push(sum.plain as u32)?;
    Ok(())
}

// A list of one member, with room for so many more.
fn list_from<T: Copy>(alloc: Global, first: T, more: usize) -> Result<Vec<T>, Memory>
    ensures { IfOk result (λ list. list.items ≡ first ∷ []) }
{
    let mut list = Vec::new(alloc);
    list.reserve(more)?;
    list.push(first)?;
    Ok(list)
}

fn first_sum(alloc: Global, count: usize) -> Result<Sums, Memory>
    ensures micros { IfOk result (λ sums. sums.micros.items ≡ pos 0 ∷ []) }
    ensures plain { IfOk result (λ sums. sums.plain.items ≡ 0 ∷ []) }
{
    let micros = list_from(alloc, 0i128, count)?;
    let plain = list_from(alloc, 0u32, count)?;
    Ok(Sums { micros, plain })
}

fn sums_of(alloc: Global, rows: &[Row]) -> Result<Sums, Memory>
    requires { length rows.now ≤ MOST_RECORDS }
    ensures sums { IfOk result (λ sums. AreSums rows.now (length rows.now) sums.micros.items sums.plain.items) }
    ensures fit { IfOk result (λ sums. All IsFit rows.now) }
{
    let mut sums = first_sum(alloc, rows.len())?;
    let mut sum = Sum::none();
    for row in rows {
        sum = sum.more(row.micros);
        put_sum(&mut sums, &sum)?;
    }
    Ok(sums)
}

// The least number above the row's approved position.
fn positions_at(row: &Row) -> u16
    ensures placed { IsPlaced result row.now }
    ensures least { (n : ℕ) → IsPlaced n row.now → result ≤ n }
    ensures few { result ≤ 256 }
{
    match row.approved {
        Some(position) => u16::from(position) + 1,
        None => 0,
    }
}

fn positions_of(rows: &[Row]) -> u16
    ensures { ArePlaced rows.now result }
{
    let mut positions = 0;
    for row in rows {
        positions = positions_at(row).max(positions);
    }
    positions
}

// The sum of what stands between two places.
fn difference(micros: &[i128], plain: &[u32], from: usize, to: usize) -> Sum
    requires upto { from ≤ to }
    requires within { (to < length micros.now) × (to < length plain.now) }
    requires first { (d : ℤ) → unsigned_abs (get_or micros.now from d) ≤ 2 ^ 100 }
    requires last { (d : ℤ) → unsigned_abs (get_or micros.now to d) ≤ 2 ^ 100 }
    requires more { (d : ℕ) → get_or plain.now from d ≤ get_or plain.now to d }
    ensures micros { (d : ℤ) → result.micros ≡ get_or micros.now to d -ℤ get_or micros.now from d }
    ensures count { result.count ≡ to - from }
    ensures plain { (d : ℕ) → result.plain + get_or plain.now from d ≡ get_or plain.now to d }
{
    Sum {
        micros: micros[to] - micros[from],
        count: (to - from) as u64,
        plain: u64::from(plain[to] - plain[from]),
    }
}

/// Rows in their order with running sums beside them: 40 bytes a row.
#[derive(Drop)]
pub struct RunningRows {
    rows: Rows,
    sums: Sums,
    /// The least number above all approved positions.
    positions: u16,
}

impl Model for RunningRows {
    ghost use Rattle.std.specs.Prelude.{List};
    ghost use Rattle.table_rows.specs.declared.row.Row.{Row};
    ghost use Rattle.table_sums.specs.Running.{AreSummed};

    ghost Value = { List Row };

    ghost view = { λ list. list.rows };

    ghost invariant = { λ list. AreSummed list.rows list.sums.micros.items list.sums.plain.items list.positions };
}

impl RunningRows {
    /// These rows, with their sums.
    pub fn of(alloc: Global, rows: &[Row]) -> Result<RunningRows, Memory>
        requires rise { rises row_cmp rows.now ≡ true }
        requires few { length rows.now ≤ MOST_RECORDS }
        ensures { IfOk result (λ list. list ≡ rows.now) }
    {
        let sums = sums_of(alloc, rows)?;
        let kept = Rows::of(alloc, rows)?;
        Ok(RunningRows {
            rows: kept,
            sums,
            positions: positions_of(rows),
        })
    }

    /// The rows, to be read one by one.
    pub fn rows(&self) -> &Rows
        ensures rows { result.now ≡ self.now }
        ensures rise { rises row_cmp self.now ≡ true }
        ensures few { length self.now ≤ MOST_RECORDS }
        ensures fit { All IsFit self.now }
    {
        &self.rows
    }

    /// The least number above all approved positions.
    pub fn positions(&self) -> u16
        ensures { ArePlaced self.now result }
    {
        self.positions
    }

    /// The sum of the rows between two places. It reads no row.
    pub fn sum_between(&self, from: usize, to: usize) -> Sum
        requires upto { from ≤ to }
        requires within { to ≤ length self.now }
        ensures { result ≡ sum_of_rows (drop from (take to self.now)) }
    {
        difference(
            self.sums.micros.as_slice(),
            self.sums.plain.as_slice(),
            from,
            to,
        )
    }
}
