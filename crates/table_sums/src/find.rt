//! Answers from the one part of a group's year.
ghost use Rattle.std.specs.Prelude.{◌≡◌, ◌<◌, ◌≤◌, Some, true, false, ℤ, length, get_or, take, drop, IfOk, IfSome, IfNone};
ghost use Rattle.std.specs.List.{list_all, list_any};
ghost use Rattle.std.specs.Ordering.{int_cmp, int_eq};
ghost use Rattle.table_rows.specs.Rows.{wanted_rows};
ghost use Rattle.table_rows.specs.Store.{rises};
ghost use Rattle.table_rows.specs.Sums.{sum_of_rows, IsSized};
ghost use Rattle.table_sums.specs.YearParts.{ArePartitions, rows_together, years_in};
ghost use Rattle.table_sums.specs.Years.{day_year, comes_before, comes_after};

use crate::part::Partition;
use crate::year_days::day_year;
use dh_base::items::Items;
use dh_base::memory::Memory;
use dh_base::plain::Need;
use std::alloc::Global;
use table_rows::{Group, Row, RowStore, Sum};

/// Where a year stands among ascending years.
pub(crate) fn place_of(years: &[i32], year: i32) -> Option<usize>
    requires { rises int_cmp years.now ≡ true }
    ensures found { IfSome result (λ at. at < length years.now) }
    ensures year { IfSome result (λ at. (d : ℤ) → get_or years.now at d ≡ year) }
    ensures none { IfNone result (list_any (int_eq year) years.now ≡ false) }
{
    match years.binary_search(&year) {
        Ok(at) => Some(at),
        Err(_) => None,
    }
}

// How many of ascending years come before one.
fn count_before(years: &[i32], year: &i32) -> usize
    requires { rises int_cmp years.now ≡ true }
    ensures { list_all (comes_before (Some year.now)) (take result years.now) ≡ true }
{
    match years.binary_search(year) {
        Ok(at) => at,
        Err(at) => at,
    }
}

// How many of ascending years come before one, or are it.
fn count_upto(years: &[i32], year: &i32) -> usize
    requires { rises int_cmp years.now ≡ true }
    ensures most { result ≤ length years.now }
    ensures later { list_all (comes_after (Some year.now)) (drop result years.now) ≡ true }
{
    match years.binary_search(year) {
        Ok(at) => at + 1,
        Err(at) => at,
    }
}

/// How many of ascending years come before that of a day.
pub(crate) fn first_place(years: &[i32], day: &i32) -> usize
    requires { rises int_cmp years.now ≡ true }
    ensures { list_all (comes_before (day_year day.now)) (take result years.now) ≡ true }
{
    match day_year(*day) {
        Some(year) => count_before(years, &year),
        None => 0,
    }
}

/// After how many of ascending years all come after that of a day.
pub(crate) fn end_place(years: &[i32], day: &i32) -> usize
    requires { rises int_cmp years.now ≡ true }
    ensures most { result ≤ length years.now }
    ensures later { list_all (comes_after (day_year day.now)) (drop result years.now) ≡ true }
{
    match day_year(*day) {
        Some(year) => count_upto(years, &year),
        None => years.len(),
    }
}

/// The sum of the rows of the group that meet the need, in a range of orders.
pub(crate) fn sum_in(
    parts: &[Partition],
    years: &[i32],
    group: &Group,
    need: Need,
    from: u32,
    to: u32,
) -> Sum
    requires parts { ArePartitions parts.now }
    requires years { years.now ≡ years_in parts.now }
    ensures sum { result ≡ sum_of_rows (wanted_rows group.now need from to (rows_together parts.now)) }
    ensures size { IsSized result }
{
    match place_of(years, group.period.year()) {
        Some(at) => RowStore::range_sum(parts[at].store(), *group, need, from, to),
        None => Sum::none(),
    }
}

/// These rows themselves.
pub(crate) fn rows_in(
    alloc: Global,
    parts: &[Partition],
    years: &[i32],
    group: &Group,
    need: Need,
    from: u32,
    to: u32,
) -> Result<Items<Row>, Memory>
    requires parts { ArePartitions parts.now }
    requires years { years.now ≡ years_in parts.now }
    ensures { IfOk result (λ found. found ≡ wanted_rows group.now need from to (rows_together parts.now)) }
{
    match place_of(years, group.period.year()) {
        Some(at) => RowStore::rows_of(parts[at].store(), alloc, *group, need, from, to),
        None => Ok(Items::new(alloc)),
    }
}
