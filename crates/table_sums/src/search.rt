//! Where the rows end that stand before a bound.
ghost use Rattle.std.specs.Prelude.{◌≡◌, ◌+◌, ◌-◌, ◌<◌, ◌≤◌, ◌^◌, ℕ, true, false, length, get_or};
ghost use Rattle.table_rows.specs.declared.row.Row.{Row};
ghost use Rattle.table_rows.specs.Order.{row_cmp, group_cmp};
ghost use Rattle.table_rows.specs.Store.{rises};
ghost use Rattle.table_rows.specs.Rows.{group_of};
ghost use Rattle.table_sums.specs.Bounds.{is_before, is_group_before, IsCut, IsSpan};
ghost use Rattle.table_sums.specs.declared.search.Bound.TheVariants as bounds;

use crate::rows::Rows;
use crate::steps::Steps;
use std::sync::ledger::Ledger;
use table_rows::{Group, Ranked, RowKey};

/// A bound in rows that stand in their order.
#[derive(Clone, Copy)]
pub enum Bound {
    /// Before it are the rows whose key is below this one.
    Key(RowKey),
    /// Before it are the rows of elements below this one.
    Element(u32),
    /// Before it are the rows of elements up to this one.
    UptoElement(u32),
    /// Before it are the rows of groups up to this one.
    UptoGroup(Group),
}

// Whether all rows of the group stand before the bound; of a key, those of groups below the key's.
fn is_group_before(bound: &Bound, group: &Group) -> bool
    ensures { result ≡ is_group_before bound.now group.now }
{
    match bound {
        Bound::Key(key) => group.stands_before(&key.group),
        Bound::Element(element) => group.element < *element,
        Bound::UptoElement(element) => group.element <= *element,
        Bound::UptoGroup(last) => !group.cmp(last).is_gt(),
    }
}

/// How many groups stand before the bound.
pub(crate) fn groups_before(groups: &[Group], bound: &Bound) -> usize
    requires { rises group_cmp groups.now ≡ true }
    ensures { IsCut (is_group_before bound.now) groups.now result }
{
    groups.partition_point(|group| is_group_before(bound, group))
}

/// Where the rows of a group begin and end.
#[derive(Clone, Copy)]
pub(crate) struct Span {
    pub low: usize,
    pub high: usize,
}

/// How many rows stand before the key, where all up to a place do, none from another place on, and those between are of its
/// group.
pub(crate) fn place_between<L: Ledger>(
    rows: &Rows,
    key: &RowKey,
    first: usize,
    end: usize,
    steps: &mut Steps<L>,
) -> usize
    requires rise { rises row_cmp rows.now ≡ true }
    requires upto { first ≤ end }
    requires within { end ≤ length rows.now }
    requires before { (k : ℕ) (d : Row) → k < first → is_before (bounds.Key key.now) (get_or rows.now k d) ≡ true }
    requires same { (k : ℕ) (d : Row) → first ≤ k → k < end → group_of (get_or rows.now k d) ≡ key.now.group }
    requires after { (k : ℕ) (d : Row) → end ≤ k → k < length rows.now → is_before (bounds.Key key.now) (get_or rows.now k d) ≡ false }
    ensures cut { IsCut (is_before (bounds.Key key.now)) rows.now result }
    ensures from { first ≤ result }
    ensures to { result ≤ end }
    ensures cost { (d : ℕ) → end - first < 2 ^ d → steps.new ≤ steps.old + d }
{
    let mut low = first;
    let mut high = end;
    while low < high {
        let middle = low + (high - low) / 2;
        if rows.stands_before(middle, key, steps) {
            low = middle + 1;
        } else {
            high = middle;
        }
    }
    low
}

/// How many rows stand before the key, where the rows of its group are known.
pub(crate) fn place_in<L: Ledger>(
    rows: &Rows,
    key: &RowKey,
    span: Span,
    steps: &mut Steps<L>,
) -> usize
    requires rise { rises row_cmp rows.now ≡ true }
    requires span { IsSpan key.now.group rows.now span.low span.high }
    ensures cut { IsCut (is_before (bounds.Key key.now)) rows.now result }
    ensures from { span.low ≤ result }
    ensures to { result ≤ span.high }
    ensures cost { (d : ℕ) → length rows.now < 2 ^ d → steps.new ≤ steps.old + d }
{
    place_between(rows, key, span.low, span.high, steps)
}

/// How many rows stand before the bound. It reads no more rows than the number of rows has binary digits.
pub fn place_of<L: Ledger>(rows: &Rows, bound: &Bound, steps: &mut Steps<L>) -> usize
    requires { rises row_cmp rows.now ≡ true }
    ensures cut { IsCut (is_before bound.now) rows.now result }
    ensures cost { (d : ℕ) → length rows.now < 2 ^ d → steps.new ≤ steps.old + d }
{
    match bound {
        Bound::Key(key) => place_in(rows, key, rows.span_of(&key.group), steps),
        Bound::Element(_) => rows.place_by_group(bound),
        Bound::UptoElement(_) => rows.place_by_group(bound),
        Bound::UptoGroup(_) => rows.place_by_group(bound),
    }
}
