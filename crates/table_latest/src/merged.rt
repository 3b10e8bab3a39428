//! A list without what is touched, and two lists in one order made one. No member is copied.
ghost use Rattle.std.specs.Prelude.{◌≡◌, ◌++◌, true, OnOk, IfOk};
ghost use Rattle.std.specs.Cmp.{IsTotalOrder};
ghost use Rattle.std.specs.List.Sorted.{IsStrictlySortedBy};
ghost use Rattle.table_sums.specs.Ascending.{ascending};
ghost use Rattle.table_latest.specs.Latest.{untouched};
ghost use Rattle.table_latest.specs.Merged.{TakesAbove};

use crate::held::Keyed;
use crate::latest::Latest;
use dh_base::memory::Memory;
use std::alloc::Global;
use table_rows::Ranked;

/// The members that the latest part doesn't touch.
pub(crate) fn untouched<T: Drop + Keyed>(
    alloc: Global,
    all: Vec<T>,
    latest: &Latest,
) -> Result<Vec<T>, Memory>
    ensures { IfOk result (λ kept. kept.items ≡ untouched (T.touched latest.now.touched) all.items) }
{
    let mut kept = Vec::new(alloc);
    for item in all {
        if !item.is_touched(latest) {
            kept.push(item)?;
        }
    }
    Ok(kept)
}

// Moves what stands after x from the end of the first list to the end of the other.
fn take_above<T: Drop + Ranked>(first: &mut Vec<T>, x: &T, back: &mut Vec<T>) -> Result<(), Memory>
    requires total { IsTotalOrder T.rank }
    requires first { IsStrictlySortedBy T.rank first.old.items }
    ensures { OnOk result (TakesAbove T.rank x.now first.old.items first.new.items back.old.items back.new.items) }
{
    while let Some(last) = first.pop() {
        if !x.stands_before(&last) {
            first.push(last)?;
            return Ok(());
        }
        back.push(last)?;
    }
    Ok(())
}

// Whether all of the first list stand before all of the second, which the last of the one and the first of the other tell.
fn stand_apart<T: Ranked>(first: &[T], more: &[T]) -> bool
    requires total { IsTotalOrder T.rank }
    requires first { IsStrictlySortedBy T.rank first.now }
    requires more { IsStrictlySortedBy T.rank more.now }
    ensures { result ≡ true → ascending T.rank (first.now ++ more.now) ≡ first.now ++ more.now }
{
    match first.last() {
        Some(last) => match more.first() {
            Some(next) => last.stands_before(next),
            None => false,
        },
        None => false,
    }
}

// The members of both lists in their order, whatever that is.
fn interleaved<T: Drop + Ranked>(
    alloc: Global,
    first: Vec<T>,
    more: Vec<T>,
) -> Result<Vec<T>, Memory>
    requires total { IsTotalOrder T.rank }
    requires first { IsStrictlySortedBy T.rank first.items }
    requires more { IsStrictlySortedBy T.rank more.items }
    ensures { IfOk result (λ list. list.items ≡ ascending T.rank (first.items ++ more.items)) }
{
    let mut list = first;
    let mut more = more;
    let mut back = Vec::new(alloc);
    while let Some(last) = more.pop() {
        take_above(&mut list, &last, &mut back)?;
        back.push(last)?;
    }
    back.reverse();
    list.append(&mut back)?;
    Ok(list)
}

/// The members of both lists in their order. Of the first only those move that stand after one of the second.
pub(crate) fn merged<T: Drop + Ranked>(
    alloc: Global,
    first: Vec<T>,
    more: Vec<T>,
) -> Result<Vec<T>, Memory>
    requires total { IsTotalOrder T.rank }
    requires first { IsStrictlySortedBy T.rank first.items }
    requires more { IsStrictlySortedBy T.rank more.items }
    ensures { IfOk result (λ list. list.items ≡ ascending T.rank (first.items ++ more.items)) }
{
    let mut list = first;
    let mut more = more;
    if !stand_apart(list.as_slice(), more.as_slice()) {
        return interleaved(alloc, list, more);
    }
    list.append(&mut more)?;
    Ok(list)
}
