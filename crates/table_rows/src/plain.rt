//! What a store answers, from the lists that it stands for.
ghost use Rattle.std.specs.Prelude.{◌≡◌, ◌≤◌, ◌<◌, ◌+◌, ◌*◌, ◌^◌, ◌∷◌, [], true, cond, length, map, unsigned_abs, IfOk, OnOk};
ghost use Rattle.table_rows.specs.Events.{events_of, regs_of};
ghost use Rattle.table_rows.specs.Groups.{groups_of, differs_from_last, with_group};
ghost use Rattle.table_rows.specs.Rows.{group_of, wanted_rows};
ghost use Rattle.table_rows.specs.Sums.{sum_of_rows, sum_of_row, sum_over, joined, IsSized};
ghost use Rattle.table_rows.specs.Order.{row_cmp};
ghost use Rattle.table_rows.specs.Store.{rises};
ghost use Rattle.dh_base.specs.declared.limits.TheConstants.{MOST_RECORDS};

use crate::event::{EventRow, EventsAsked, RegRow, put_event};
use crate::row::{Group, Row};
use crate::sum::Sum;
use dh_base::items::Items;
use dh_base::memory::Memory;
use dh_base::plain::Need;
use std::alloc::Global;

// The groups of an element. Rows in their order have those of one group side by side.
#[tactic(auto, unfolding(crate::specs::Groups::groups_of))]
pub(crate) fn groups(alloc: Global, rows: &[Row], element: u32) -> Result<Items<Group>, Memory>
    requires { rises row_cmp rows.now ≡ true }
    ensures { IfOk result (λ groups. groups ≡ groups_of element rows.now) }
{
    let mut groups: Vec<Group> = Vec::new(alloc);
    for row in rows {
        add_group(&mut groups, row, row.element == element)?;
    }
    Ok(Items::from(groups))
}

/// Adds the group of a row that is asked for, where it isn't the last.
pub fn add_group(groups: &mut Vec<Group>, row: &Row, asked: bool) -> Result<(), Memory>
    ensures { OnOk result (groups.new.items ≡ with_group asked groups.old.items (group_of row.now)) }
{
    if asked && differs_from_last(groups, row) {
        groups.push(row.group())?;
    }
    Ok(())
}

// Whether the row is in another group than the last.
fn differs_from_last(groups: &[Group], row: &Row) -> bool
    ensures { result ≡ differs_from_last groups.now (group_of row.now) }
{
    match groups.last() {
        Some(last) => !row.is_in(last),
        None => true,
    }
}

#[tactic(auto, using(crate::proofs::SumLemmas::sum_more), unfolding(crate::specs::Sums::sum_of_rows))]
pub(crate) fn range_sum(rows: &[Row], group: &Group, need: Need, from: u32, to: u32) -> Sum
    requires { length rows.now ≤ MOST_RECORDS }
    ensures sum { result ≡ sum_of_rows (wanted_rows group.now need from to rows.now) }
    ensures size { IsSized result }
{
    let mut sum = Sum::none();
    for row in rows {
        sum = with_row(&sum, row, row.is_wanted(group, need, from, to));
    }
    sum
}

// A sum with one more row, where it is wanted.
#[tactic(auto, using(crate::proofs::SumLemmas::joined_ends))]
fn with_row(sum: &Sum, row: &Row, wanted: bool) -> Sum
    requires size { unsigned_abs sum.now.micros ≤ 2 ^ 63 * sum.now.count }
    requires plain { sum.now.plain ≤ sum.now.count }
    requires few { sum.now.count < MOST_RECORDS }
    ensures sum { result ≡ joined sum.now (sum_over sum_of_row (cond wanted (row.now ∷ []) [])) }
    ensures size { unsigned_abs result.micros ≤ 2 ^ 63 * result.count }
    ensures plain { result.plain ≤ result.count }
    ensures few { result.count ≤ sum.now.count + 1 }
{
    if wanted { sum.more(row.micros) } else { *sum }
}

pub(crate) fn rows_of(
    alloc: Global,
    rows: &[Row],
    group: &Group,
    need: Need,
    from: u32,
    to: u32,
) -> Result<Items<Row>, Memory>
    ensures { IfOk result (λ found. found ≡ wanted_rows group.now need from to rows.now) }
{
    let mut found: Vec<Row> = Vec::new(alloc);
    for row in rows {
        if row.is_wanted(group, need, from, to) {
            found.push(*row)?;
        }
    }
    Ok(Items::from(found))
}

pub(crate) fn events_of<'a>(
    alloc: Global,
    events: &'a [EventRow],
    asked: &EventsAsked,
) -> Result<Vec<&'a EventRow>, Memory>
    ensures { IfOk result (λ found. map (λ event. event.now) found.items
        ≡ events_of asked.now.program asked.now.from_day asked.now.to_day events.now) }
{
    let mut found: Vec<&'a EventRow> = Vec::new(alloc);
    for event in events {
        put_event(&mut found, event, asked)?;
    }
    Ok(found)
}

pub(crate) fn regs_of(alloc: Global, regs: &[RegRow], set: u32) -> Result<Items<RegRow>, Memory>
    ensures { IfOk result (λ found. found ≡ regs_of set regs.now) }
{
    let mut found: Vec<RegRow> = Vec::new(alloc);
    for reg in regs {
        if reg.is_of(set) {
            found.push(*reg)?;
        }
    }
    Ok(Items::from(found))
}
