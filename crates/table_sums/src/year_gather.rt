//! Answers from the parts of all years.
ghost use Rattle.std.specs.Prelude.{◌≡◌, ◌++◌, map, IfOk, OnOk};
ghost use Rattle.std.specs.List.Sorted.{IsStrictlySortedBy};
ghost use Rattle.table_rows.specs.Events.{events_of, regs_of, reg_cmp};
ghost use Rattle.table_rows.specs.Groups.{groups_of};
ghost use Rattle.table_rows.specs.Order.{group_cmp};
ghost use Rattle.table_sums.specs.Ascending.{ascending};
ghost use Rattle.table_sums.specs.YearParts.{ArePartitions, rows_together, events_together, regs_together, years_in};

use crate::find::{end_place, first_place};
use crate::part::Partition;
use crate::ranked::merged;
use dh_base::items::Items;
use dh_base::memory::Memory;
use std::alloc::Global;
use table_rows::{EventRow, EventsAsked, Group, RegRow, RowStore};

fn with_groups(
    alloc: Global,
    groups: &[Group],
    part: &Partition,
    element: u32,
) -> Result<Vec<Group>, Memory>
    requires known { IsStrictlySortedBy group_cmp groups.now }
    requires more { IsStrictlySortedBy group_cmp (groups_of element part.now.contents.rows) }
    ensures { IfOk result (λ all. all.items ≡ ascending group_cmp (groups.now ++ groups_of element part.now.contents.rows)) }
{
    let more = RowStore::groups(part.store(), alloc, element)?;
    merged(alloc, groups, more.as_slice())
}

/// The groups of an element, in order.
pub(crate) fn groups_in(
    alloc: Global,
    parts: &[Partition],
    element: u32,
) -> Result<Items<Group>, Memory>
    requires { ArePartitions parts.now }
    ensures { IfOk result (λ groups. groups ≡ groups_of element (rows_together parts.now)) }
{
    let mut groups: Vec<Group> = Vec::new(alloc);
    for part in parts {
        groups = with_groups(alloc, &groups, part, element)?;
    }
    Ok(Items::from(groups))
}

fn with_regs(
    alloc: Global,
    regs: &[RegRow],
    part: &Partition,
    set: u32,
) -> Result<Vec<RegRow>, Memory>
    requires known { IsStrictlySortedBy reg_cmp regs.now }
    requires more { IsStrictlySortedBy reg_cmp (regs_of set part.now.contents.regs) }
    ensures { IfOk result (λ all. all.items ≡ ascending reg_cmp (regs.now ++ regs_of set part.now.contents.regs)) }
{
    let more = RowStore::regs_of(part.store(), alloc, set)?;
    merged(alloc, regs, more.as_slice())
}

/// The registrations of a data set, in order.
pub(crate) fn regs_in(alloc: Global, parts: &[Partition], set: u32) -> Result<Items<RegRow>, Memory>
    requires { ArePartitions parts.now }
    ensures { IfOk result (λ regs. regs ≡ regs_of set (regs_together parts.now)) }
{
    let mut regs: Vec<RegRow> = Vec::new(alloc);
    for part in parts {
        regs = with_regs(alloc, &regs, part, set)?;
    }
    Ok(Items::from(regs))
}

fn add_events<'a>(
    alloc: Global,
    events: &mut Vec<&'a EventRow>,
    part: &'a Partition,
    asked: &EventsAsked,
) -> Result<(), Memory>
    ensures { OnOk result (map (λ event. event.now) events.new.items
        ≡ map (λ event. event.now) events.old.items ++ events_of asked.now.program asked.now.from_day asked.now.to_day part.now.contents.events) }
{
    let mut more = RowStore::lend_events(
        part.store(),
        alloc,
        asked.program,
        asked.from_day,
        asked.to_day,
    )?;
    events.append(&mut more)?;
    Ok(())
}

/// The events of a program from the one day to the other, by day and identifier, lent by their parts. Only the years from that of the
/// first day to that of the last one are asked.
pub(crate) fn events_in<'a>(
    alloc: Global,
    parts: &'a [Partition],
    years: &[i32],
    asked: &EventsAsked,
) -> Result<Vec<&'a EventRow>, Memory>
    requires parts { ArePartitions parts.now }
    requires years { years.now ≡ years_in parts.now }
    ensures { IfOk result (λ found. map (λ event. event.now) found.items
        ≡ events_of asked.now.program asked.now.from_day asked.now.to_day (events_together parts.now)) }
{
    let first = first_place(years, &asked.from_day);
    let end = end_place(years, &asked.to_day);
    let mut events: Vec<&'a EventRow> = Vec::new(alloc);
    for place in first..end {
        add_events(alloc, &mut events, &parts[place], asked)?;
    }
    Ok(events)
}
