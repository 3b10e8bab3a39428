//! Tables of lists that are cut by year.
ghost use Rattle.std.specs.Prelude.{◌≡◌, ◌++◌, ◌∷◌, [], true, map, OnOk, IfOk};
ghost use Rattle.table_rows.specs.Store.{is_store};
ghost use Rattle.table_sums.specs.YearParts.{AreOfYears, listed_as, part_of, part_with, together, years_in};

use crate::by_year::{lists_by_year, take_at};
use crate::part::Partition;
use crate::tables::Tables;
use crate::with_sums;
use dh_base::items::Items;
use dh_base::memory::Memory;
use std::alloc::Global;
use table_rows::{EventRow, RegRow, Row};

/// The part of a year that holds these lists.
pub fn part_from(
    alloc: Global,
    year: i32,
    rows: Vec<Row>,
    events: Vec<EventRow>,
    regs: Vec<RegRow>,
) -> Result<Partition, Memory>
    requires { is_store rows.items events.items regs.items [] ≡ true }
    ensures { IfOk result (λ part. part ≡ part_with year (listed_as rows.items events.items regs.items)) }
{
    let store = with_sums(alloc, &rows, events, regs, Vec::new(alloc))?;
    Ok(Partition::of(year, store))
}

fn add_part(
    alloc: Global,
    parts: &mut Vec<Partition>,
    year: &i32,
    rows: Items<Row>,
    events: Items<EventRow>,
    regs: Items<RegRow>,
) -> Result<(), Memory>
    requires { is_store rows events regs [] ≡ true }
    ensures { OnOk result (parts.new.items ≡ parts.old.items ++ part_with year.now (listed_as rows events regs) ∷ []) }
{
    let Items { items: rows } = rows;
    let Items { items: events } = events;
    let Items { items: regs } = regs;
    parts.push(part_from(alloc, *year, rows, events, regs)?)?;
    Ok(())
}

// The parts of these lists, one for each of the years.
fn parts_of(
    alloc: Global,
    rows: Vec<Row>,
    events: Vec<EventRow>,
    regs: Vec<RegRow>,
    years: &[i32],
) -> Result<Vec<Partition>, Memory>
    requires { AreOfYears (listed_as rows.items events.items regs.items) years.now }
    ensures { IfOk result (λ parts. parts.items ≡ map (part_of (listed_as rows.items events.items regs.items)) years.now) }
{
    let mut own_rows = lists_by_year(alloc, rows, years)?;
    let mut own_events = lists_by_year(alloc, events, years)?;
    let mut own_regs = lists_by_year(alloc, regs, years)?;
    let mut parts: Vec<Partition> = Vec::new(alloc);
    for at in 0..years.len() {
        let year = &years[at];
        let rows = take_at(alloc, &mut own_rows, at);
        let events = take_at(alloc, &mut own_events, at);
        let regs = take_at(alloc, &mut own_regs, at);
        add_part(alloc, &mut parts, year, rows, events, regs)?;
    }
    Ok(parts)
}

/// The tables of these lists, with a part of each of the years. They stand for so many changes of the log.
pub fn tables_of(
    alloc: Global,
    rows: Vec<Row>,
    events: Vec<EventRow>,
    regs: Vec<RegRow>,
    years: &[i32],
    base_cut: u64,
) -> Result<Tables, Memory>
    requires { AreOfYears (listed_as rows.items events.items regs.items) years.now }
    ensures contents { IfOk result (λ tables. together tables.parts ≡ listed_as rows.items events.items regs.items) }
    ensures years { IfOk result (λ tables. years_in tables.parts ≡ years.now) }
    ensures base_cut { IfOk result (λ tables. tables.base_cut ≡ base_cut) }
{
    let parts = parts_of(alloc, rows, events, regs, years)?;
    let tables = Tables::of(alloc, parts, base_cut)?;
    Ok(tables)
}
