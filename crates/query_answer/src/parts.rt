//! The periods and the units of a query, each as the cells take them.

ghost use Rattle.std.specs.Prelude.{◌≡◌, ◌<◌, length, get_or, map, IfOk};
ghost use Rattle.std.specs.List.{All};
ghost use Rattle.dh_metadata.specs.Linked.{AreBelow};
ghost use Rattle.cell_values.specs.Held.{IsSeer};
ghost use Rattle.query_answer.specs.Rows.{slot_of, slots};
ghost use Rattle.query_answer.specs.Parts.{period_slot, unit_slot, IsUnitPart};

use cell_values::{CellPeriods, CellUnits, Seer};
use dh_base::memory::Memory;
use dh_metadata::metadata::Metadata;
use dh_periods::Period;
use query_lang::Axis;
use std::alloc::Global;
use std::slice::from_ref;

/// What cells take of periods, and what their rows tell of them.
#[derive(Drop)]
pub struct PeriodPart {
    pub label: Option<Period>,
    pub periods: CellPeriods,
}

/// What cells take of units, and what their rows tell of them.
#[derive(Drop)]
pub struct UnitPart {
    pub label: Option<u32>,
    pub units: CellUnits,
}

/// What a cell takes of periods or of units, and what its row tells of them.
#[derive(Drop)]
struct Part<'a, T> {
    pub label: Option<T>,
    pub items: &'a [T],
}

/// How many parts there are: one of a filter.
fn part_count<T>(axis: &Axis<T>) -> usize
    ensures { result ≡ length (slots axis.now.filter axis.now.items) }
{
    if axis.filter {
        1
    } else {
        axis.items.as_slice().len()
    }
}

/// A part by its place.
fn part_at<'a, T: Copy>(axis: &'a Axis<T>, place: usize) -> Part<'a, T>
    requires { place < length (slots axis.now.filter axis.now.items) }
    ensures part { slot_of result.label result.items.now ≡ get_or (slots axis.now.filter axis.now.items) place (slot_of result.label result.items.now) }
    ensures some { 0 < length axis.now.items → 0 < length result.items.now }
{
    let items = axis.items.as_slice();
    if axis.filter {
        return Part { label: None, items };
    }
    let item = &items[place];
    Part {
        label: Some(*item),
        items: from_ref(item),
    }
}

/// The periods of a query: each alone, or all together where they are a filter.
pub fn period_parts(alloc: Global, axis: &Axis<Period>) -> Result<Vec<PeriodPart>, Memory>
    requires { 0 < length axis.now.items }
    ensures { IfOk result (λ parts. map period_slot parts.items ≡ slots axis.now.filter axis.now.items) }
{
    let mut parts = Vec::new(alloc);
    for place in 0..part_count(axis) {
        let part = part_at(axis, place);
        let periods = CellPeriods::of(alloc, part.items)?;
        parts.push(PeriodPart {
            label: part.label,
            periods,
        })?;
    }
    Ok(parts)
}

/// The units of a query as the user sees them: each alone, or all together where they are a filter.
pub fn unit_parts(
    alloc: Global,
    meta: &Metadata,
    seer: &Seer,
    axis: &Axis<u32>,
) -> Result<Vec<UnitPart>, Memory>
    requires seer { IsSeer meta.now seer.now }
    requires units { AreBelow (length meta.now.organisation_units) axis.now.items }
    ensures slots { IfOk result (λ parts. map unit_slot parts.items ≡ slots axis.now.filter axis.now.items) }
    ensures seen { IfOk result (λ parts. All (IsUnitPart meta.now seer.now.user) parts.items) }
{
    let mut parts = Vec::new(alloc);
    for place in 0..part_count(axis) {
        let part = part_at(axis, place);
        let units = CellUnits::of(alloc, meta, seer, part.items, false)?;
        parts.push(UnitPart {
            label: part.label,
            units,
        })?;
    }
    Ok(parts)
}

/// In how many units the cells of these lie, counted for each of them.
pub fn units_within(units: &[UnitPart]) -> usize {
    let mut count: usize = 0;
    for unit in units {
        count = count.saturating_add(size_of(unit.units.asked.parts()));
    }
    count
}

/// How many numbers ranges hold.
fn size_of(ranges: &[(u32, u32)]) -> usize {
    let mut size: usize = 0;
    for range in ranges {
        size = size.saturating_add(range.1.saturating_sub(range.0) as usize);
    }
    size
}
