//! The rows, cell by cell.

ghost use Rattle.std.specs.Prelude.{◌≡◌, ◌++◌, [], true, false, None, find, option_map, IfOk};
ghost use Rattle.cell_values.specs.Held.{IsSeer};
ghost use Rattle.cell_values.specs.Seen.{seen_of, contents_of};
ghost use Rattle.query_answer.specs.Asked.{CanAnswer, can_answer_dx};
ghost use Rattle.query_answer.specs.Parts.{period_slot, unit_slot, IsUnitPart, AreParts};
ghost use Rattle.query_answer.specs.Plans.{IsPlan, plan_in, ArePlanGroups};
ghost use Rattle.query_answer.specs.Rows.{period_slots, unit_slots, unit_is_wide, unit_rows, period_is_wide, period_rows, dx_is_wide, dx_rows, rows_from};

use crate::arithmetic::CellValue;
use crate::asking::Asking;
use crate::body_rows::AnswerRow;
use crate::cells::{cell_value, value_text};
use crate::parts::{PeriodPart, UnitPart, units_within};
use crate::plans::{Plan, PlanGroups, plan_groups, plan_of};
use dh_base::items::Items;
use dh_base::memory::Memory;
use query_lang::Dx;
use std::alloc::Global;
use table_rows::RowStore;

/// A `dx` item, what is made of it before its cells, and its place in the query.
#[derive(Drop)]
struct DxItem<'a> {
    dx: &'a Dx,
    plan: &'a Plan,
    place: usize,
}

/// The periods of a row of cells, and the groups of a `dx` item inside them.
#[derive(Drop)]
struct PeriodItem<'a, 'b> {
    part: &'a PeriodPart,
    groups: &'a PlanGroups<'b>,
}

/// Writes the row of a cell, where it has a value, and says whether it is too wide.
#[tactic(auto, unfolding(crate::specs::Rows::unit_is_wide, crate::specs::Rows::unit_rows))]
fn write_cell<S: RowStore>(
    alloc: Global,
    asking: &Asking<'_, S>,
    item: &DxItem<'_>,
    period: &PeriodItem<'_, '_>,
    unit: &UnitPart,
    rows: &mut Vec<AnswerRow>,
) -> Result<bool, Memory>
    requires dx { can_answer_dx asking.now.source.now.meta.now item.now.dx.now ≡ true }
    requires plan { IsPlan asking.now.source.now.meta.now asking.now.source.now.seer.now.user
        (contents_of (S.rows asking.now.source.now.store.now) (S.events asking.now.source.now.store.now)
        (S.regs asking.now.source.now.store.now)) item.now.dx.now (plan_in period.now.groups.now) }
    requires groups { ArePlanGroups asking.now.source.now.meta.now asking.now.source.now.seer.now.user
        (contents_of (S.rows asking.now.source.now.store.now) (S.events asking.now.source.now.store.now)
        (S.regs asking.now.source.now.store.now)) period.now.part.now.periods period.now.groups.now }
    requires unit { IsUnitPart asking.now.source.now.meta.now asking.now.source.now.seer.now.user unit.now }
    ensures wide { IfOk result (λ wide. wide ≡ unit_is_wide asking.now.source.now.meta.now
        (seen_of asking.now.source.now.meta.now asking.now.source.now.seer.now.user
        (contents_of (S.rows asking.now.source.now.store.now) (S.events asking.now.source.now.store.now)
        (S.regs asking.now.source.now.store.now)))
        item.now.dx.now (period_slot period.now.part.now) (unit_slot unit.now)) }
    ensures rows { IfOk result (λ wide. rows.new.items ≡ rows.old.items ++ unit_rows asking.now.source.now.meta.now
        (seen_of asking.now.source.now.meta.now asking.now.source.now.seer.now.user
        (contents_of (S.rows asking.now.source.now.store.now) (S.events asking.now.source.now.store.now)
        (S.regs asking.now.source.now.store.now)))
        item.now.place item.now.dx.now (period_slot period.now.part.now) (unit_slot unit.now)) }
{
    let part = period.part;
    let value = cell_value(
        alloc,
        asking.source,
        item.dx,
        period.groups,
        &part.periods,
        unit,
    )?;
    match value {
        CellValue::Wide => Ok(true),
        CellValue::None => Ok(false),
        CellValue::Number(number) => {
            let value = value_text(alloc, asking.source.meta, item.dx, number)?;
            rows.push(AnswerRow {
                dx: item.place,
                period: part.label,
                unit: unit.label,
                value,
            })?;
            Ok(false)
        }
    }
}

/// The units of a period, or of all periods together.
#[tactic(auto, unfolding(crate::specs::Rows::period_is_wide, crate::specs::Rows::period_rows))]
fn write_units<S: RowStore>(
    alloc: Global,
    asking: &Asking<'_, S>,
    item: &DxItem<'_>,
    period: &PeriodItem<'_, '_>,
    rows: &mut Vec<AnswerRow>,
) -> Result<bool, Memory>
    requires dx { can_answer_dx asking.now.source.now.meta.now item.now.dx.now ≡ true }
    requires plan { IsPlan asking.now.source.now.meta.now asking.now.source.now.seer.now.user
        (contents_of (S.rows asking.now.source.now.store.now) (S.events asking.now.source.now.store.now)
        (S.regs asking.now.source.now.store.now)) item.now.dx.now (plan_in period.now.groups.now) }
    requires groups { ArePlanGroups asking.now.source.now.meta.now asking.now.source.now.seer.now.user
        (contents_of (S.rows asking.now.source.now.store.now) (S.events asking.now.source.now.store.now)
        (S.regs asking.now.source.now.store.now)) period.now.part.now.periods period.now.groups.now }
    requires parts { AreParts asking.now.source.now.meta.now asking.now.source.now.seer.now.user asking.now.query.now
        asking.now.periods.now asking.now.units.now }
    ensures wide { IfOk result (λ wide. wide ≡ period_is_wide asking.now.source.now.meta.now
        (seen_of asking.now.source.now.meta.now asking.now.source.now.seer.now.user
        (contents_of (S.rows asking.now.source.now.store.now) (S.events asking.now.source.now.store.now)
        (S.regs asking.now.source.now.store.now)))
        item.now.dx.now (unit_slots asking.now.query.now) (period_slot period.now.part.now)) }
    ensures rows { IfOk result (λ wide. wide ≡ false → rows.new.items ≡ rows.old.items ++ period_rows asking.now.source.now.meta.now
        (seen_of asking.now.source.now.meta.now asking.now.source.now.seer.now.user
        (contents_of (S.rows asking.now.source.now.store.now) (S.events asking.now.source.now.store.now)
        (S.regs asking.now.source.now.store.now)))
        item.now.place item.now.dx.now (unit_slots asking.now.query.now) (period_slot period.now.part.now)) }
{
    for unit in asking.units {
        if write_cell(alloc, asking, item, period, unit, rows)? {
            return Ok(true);
        }
    }
    Ok(false)
}

/// The periods of a query, one by one or all together, each with the groups of the item inside it.
#[tactic(auto, unfolding(crate::specs::Rows::dx_is_wide, crate::specs::Rows::dx_rows))]
fn write_periods<S: RowStore>(
    alloc: Global,
    asking: &Asking<'_, S>,
    item: &DxItem<'_>,
    rows: &mut Vec<AnswerRow>,
) -> Result<bool, Memory>
    requires seer { IsSeer asking.now.source.now.meta.now asking.now.source.now.seer.now }
    requires dx { can_answer_dx asking.now.source.now.meta.now item.now.dx.now ≡ true }
    requires plan { IsPlan asking.now.source.now.meta.now asking.now.source.now.seer.now.user
        (contents_of (S.rows asking.now.source.now.store.now) (S.events asking.now.source.now.store.now)
        (S.regs asking.now.source.now.store.now)) item.now.dx.now item.now.plan.now }
    requires parts { AreParts asking.now.source.now.meta.now asking.now.source.now.seer.now.user asking.now.query.now
        asking.now.periods.now asking.now.units.now }
    ensures wide { IfOk result (λ wide. wide ≡ dx_is_wide asking.now.source.now.meta.now
        (seen_of asking.now.source.now.meta.now asking.now.source.now.seer.now.user
        (contents_of (S.rows asking.now.source.now.store.now) (S.events asking.now.source.now.store.now)
        (S.regs asking.now.source.now.store.now)))
        asking.now.query.now item.now.dx.now) }
    ensures rows { IfOk result (λ wide. wide ≡ false → rows.new.items ≡ rows.old.items ++ dx_rows asking.now.source.now.meta.now
        (seen_of asking.now.source.now.meta.now asking.now.source.now.seer.now.user
        (contents_of (S.rows asking.now.source.now.store.now) (S.events asking.now.source.now.store.now)
        (S.regs asking.now.source.now.store.now)))
        asking.now.query.now item.now.place item.now.dx.now) }
{
    let units = units_within(asking.units);
    for part in asking.periods {
        let groups = plan_groups(alloc, asking.source, item.plan, &part.periods, units)?;
        let period = PeriodItem {
            part,
            groups: &groups,
        };
        let wide = write_units(alloc, asking, item, &period, rows);
        drop(groups);
        if wide? {
            return Ok(true);
        }
    }
    Ok(false)
}

fn copy(alloc: Global, text: &[u8]) -> Result<Items<u8>, Memory>
    ensures { IfOk result (λ copy. copy ≡ text.now) }
{
    let mut copy = Vec::new(alloc);
    copy.extend_from_slice(text)?;
    Ok(Items::from(copy))
}

/// Writes the rows of a query, or answers the text of the first `dx` item with a cell that is too
/// wide.
pub fn write_rows<S: RowStore>(
    alloc: Global,
    asking: &Asking<'_, S>,
    rows: &mut Vec<AnswerRow>,
) -> Result<Option<Items<u8>>, Memory>
    requires seer { IsSeer asking.now.source.now.meta.now asking.now.source.now.seer.now }
    requires query { CanAnswer asking.now.source.now.meta.now asking.now.query.now }
    requires parts { AreParts asking.now.source.now.meta.now asking.now.source.now.seer.now.user asking.now.query.now
        asking.now.periods.now asking.now.units.now }
    requires empty { rows.old.items ≡ [] }
    ensures wide { IfOk result (λ found. found ≡ option_map (λ dx. dx.text) (find (dx_is_wide asking.now.source.now.meta.now
        (seen_of asking.now.source.now.meta.now asking.now.source.now.seer.now.user
        (contents_of (S.rows asking.now.source.now.store.now) (S.events asking.now.source.now.store.now)
        (S.regs asking.now.source.now.store.now)))
        asking.now.query.now) asking.now.query.now.dx)) }
    ensures rows { IfOk result (λ found. found ≡ None → rows.new.items ≡ rows_from asking.now.source.now.meta.now
        (seen_of asking.now.source.now.meta.now asking.now.source.now.seer.now.user
        (contents_of (S.rows asking.now.source.now.store.now) (S.events asking.now.source.now.store.now)
        (S.regs asking.now.source.now.store.now)))
        asking.now.query.now 0 asking.now.query.now.dx) }
{
    let items = asking.query.dx.as_slice();
    for place in 0..items.len() {
        let dx = &items[place];
        let plan = plan_of(alloc, asking.source, dx)?;
        let item = DxItem {
            dx,
            plan: &plan,
            place,
        };
        let wide = write_periods(alloc, asking, &item, rows);
        drop(plan);
        if wide? {
            return Ok(Some(copy(alloc, dx.text.as_slice())?));
        }
    }
    Ok(None)
}
