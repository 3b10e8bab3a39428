//! The value of a cell.

ghost use Rattle.std.specs.Prelude.{◌≡◌, ◌≤◌, Option, map, true, IfOk};
ghost use Rattle.dh_base.specs.Fractions.{Fraction};
ghost use Rattle.dh_base.specs.Decimals.{printed};
ghost use Rattle.program_cells.specs.Value.{ProgramValue, Values};
ghost use Rattle.cell_values.specs.Seen.{seen_of, contents_of};
ghost use Rattle.cell_values.specs.Plans.{groups_inside};
ghost use Rattle.query_answer.specs.Asked.{can_answer_dx};
ghost use Rattle.query_answer.specs.Cells.{of_option, of_program, indicator_cell, cell_value, places_of, decimals_of, value_text};
ghost use Rattle.query_answer.specs.Parts.{IsUnitPart};
ghost use Rattle.query_answer.specs.Plans.{IsIndicatorPlan, IsPlan, plan_in, ArePlanGroups};

use crate::arithmetic::CellValue;
use crate::both::both;
use crate::parts::UnitPart;
use crate::plans::{IndicatorPlan, PlanGroups};
use crate::sides::indicator_value;
use cell_values::{CellPeriods, Source, item_values, planned_rate, planned_value};
use dh_base::frac::Frac;
use dh_base::items::Items;
use dh_base::memory::Memory;
use dh_base::print::print_rounded;
use dh_metadata::metadata::Metadata;
use dh_metadata::records::Indicator;
use expr_eval::PiFault;
use program_cells::value;
use query_lang::{Dx, DxKind};
use std::alloc::Global;
use table_rows::{Group, RowStore};

/// The cell of a value that was looked for.
fn from_found(found: Result<Option<Frac>, Memory>) -> Result<CellValue, Memory>
    ensures { (value : Option Fraction) → IfOk found (λ it. it ≡ value) → IfOk result (λ cell. cell ≡ of_option value) }
{
    match found {
        Ok(None) => Ok(CellValue::None),
        Ok(Some(number)) => Ok(CellValue::Number(number)),
        Err(fault) => Err(fault),
    }
}

#[tactic(auto, unfolding(crate::specs::Cells::indicator_cell))]
fn indicator_cell<S: RowStore>(
    alloc: Global,
    source: &Source<'_, S>,
    indicator: &Indicator,
    plan: &IndicatorPlan,
    over: &[Items<Group>],
    under: &[Items<Group>],
    periods: &CellPeriods,
    unit: &UnitPart,
) -> Result<CellValue, Memory>
    requires plan { IsIndicatorPlan source.now.meta.now source.now.seer.now.user
        (contents_of (S.rows source.now.store.now) (S.events source.now.store.now) (S.regs source.now.store.now))
        indicator.now plan.now }
    requires over { over.now ≡ map (groups_inside periods.now) plan.now.over }
    requires under { under.now ≡ map (groups_inside periods.now) plan.now.under }
    requires unit { IsUnitPart source.now.meta.now source.now.seer.now.user unit.now }
    ensures { IfOk result (λ cell. cell ≡ indicator_cell source.now.meta.now
        (seen_of source.now.meta.now source.now.seer.now.user
        (contents_of (S.rows source.now.store.now) (S.events source.now.store.now) (S.regs source.now.store.now)))
        indicator.now periods.now unit.now.units.units) }
{
    let units = &unit.units;
    let numerator = item_values(alloc, source, plan.over.as_slice(), over, periods, units);
    let denominator = item_values(alloc, source, plan.under.as_slice(), under, periods, units);
    let (numerator, denominator) = both(numerator, denominator)?;
    indicator_value(
        alloc,
        &plan.sides,
        periods.days(),
        numerator.as_slice(),
        denominator.as_slice(),
    )
}

fn from_program(found: Result<Option<Frac>, PiFault>) -> Result<CellValue, Memory>
    ensures { (value : ProgramValue) → Values found value → IfOk result (λ cell. cell ≡ of_program value) }
{
    match found {
        Ok(None) => Ok(CellValue::None),
        Ok(Some(number)) => Ok(CellValue::Number(number)),
        Err(PiFault::Wide) => Ok(CellValue::Wide),
        Err(PiFault::Memory) => Err(Memory),
    }
}

/// The value of the item's cell over these periods and units, by its groups inside the periods.
#[tactic(auto, unfolding(crate::specs::Cells::cell_value, crate::specs::Cells::element_cell, cell_values::specs::Seen::seen_of))]
pub fn cell_value<S: RowStore>(
    alloc: Global,
    source: &Source<'_, S>,
    dx: &Dx,
    groups: &PlanGroups<'_>,
    periods: &CellPeriods,
    unit: &UnitPart,
) -> Result<CellValue, Memory>
    requires dx { can_answer_dx source.now.meta.now dx.now ≡ true }
    requires plan { IsPlan source.now.meta.now source.now.seer.now.user
        (contents_of (S.rows source.now.store.now) (S.events source.now.store.now) (S.regs source.now.store.now)) dx.now (plan_in groups.now) }
    requires groups { ArePlanGroups source.now.meta.now source.now.seer.now.user
        (contents_of (S.rows source.now.store.now) (S.events source.now.store.now) (S.regs source.now.store.now)) periods.now groups.now }
    requires unit { IsUnitPart source.now.meta.now source.now.seer.now.user unit.now }
    ensures { IfOk result (λ cell. cell ≡ cell_value source.now.meta.now
        (seen_of source.now.meta.now source.now.seer.now.user
        (contents_of (S.rows source.now.store.now) (S.events source.now.store.now) (S.regs source.now.store.now))) dx.now periods.now unit.now.units.units) }
{
    let units = &unit.units;
    match groups {
        PlanGroups::Element(plan, own) => {
            let own = own.as_slice();
            from_found(planned_value(alloc, source, plan, own, periods, units))
        }
        PlanGroups::Indicator(plan, over, under) => {
            let indicator = source.meta.indicator(dx.number);
            let over = over.as_slice();
            let under = under.as_slice();
            indicator_cell(alloc, source, indicator, plan, over, under, periods, unit)
        }
        PlanGroups::Rate(plan, due) => from_found(planned_rate(alloc, source, plan, due, units)),
        PlanGroups::Program(plan, subjects) => from_program(value(alloc, plan, subjects, units)),
    }
}

fn places(decimals: i64) -> u8
    ensures value { result ≡ places_of decimals }
    ensures few { result ≤ 6 }
{
    decimals.unsigned_abs().min(6) as u8
}

/// How many decimals the item's values have.
#[tactic(auto, unfolding(crate::specs::Cells::decimals_of, crate::specs::Asked::can_answer_dx))]
pub fn decimals(meta: &Metadata, dx: &Dx) -> u8
    requires { can_answer_dx meta.now dx.now ≡ true }
    ensures value { result ≡ decimals_of meta.now dx.now }
    ensures few { result ≤ 6 }
{
    match dx.kind {
        DxKind::Indicator => places(meta.indicator(dx.number).decimals),
        DxKind::ProgramIndicator => places(meta.program_indicator(dx.number).decimals),
        DxKind::Rate(_) => 1,
        DxKind::Element => 6,
    }
}

/// The text of a value of the item.
pub fn value_text(alloc: Global, meta: &Metadata, dx: &Dx, value: Frac) -> Result<Items<u8>, Memory>
    requires { can_answer_dx meta.now dx.now ≡ true }
    ensures { IfOk result (λ text. text ≡ value_text meta.now dx.now value) }
{
    let text = print_rounded(alloc, value, decimals(meta, dx))?;
    Ok(Items::from(text))
}
