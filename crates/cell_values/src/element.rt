//! The value of a data element over a cell.
ghost use Rattle.std.specs.Prelude.{◌≡◌, ◌≤◌, ◌<◌, length, map, IfOk};
ghost use Rattle.dh_sharing.specs.Ranges.{AreApart};
ghost use Rattle.table_rows.specs.Cells.{gathered};
ghost use Rattle.table_rows.specs.Sums.{sum_over};
ghost use Rattle.table_rows.specs.RowSamples.{sample_of};
ghost use Rattle.cell_values.specs.Held.{IsSeer, AreCellUnits};
ghost use Rattle.cell_values.specs.Seen.{seen};
ghost use Rattle.cell_values.specs.Cells.{cell_of, aggregate_of};
ghost use Rattle.cell_values.specs.Parts.{group_sum, ranged_rows, is_sum_type, value_in, HaveOwnKeys};
ghost use Rattle.cell_values.specs.Plans.{IsElementPlan, inside};
ghost use Rattle.dh_base.specs.declared.limits.TheConstants.{MOST_RECORDS};

use crate::aggregated::aggregated;
use crate::cell::{CellPeriods, CellUnits, Operand, Source};
use crate::gathered::gathered;
use crate::groups::{inside, read_groups};
use crate::totals::{totals_of, value_of_totals};
use dh_base::frac::Frac;
use dh_base::items::Items;
use dh_base::memory::Memory;
use dh_base::plain::{AggType, Need};
use std::alloc::Global;
use table_rows::{Group, RowStore};

/// Whether sums are all that the type needs.
fn is_sum_type(kind: AggType) -> bool
    ensures { result ≡ is_sum_type kind }
{
    match kind {
        AggType::Sum | AggType::Average | AggType::Count | AggType::AverageSumOrgUnit => true,
        _ => false,
    }
}

/// The value from the groups of a cell: by sums of ranges where these are enough, and else by the
/// rows.
#[tactic(auto, unfolding(crate::specs::Parts::value_in))]
fn value_in<S: RowStore>(
    alloc: Global,
    store: &S,
    kind: AggType,
    groups: &[Group],
    need: Need,
    ranges: &[(u32, u32)],
    days: u32,
) -> Result<Option<Frac>, Memory>
    requires few { length (S.rows store.now) ≤ MOST_RECORDS }
    requires apart { AreApart ranges.now }
    requires all { (sum_over (group_sum (S.rows store.now) need ranges.now) groups.now).count ≤ MOST_RECORDS }
    requires found { length (gathered (ranged_rows (S.rows store.now) need ranges.now) groups.now) ≤ MOST_RECORDS }
    requires own_keys { HaveOwnKeys (map sample_of (gathered (ranged_rows (S.rows store.now) need ranges.now) groups.now)) }
    requires days { 0 < days }
    ensures { IfOk result (λ value. value ≡ value_in (S.rows store.now) kind groups.now need ranges.now days) }
{
    if is_sum_type(kind) {
        let totals = totals_of(store, groups, need, ranges);
        return Ok(value_of_totals(kind, &totals, days));
    }
    let samples = gathered(alloc, store, groups, need, ranges)?;
    aggregated(kind, samples, days)
}

/// What is worked out once for an operand, before its cells.
pub struct ElementPlan {
    pub operand: Operand,
    pub kind: AggType,
    pub need: Need,
    /// Its groups that the user may read, in order.
    pub groups: Items<Group>,
}

// By hand, so that it is proved here alone and not in each crate above.
impl Drop for ElementPlan {
    fn drop(self) {
        let ElementPlan {
            operand: _,
            kind: _,
            need: _,
            groups: _,
        } = self;
    }
}

/// The plan of an operand.
pub fn element_plan<S: RowStore>(
    alloc: Global,
    source: &Source<'_, S>,
    operand: &Operand,
) -> Result<ElementPlan, Memory>
    requires seer { IsSeer source.now.meta.now source.now.seer.now }
    requires element { operand.now.element < length source.now.meta.now.data_elements }
    ensures plan { IfOk result (λ plan. IsElementPlan source.now.meta.now source.now.seer.now.user (S.rows source.now.store.now) plan) }
    ensures operand { IfOk result (λ plan. plan.operand ≡ operand.now) }
{
    let all = source.store.groups(alloc, operand.element)?;
    let groups = read_groups(alloc, source.meta, source.seer, all.as_slice(), operand)?;
    let kind = source.meta.element(operand.element).aggregation_type;
    let need = source.seer.need_for(source.meta, operand.element);
    Ok(ElementPlan {
        operand: *operand,
        kind,
        need,
        groups: Items::from(groups),
    })
}

/// The groups of the plan inside some of the periods.
pub fn element_groups(
    alloc: Global,
    plan: &ElementPlan,
    periods: &CellPeriods,
) -> Result<Items<Group>, Memory>
    ensures { IfOk result (λ groups. groups ≡ inside periods.now plan.now.groups) }
{
    let kept = inside(alloc, plan.groups.as_slice(), periods.periods())?;
    Ok(Items::from(kept))
}

/// The value of a planned operand in a cell, by its groups inside the periods.
pub fn planned_value<S: RowStore>(
    alloc: Global,
    source: &Source<'_, S>,
    plan: &ElementPlan,
    groups: &[Group],
    periods: &CellPeriods,
    units: &CellUnits,
) -> Result<Option<Frac>, Memory>
    requires plan { IsElementPlan source.now.meta.now source.now.seer.now.user (S.rows source.now.store.now) plan.now }
    requires groups { groups.now ≡ inside periods.now plan.now.groups }
    requires units { AreCellUnits source.now.meta.now source.now.seer.now.user units.now }
    ensures { IfOk result (λ value. value
        ≡ aggregate_of source.now.meta.now (seen source.now.meta.now source.now.seer.now.user (S.rows source.now.store.now))
        (cell_of plan.now.operand.element plan.now.operand.combo plan.now.operand.attribute periods.now units.now.units units.now.alone)) }
{
    // the years say that it is a store
    let _years = source.store.years();
    let ranges = units.seen.parts();
    let days = periods.days();
    value_in(
        alloc,
        source.store,
        plan.kind,
        groups,
        plan.need,
        ranges,
        days,
    )
}

/// The value of an operand over the rows that the user sees, inside some of the periods and under
/// some of the units.
pub fn element_value<S: RowStore>(
    alloc: Global,
    source: &Source<'_, S>,
    operand: &Operand,
    periods: &CellPeriods,
    units: &CellUnits,
) -> Result<Option<Frac>, Memory>
    requires seer { IsSeer source.now.meta.now source.now.seer.now }
    requires element { operand.now.element < length source.now.meta.now.data_elements }
    requires units { AreCellUnits source.now.meta.now source.now.seer.now.user units.now }
    ensures { IfOk result (λ value. value
        ≡ aggregate_of source.now.meta.now (seen source.now.meta.now source.now.seer.now.user (S.rows source.now.store.now))
        (cell_of operand.now.element operand.now.combo operand.now.attribute periods.now units.now.units units.now.alone)) }
{
    let plan = element_plan(alloc, source, operand)?;
    let groups = element_groups(alloc, &plan, periods)?;
    planned_value(alloc, source, &plan, groups.as_slice(), periods, units)
}
