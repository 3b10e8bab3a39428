//! What is made of a `dx` item before its cells.

ghost use Rattle.std.specs.Prelude.{◌≡◌, true, IfOk};
ghost use Rattle.dh_metadata.specs.Linked.{IsLinkedIndicator};
ghost use Rattle.cell_values.specs.Held.{IsSeer};
ghost use Rattle.cell_values.specs.Seen.{contents_of};
ghost use Rattle.query_lang.specs.declared.plain.DxKind.TheVariants as dx_kind;
ghost use Rattle.query_answer.specs.Asked.{can_answer_dx};
ghost use Rattle.query_answer.specs.Plans.{IsIndicatorPlan, IsPlan, plan_in, ArePlanGroups};

use crate::both::both;
use crate::sides::{Sides, sides_of};
use cell_values::{
    CellPeriods, Due, ElementPlan, ItemPlan, Operand, RateAsked, RatePlan, Source, element_groups,
    element_plan, item_groups, item_plans, rate_due, rate_plan,
};
use dh_base::items::Items;
use dh_base::memory::Memory;
use dh_metadata::records::Indicator;
use program_cells::{ProgramPlan, Subjects, program_plan, subjects_during};
use query_lang::{Dx, DxKind};
use std::alloc::Global;
use table_rows::{Group, RowStore};

/// What is made of an indicator once a query: its sides, and the plans of the items of each.
#[derive(Drop)]
pub struct IndicatorPlan {
    pub sides: Sides,
    pub over: Items<ItemPlan>,
    pub under: Items<ItemPlan>,
}

/// What is made of a `dx` item once a query.
#[derive(Drop)]
pub enum Plan {
    Element(ElementPlan),
    Indicator(IndicatorPlan),
    Rate(RatePlan),
    Program(ProgramPlan),
}

/// What is made of a plan once for some periods, beside the plan.
#[derive(Drop)]
pub enum PlanGroups<'a> {
    /// The groups of an element inside them.
    Element(&'a ElementPlan, Items<Group>),
    /// The groups of each planned item of an indicator inside them.
    Indicator(&'a IndicatorPlan, Items<Items<Group>>, Items<Items<Group>>),
    /// What is due in them.
    Rate(&'a RatePlan, Due),
    /// The subjects of a program indicator that the user sees.
    Program(&'a ProgramPlan, Subjects<'a>),
}

fn indicator_plan<S: RowStore>(
    alloc: Global,
    source: &Source<'_, S>,
    indicator: &Indicator,
) -> Result<IndicatorPlan, Memory>
    requires seer { IsSeer source.now.meta.now source.now.seer.now }
    requires linked { IsLinkedIndicator source.now.meta.now indicator.now }
    ensures { IfOk result (λ plan. IsIndicatorPlan source.now.meta.now source.now.seer.now.user
        (contents_of (S.rows source.now.store.now) (S.events source.now.store.now) (S.regs source.now.store.now)) indicator.now plan) }
{
    let over = item_plans(alloc, source, indicator.numerator.items());
    let under = item_plans(alloc, source, indicator.denominator.items());
    let sides = sides_of(alloc, source.meta, indicator);
    let (sides, (over, under)) = both(sides, both(over, under))?;
    Ok(IndicatorPlan { sides, over, under })
}

/// The plan of a `dx` item.
#[tactic(auto, unfolding(crate::specs::Asked::can_answer_dx))]
pub fn plan_of<S: RowStore>(alloc: Global, source: &Source<'_, S>, dx: &Dx) -> Result<Plan, Memory>
    requires seer { IsSeer source.now.meta.now source.now.seer.now }
    requires dx { can_answer_dx source.now.meta.now dx.now ≡ true }
    ensures { IfOk result (λ plan. IsPlan source.now.meta.now source.now.seer.now.user
        (contents_of (S.rows source.now.store.now) (S.events source.now.store.now) (S.regs source.now.store.now)) dx.now plan) }
{
    match dx.kind {
        DxKind::Indicator => {
            let indicator = source.meta.indicator(dx.number);
            let plan = indicator_plan(alloc, source, indicator)?;
            Ok(Plan::Indicator(plan))
        }
        DxKind::Rate(which) => {
            let asked = RateAsked {
                set: dx.number,
                which,
            };
            let plan = rate_plan(alloc, source, asked)?;
            Ok(Plan::Rate(plan))
        }
        DxKind::ProgramIndicator => {
            let plan = program_plan(alloc, source, dx.number)?;
            Ok(Plan::Program(plan))
        }
        DxKind::Element => {
            let operand = Operand {
                element: dx.number,
                combo: dx.part,
                attribute: None,
            };
            let plan = element_plan(alloc, source, &operand)?;
            Ok(Plan::Element(plan))
        }
    }
}

/// What is made of a plan once for some periods. In how many units the cells lie decides no more than the way.
pub fn plan_groups<'a, S: RowStore>(
    alloc: Global,
    source: &Source<'a, S>,
    plan: &'a Plan,
    periods: &CellPeriods,
    units: usize,
) -> Result<PlanGroups<'a>, Memory>
    requires seer { IsSeer source.now.meta.now source.now.seer.now }
    ensures plan { IfOk result (λ groups. plan_in groups ≡ plan.now) }
    ensures groups { IfOk result (λ groups. ArePlanGroups source.now.meta.now source.now.seer.now.user
        (contents_of (S.rows source.now.store.now) (S.events source.now.store.now) (S.regs source.now.store.now)) periods.now groups) }
{
    match plan {
        Plan::Element(plan) => {
            let own = element_groups(alloc, plan, periods)?;
            Ok(PlanGroups::Element(plan, own))
        }
        Plan::Indicator(plan) => {
            let over = item_groups(alloc, plan.over.as_slice(), periods);
            let under = item_groups(alloc, plan.under.as_slice(), periods);
            let (over, under) = both(over, under)?;
            Ok(PlanGroups::Indicator(plan, over, under))
        }
        Plan::Rate(plan) => {
            let due = rate_due(alloc, plan, periods)?;
            Ok(PlanGroups::Rate(plan, due))
        }
        Plan::Program(plan) => {
            let subjects = subjects_during(alloc, source, plan, periods, units)?;
            Ok(PlanGroups::Program(plan, subjects))
        }
    }
}
