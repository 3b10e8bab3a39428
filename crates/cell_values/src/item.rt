//! The value of an item of an expression.
ghost use Rattle.std.specs.Prelude.{◌≡◌, ◌<◌, length, map, pos, option_and_then, Some, None, IfOk, IfSome};
ghost use Rattle.std.specs.List.{All};
ghost use Rattle.dh_base.specs.Fractions.{fraction_of};
ghost use Rattle.dh_metadata.specs.declared.kind.Kind.TheVariants as kind;
ghost use Rattle.dh_metadata.specs.Objects.{find_of};
ghost use Rattle.cell_values.specs.Held.{IsSeer, AreCellUnits};
ghost use Rattle.cell_values.specs.Seen.{seen_of, contents_of};
ghost use Rattle.cell_values.specs.Items.{named_combo, units_in, constant_value, group_value, item_value_of};
ghost use Rattle.cell_values.specs.Plans.{operand_of, rate_asked_of, other_value_of, IsWay, IsItemPlan, groups_inside, planned_value};

use crate::cell::{CellPeriods, CellUnits, Operand, Source};
use crate::counts::covered;
use crate::cuts::cut;
use crate::due::whole;
use crate::element::{ElementPlan, element_groups, element_plan, planned_value};
use crate::places::unit_ranges;
use crate::rates::{RateAsked, RatePlan, rate_plan, rate_value};
use crate::seer::Seer;
use dh_base::frac::Frac;
use dh_base::items::Items;
use dh_base::memory::Memory;
use dh_base::uid::Uid;
use dh_metadata::kind::Kind;
use dh_metadata::metadata::Metadata;
use expr_lang::Item;
use std::alloc::Global;
use table_rows::{Group, RowStore};

/// How the values of an item are found: by the plan of an element or of a rate, or without one.
#[derive(Drop)]
pub enum Way {
    Element(ElementPlan),
    Rate(RatePlan),
    Other,
}

/// An item, and what is worked out once before its cells.
pub struct ItemPlan {
    pub item: Item,
    pub way: Way,
}

// By hand, so that it is proved here alone and not in each crate above.
impl Drop for ItemPlan {
    fn drop(self) {
        let ItemPlan { item: _, way: _ } = self;
    }
}

fn named_combo(meta: &Metadata, id: &Option<Uid>) -> Option<Option<u32>>
    ensures { result ≡ named_combo meta.now id.now }
{
    match id {
        None => Some(None),
        Some(id) => match meta.find(Kind::CategoryOptionCombo, *id) {
            None => None,
            Some(n) => Some(Some(n)),
        },
    }
}

fn operand_of(meta: &Metadata, item: &Item) -> Option<Operand>
    ensures value { result ≡ operand_of meta.now item.now }
    ensures there { IfSome result (λ operand. operand.element < length meta.now.data_elements) }
{
    match item {
        Item::Element {
            element,
            combo,
            attribute,
        } => {
            let element = meta.find(Kind::DataElement, *element)?;
            let combo = named_combo(meta, combo)?;
            let attribute = named_combo(meta, attribute)?;
            Some(Operand {
                element,
                combo,
                attribute,
            })
        }
        _ => None,
    }
}

fn rate_asked_of(meta: &Metadata, item: &Item) -> Option<RateAsked>
    ensures value { result ≡ rate_asked_of meta.now item.now }
    ensures there { IfSome result (λ asked. asked.set < length meta.now.data_sets) }
{
    match item {
        Item::Rate { set, rate } => match meta.find(Kind::DataSet, *set) {
            None => None,
            Some(set) => Some(RateAsked { set, which: *rate }),
        },
        _ => None,
    }
}

fn way_of<S: RowStore>(alloc: Global, source: &Source<'_, S>, item: &Item) -> Result<Way, Memory>
    requires { IsSeer source.now.meta.now source.now.seer.now }
    ensures { IfOk result (λ way. IsWay source.now.meta.now source.now.seer.now.user
        (contents_of (S.rows source.now.store.now) (S.events source.now.store.now) (S.regs source.now.store.now)) item.now way) }
{
    match operand_of(source.meta, item) {
        Some(operand) => {
            let plan = element_plan(alloc, source, &operand)?;
            Ok(Way::Element(plan))
        }
        None => match rate_asked_of(source.meta, item) {
            Some(asked) => {
                let plan = rate_plan(alloc, source, asked)?;
                Ok(Way::Rate(plan))
            }
            None => Ok(Way::Other),
        },
    }
}

/// The plans of items, in their order.
pub fn item_plans<S: RowStore>(
    alloc: Global,
    source: &Source<'_, S>,
    items: &[Item],
) -> Result<Items<ItemPlan>, Memory>
    requires { IsSeer source.now.meta.now source.now.seer.now }
    ensures plans { IfOk result (λ plans. All (IsItemPlan source.now.meta.now source.now.seer.now.user
        (contents_of (S.rows source.now.store.now) (S.events source.now.store.now) (S.regs source.now.store.now))) plans) }
    ensures items { IfOk result (λ plans. map (λ plan. plan.item) plans ≡ items.now) }
{
    let mut plans = Vec::new(alloc);
    for item in items {
        let way = way_of(alloc, source, item)?;
        plans.push(ItemPlan { item: *item, way })?;
    }
    Ok(Items::from(plans))
}

fn groups_of(alloc: Global, plan: &ItemPlan, periods: &CellPeriods) -> Result<Items<Group>, Memory>
    ensures { IfOk result (λ groups. groups ≡ groups_inside periods.now plan.now) }
{
    match &plan.way {
        Way::Element(plan) => element_groups(alloc, plan, periods),
        _ => Ok(Items::new(alloc)),
    }
}

/// The groups of each item inside some of the periods.
pub fn item_groups(
    alloc: Global,
    plans: &[ItemPlan],
    periods: &CellPeriods,
) -> Result<Items<Items<Group>>, Memory>
    ensures { IfOk result (λ groups. groups ≡ map (groups_inside periods.now) plans.now) }
{
    let mut groups = Vec::new(alloc);
    for plan in plans {
        groups.push(groups_of(alloc, plan, periods)?)?;
    }
    Ok(Items::from(groups))
}

fn constant_item(meta: &Metadata, id: &Uid) -> Option<Frac>
    ensures { result ≡ option_and_then (constant_value meta.now) (find_of meta.now kind.Constant id.now) }
{
    let n = meta.find(Kind::Constant, *id)?;
    let micros = meta.constant(n).value.value();
    Some(Frac::of(i128::from(micros), 1_000_000))
}

/// How many units of a group are under those of a cell.
#[tactic(auto, unfolding(crate::specs::Items::units_in))]
fn group_item(
    alloc: Global,
    meta: &Metadata,
    seer: &Seer,
    id: &Uid,
    units: &CellUnits,
) -> Result<Option<Frac>, Memory>
    requires units { AreCellUnits meta.now seer.now.user units.now }
    ensures { IfOk result (λ value. value
        ≡ option_and_then (λ n. group_value meta.now n units.now.units units.now.alone) (find_of meta.now kind.OrganisationUnitGroup id.now)) }
{
    let Some(n) = meta.find(Kind::OrganisationUnitGroup, *id) else {
        return Ok(None);
    };
    let group = meta.unit_group(n);
    let tree = seer.tree(meta);
    // the count says that it is a tree
    let _units = tree.count();
    let own = unit_ranges(alloc, tree, group.organisation_units.as_slice(), true)?;
    let both = cut(alloc, &own, &units.asked)?;
    Ok(Some(whole(u64::from(covered(both.parts())))))
}

fn other_value<S: RowStore>(
    alloc: Global,
    source: &Source<'_, S>,
    item: &Item,
    periods: &CellPeriods,
    units: &CellUnits,
) -> Result<Option<Frac>, Memory>
    requires units { AreCellUnits source.now.meta.now source.now.seer.now.user units.now }
    ensures { IfOk result (λ value. value ≡ other_value_of source.now.meta.now item.now periods.now units.now.units units.now.alone) }
{
    match item {
        Item::Constant(id) => Ok(constant_item(source.meta, id)),
        Item::Group(id) => group_item(alloc, source.meta, source.seer, id, units),
        Item::Days => Ok(Some(whole(u64::from(periods.days())))),
        _ => Ok(None),
    }
}

/// The value of a planned item in a cell, by its groups inside the periods. Items of programs have
/// no value here.
fn item_value<S: RowStore>(
    alloc: Global,
    source: &Source<'_, S>,
    plan: &ItemPlan,
    groups: &[Group],
    periods: &CellPeriods,
    units: &CellUnits,
) -> Result<Option<Frac>, Memory>
    requires plan { IsItemPlan source.now.meta.now source.now.seer.now.user
        (contents_of (S.rows source.now.store.now) (S.events source.now.store.now) (S.regs source.now.store.now)) plan.now }
    requires groups { groups.now ≡ groups_inside periods.now plan.now }
    requires units { AreCellUnits source.now.meta.now source.now.seer.now.user units.now }
    ensures { IfOk result (λ value. value ≡ item_value_of source.now.meta.now
        (seen_of source.now.meta.now source.now.seer.now.user
        (contents_of (S.rows source.now.store.now) (S.events source.now.store.now) (S.regs source.now.store.now)))
        plan.now.item periods.now units.now.units units.now.alone) }
{
    match &plan.way {
        Way::Element(element) => planned_value(alloc, source, element, groups, periods, units),
        Way::Rate(rate) => rate_value(alloc, source, rate, periods, units),
        Way::Other => other_value(alloc, source, &plan.item, periods, units),
    }
}

/// The values of planned items in a cell, by their groups inside the periods: over the records that
/// the user sees, inside some of the periods and under some of the units.
pub fn item_values<S: RowStore>(
    alloc: Global,
    source: &Source<'_, S>,
    plans: &[ItemPlan],
    groups: &[Items<Group>],
    periods: &CellPeriods,
    units: &CellUnits,
) -> Result<Vec<Option<Frac>>, Memory>
    requires plans { All (IsItemPlan source.now.meta.now source.now.seer.now.user
        (contents_of (S.rows source.now.store.now) (S.events source.now.store.now) (S.regs source.now.store.now))) plans.now }
    requires groups { groups.now ≡ map (groups_inside periods.now) plans.now }
    requires units { AreCellUnits source.now.meta.now source.now.seer.now.user units.now }
    ensures { IfOk result (λ values. values.items ≡ map (planned_value source.now.meta.now
        (seen_of source.now.meta.now source.now.seer.now.user
        (contents_of (S.rows source.now.store.now) (S.events source.now.store.now) (S.regs source.now.store.now)))
        periods.now units.now.units units.now.alone) plans.now) }
{
    let mut values = Vec::new(alloc);
    for place in 0..plans.len() {
        let inside = groups[place].as_slice();
        let value = item_value(alloc, source, &plans[place], inside, periods, units)?;
        values.push(value)?;
    }
    Ok(values)
}
