//! The values of tables that approvals are over.
ghost use Rattle.std.specs.Prelude.{◌≡◌, ◌<◌, ◌++◌, length, OnOk, IfOk};
ghost use Rattle.std.specs.List.{filter_map};
ghost use Rattle.table_rows.specs.Cells.{gathered};
ghost use Rattle.table_sums.specs.YearParts.{rows_together};
ghost use Rattle.latest_build.specs.Found as known;

use dh_base::memory::Memory;
use dh_base::plain::Need;
use dh_base::uid::Uid;
use dh_changes::keys::{ApprovalKey, ValueKey};
use dh_metadata::kind::Kind;
use dh_metadata::metadata::Metadata;
use dh_periods::{Period, PeriodType, containing};
use std::alloc::Global;
use table_build::lists::put_found;
use table_rows::{Group, Row, RowStore};
use table_sums::Tables;

/// The attribute combination of an approval, and the places of its unit and all under it, the end not counted.
#[derive(Clone, Copy)]
pub(crate) struct Reach {
    pub attribute: u32,
    pub from: u32,
    pub to: u32,
}

/// Where the values of an approval are looked for.
#[derive(Clone, Copy)]
pub(crate) struct Search<'a> {
    pub meta: &'a Metadata,
    pub base: &'a Tables,
    pub approval: &'a ApprovalKey,
    pub reach: Reach,
}

#[tactic(auto, unfolding(crate::specs::Found::element_id))]
fn element_id(meta: &Metadata, element: u32) -> Option<Uid>
    ensures { result ≡ known.element_id meta.now element }
{
    if element < meta.count(Kind::DataElement) {
        Some(meta.element(element).id)
    } else {
        None
    }
}

#[tactic(auto, unfolding(crate::specs::Found::combo_id))]
fn combo_id(meta: &Metadata, combo: u32) -> Option<Uid>
    ensures { result ≡ known.combo_id meta.now combo }
{
    if combo < meta.count(Kind::CategoryOptionCombo) {
        Some(meta.option_combo(combo).id)
    } else {
        None
    }
}

// The identifier of the unit at a place of the tree's order.
#[tactic(auto, unfolding(crate::specs::Found::unit_id))]
fn unit_id(meta: &Metadata, order: u32) -> Option<Uid>
    ensures { result ≡ known.unit_id meta.now order }
{
    let tree = meta.tree();
    if order < tree.count() {
        let unit = tree.unit_at(order);
        Some(meta.unit(unit).id)
    } else {
        None
    }
}

#[tactic(auto, unfolding(crate::specs::Found::key_at))]
fn key_at(meta: &Metadata, row: &Row) -> Option<ValueKey>
    ensures { result ≡ known.key_at meta.now row.now }
{
    let element = element_id(meta, row.element)?;
    let unit = unit_id(meta, row.order)?;
    let combo = combo_id(meta, row.combo)?;
    let attribute = combo_id(meta, row.attribute)?;
    Some(ValueKey {
        element,
        period: row.period,
        unit,
        combo,
        attribute,
    })
}

#[tactic(auto, unfolding(crate::specs::Found::reach_of))]
fn reach_of(meta: &Metadata, approval: &ApprovalKey) -> Option<Reach>
    ensures { result ≡ known.reach_of meta.now approval.now }
{
    let unit = meta.find(Kind::OrganisationUnit, approval.unit)?;
    let attribute = meta.find(Kind::CategoryOptionCombo, approval.attribute)?;
    let (from, to) = meta.tree().interval(unit);
    Some(Reach {
        attribute,
        from,
        to,
    })
}

#[tactic(auto, unfolding(crate::specs::Found::type_for))]
fn type_for(meta: &Metadata, approval: &ApprovalKey, element: u32) -> Option<PeriodType>
    requires { element < length meta.now.data_elements }
    ensures { result ≡ known.type_for meta.now approval.now element }
{
    let workflow = meta.workflow_of(element)?;
    let found = meta.workflow(workflow);
    if found.id == approval.workflow {
        Some(found.period_type)
    } else {
        None
    }
}

fn is_around(kind: PeriodType, approval: &ApprovalKey, period: Period) -> bool
    ensures { result ≡ known.is_around kind approval.now period }
{
    match containing(kind, period.first(), period.last()) {
        Some(around) => around == approval.period,
        None => false,
    }
}

fn is_reached(kind: PeriodType, approval: &ApprovalKey, reach: &Reach, group: &Group) -> bool
    ensures { result ≡ known.is_reached kind approval.now reach.now group.now }
{
    group.attribute == reach.attribute && is_around(kind, approval, group.period)
}

fn put_rows(keys: &mut Vec<ValueKey>, meta: &Metadata, rows: &[Row]) -> Result<(), Memory>
    ensures { OnOk result (keys.new.items ≡ keys.old.items ++ filter_map (known.key_at meta.now) rows.now) }
{
    for row in rows {
        put_found(keys, key_at(meta, row))?;
    }
    Ok(())
}

fn put_reached(
    alloc: Global,
    keys: &mut Vec<ValueKey>,
    search: &Search<'_>,
    kind: PeriodType,
    group: &Group,
) -> Result<(), Memory>
    ensures { OnOk result (keys.new.items ≡ keys.old.items
        ++ known.in_group_reached search.now.meta.now (rows_together search.now.base.now.parts) search.now.approval.now search.now.reach kind group.now) }
{
    let reach = search.reach;
    if !is_reached(kind, search.approval, &reach, group) {
        return Ok(());
    }
    let rows = search
        .base
        .rows_of(alloc, *group, Need::All, reach.from, reach.to)?;
    put_rows(keys, search.meta, rows.as_slice())
}

fn put_groups(
    alloc: Global,
    keys: &mut Vec<ValueKey>,
    search: &Search<'_>,
    kind: PeriodType,
    groups: &[Group],
) -> Result<(), Memory>
    ensures { OnOk result (keys.new.items ≡ keys.old.items
        ++ gathered (known.in_group_reached search.now.meta.now (rows_together search.now.base.now.parts) search.now.approval.now search.now.reach kind)
        groups.now) }
{
    for group in groups {
        put_reached(alloc, keys, search, kind, group)?;
    }
    Ok(())
}

fn put_element(
    alloc: Global,
    keys: &mut Vec<ValueKey>,
    search: &Search<'_>,
    element: u32,
) -> Result<(), Memory>
    requires { element < length search.now.meta.now.data_elements }
    ensures { OnOk result (keys.new.items ≡ keys.old.items
        ++ known.of_element search.now.meta.now (rows_together search.now.base.now.parts) search.now.approval.now search.now.reach element) }
{
    let Some(kind) = type_for(search.meta, search.approval, element) else {
        return Ok(());
    };
    let groups = search.base.groups(alloc, element)?;
    put_groups(alloc, keys, search, kind, groups.as_slice())
}

fn put_elements(alloc: Global, keys: &mut Vec<ValueKey>, search: &Search<'_>) -> Result<(), Memory>
    ensures { OnOk result (keys.new.items ≡ keys.old.items
        ++ known.in_reach search.now.meta.now (rows_together search.now.base.now.parts) search.now.approval.now search.now.reach) }
{
    for element in 0..search.meta.count(Kind::DataElement) {
        put_element(alloc, keys, search, element)?;
    }
    Ok(())
}

fn put_approval(
    alloc: Global,
    keys: &mut Vec<ValueKey>,
    meta: &Metadata,
    base: &Tables,
    approval: &ApprovalKey,
) -> Result<(), Memory>
    ensures { OnOk result (keys.new.items ≡ keys.old.items ++ known.found_by meta.now (rows_together base.now.parts) approval.now) }
{
    match reach_of(meta, approval) {
        Some(reach) => {
            let search = Search {
                meta,
                base,
                approval,
                reach,
            };
            put_elements(alloc, keys, &search)
        }
        None => Ok(()),
    }
}

/// The values of the base that the approvals are over: of the workflow's elements, in the periods of its type, of the attribute
/// combination, and of the unit and all under it. It looks at no other rows.
pub(crate) fn found(
    alloc: Global,
    meta: &Metadata,
    base: &Tables,
    approvals: &[ApprovalKey],
) -> Result<Vec<ValueKey>, Memory>
    ensures { IfOk result (λ keys. keys.items ≡ known.found meta.now (rows_together base.now.parts) approvals.now) }
{
    let mut keys: Vec<ValueKey> = Vec::new(alloc);
    for approval in approvals {
        put_approval(alloc, &mut keys, meta, base, approval)?;
    }
    Ok(keys)
}
