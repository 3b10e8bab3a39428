ghost use Rattle.std.specs.Prelude.{◌≡◌, ◌+◌, ◌-◌, ◌<◌, true, false, length, slice_index, Some, IfOk, IfSome, IfNone};
ghost use Rattle.org_tree.specs.Families.{InFamilies};
ghost use Rattle.org_tree.specs.Units.{IsTree, is_child, order_of, parent_of};
ghost use Rattle.org_tree.specs.Walk.{CountsUnder, AreSizes, OrdersSoFar, AreOrders, IsWalk};

use crate::rows::{is_child_of, parent};
use dh_base::uid::Uid;
use std::alloc::{AllocError, Global};

/// How many units are under each unit, itself among them.
pub fn sizes(alloc: Global, units: &[(Uid, Option<u32>)]) -> Result<Vec<u32>, AllocError>
    requires { IsTree units.now }
    ensures { IfOk result (λ sizes. AreSizes units.now sizes.items) }
{
    let mut sizes = vec![in alloc; 0u32; units.len()]?;
    for unit in 0..units.len() as u32 {
        add_line(&mut sizes, units, unit);
    }
    Ok(sizes)
}

/// Counts the unit at each unit that it is under.
fn add_line(sizes: &mut [u32], units: &[(Uid, Option<u32>)], unit: u32)
    requires tree { IsTree units.now }
    requires in_range { unit < length units.now }
    requires counted { CountsUnder units.now unit sizes.old }
    ensures { CountsUnder units.now (unit + 1) sizes.new }
{
    let mut at = Some(unit);
    while let Some(here) = at {
        sizes[here as usize] += 1;
        at = parent(units, here);
    }
}

/// The place of each unit in the walk, from the units by families: a parent's place is known before
/// its children's.
pub fn orders(
    alloc: Global,
    units: &[(Uid, Option<u32>)],
    kin: &[u32],
    sizes: &[u32],
) -> Result<Vec<u32>, AllocError>
    requires tree { IsTree units.now }
    requires kin { InFamilies units.now kin.now }
    requires sizes { AreSizes units.now sizes.now }
    ensures { IfOk result (λ orders. AreOrders units.now orders.items) }
{
    let mut orders = vec![in alloc; 0u32; units.len()]?;
    for i in 0..kin.len() {
        let order = order_at(units, kin, sizes, &orders, i);
        orders[kin[i] as usize] = order;
    }
    Ok(orders)
}

/// The place of one unit: 0 at the root.
fn order_at(
    units: &[(Uid, Option<u32>)],
    kin: &[u32],
    sizes: &[u32],
    orders: &[u32],
    i: usize,
) -> u32
    requires tree { IsTree units.now }
    requires kin { InFamilies units.now kin.now }
    requires sizes { AreSizes units.now sizes.now }
    requires orders { OrdersSoFar units.now kin.now i orders.now }
    requires in_range { i < length units.now }
    ensures { result ≡ order_of units.now (slice_index kin.now i) }
{
    match parent(units, kin[i]) {
        None => 0,
        Some(above) => order_of_child(units, kin, sizes, orders, i, above),
    }
}

/// The place of a child: after the subtree of the sibling before it, else after its parent.
fn order_of_child(
    units: &[(Uid, Option<u32>)],
    kin: &[u32],
    sizes: &[u32],
    orders: &[u32],
    i: usize,
    above: u32,
) -> u32
    requires tree { IsTree units.now }
    requires kin { InFamilies units.now kin.now }
    requires sizes { AreSizes units.now sizes.now }
    requires orders { OrdersSoFar units.now kin.now i orders.now }
    requires in_range { i < length units.now }
    requires above { parent_of units.now (slice_index kin.now i) ≡ Some above }
    ensures { result ≡ order_of units.now (slice_index kin.now i) }
{
    match sibling_before(units, kin, i, above) {
        Some(sibling) => orders[sibling as usize] + sizes[sibling as usize],
        None => orders[above as usize] + 1,
    }
}

/// The unit right before in the list, where it is a child of the same parent.
fn sibling_before(units: &[(Uid, Option<u32>)], kin: &[u32], i: usize, above: u32) -> Option<u32>
    requires kin { InFamilies units.now kin.now }
    requires in_range { i < length units.now }
    ensures found { IfSome result (λ sibling. (0 < i) × (sibling ≡ slice_index kin.now (i - 1)) × (is_child units.now sibling above ≡ true)) }
    ensures none { IfNone result (0 < i → is_child units.now (slice_index kin.now (i - 1)) above ≡ false) }
{
    if i == 0 {
        return None;
    }
    let before = kin[i - 1];
    if is_child_of(units, before, above) {
        Some(before)
    } else {
        None
    }
}

/// The units in the order of the walk.
pub fn walk(
    alloc: Global,
    units: &[(Uid, Option<u32>)],
    orders: &[u32],
) -> Result<Vec<u32>, AllocError>
    requires tree { IsTree units.now }
    requires orders { AreOrders units.now orders.now }
    ensures { IfOk result (λ walk. IsWalk units.now walk.items) }
{
    let mut walk = vec![in alloc; 0u32; orders.len()]?;
    for unit in 0..orders.len() as u32 {
        walk[orders[unit as usize] as usize] = unit;
    }
    Ok(walk)
}
