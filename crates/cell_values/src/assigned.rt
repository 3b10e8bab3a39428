//! The units of a data set, by their orders in the tree.
ghost use Rattle.std.specs.Prelude.{◌≡◌, ◌<◌, length, IfOk};
ghost use Rattle.cell_values.specs.Reporting.{is_assigned_at};
ghost use Rattle.cell_values.specs.Prepared.{AreAssigned};

use dh_base::items::Items;
use dh_base::memory::Memory;
use dh_metadata::metadata::Metadata;
use std::alloc::Global;

/// Whether the order is that of a unit which is assigned to the data set.
pub(crate) fn is_assigned_at(meta: &Metadata, set: u32, order: u32) -> bool
    requires { set < length meta.now.data_sets }
    ensures { result ≡ is_assigned_at meta.now set order }
{
    let tree = meta.tree();
    if tree.count() <= order {
        return false;
    }
    meta.is_assigned(set, tree.unit_at(order))
}

/// The orders of the units that are assigned to the data set.
pub(crate) fn assigned(alloc: Global, meta: &Metadata, set: u32) -> Result<Items<u32>, Memory>
    requires { set < length meta.now.data_sets }
    ensures { IfOk result (λ orders. AreAssigned meta.now set orders) }
{
    let mut orders = Vec::new(alloc);
    for order in 0..meta.tree().count() {
        if is_assigned_at(meta, set, order) {
            orders.push(order)?;
        }
    }
    Ok(Items::from(orders))
}
