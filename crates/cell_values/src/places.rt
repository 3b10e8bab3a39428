//! Orders of units in the tree, as ranges.
ghost use Rattle.std.specs.Prelude.{◌≡◌, ◌<◌, length, IfOk};
ghost use Rattle.dh_metadata.specs.Linked.{AreBelow};
ghost use Rattle.org_tree.specs.Units.{IsTree};
ghost use Rattle.cell_values.specs.Places.{IsRangeAt, AreOrdersAt};

use dh_base::memory::Memory;
use dh_sharing::ranges::ViewRanges;
use org_tree::tree::Tree;
use std::alloc::Global;

/// The orders of the unit and of all under it, or of the unit alone.
fn range_of(tree: &Tree, unit: u32, alone: bool) -> (u32, u32)
    requires tree { IsTree tree.now }
    requires unit { unit < length tree.now }
    ensures { IsRangeAt tree.now alone unit result }
{
    if alone {
        let order = tree.order(unit);
        (order, order + 1)
    } else {
        tree.interval(unit)
    }
}

/// The orders of the units and of all under them, as ranges. With `alone` a unit has only itself
/// under it.
pub fn unit_ranges(
    alloc: Global,
    tree: &Tree,
    units: &[u32],
    alone: bool,
) -> Result<ViewRanges, Memory>
    requires { AreBelow (length tree.now) units.now }
    ensures { IfOk result (λ ranges. AreOrdersAt tree.now alone units.now ranges) }
{
    // the count says that it is a tree
    let _units = tree.count();
    let mut ranges = Vec::new(alloc);
    for unit in units {
        ranges.push(range_of(tree, *unit, alone))?;
    }
    let joined = ViewRanges::of(alloc, &ranges)?;
    Ok(joined)
}
