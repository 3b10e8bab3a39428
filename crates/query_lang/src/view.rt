//! Units under others, as ranges of places in the walk.
ghost use Rattle.std.specs.Prelude.{◌≡◌, ◌<◌, length, IfOk};
ghost use Rattle.dh_sharing.specs.Ranges.{is_within};
ghost use Rattle.org_tree.specs.Units.{order_of};
ghost use Rattle.query_lang.specs.Walk.{AreIn};
ghost use Rattle.query_lang.specs.View.{is_under_any, Covers};

use dh_base::memory::Memory;
use dh_sharing::ranges::ViewRanges;
use org_tree::tree::Tree;
use std::alloc::Global;

/// The ranges of the units that are under one of these.
pub fn ranges_under(alloc: Global, tree: &Tree, units: &[u32]) -> Result<ViewRanges, Memory>
    requires { AreIn (length tree.now) units.now }
    ensures { IfOk result (λ ranges. Covers tree.now units.now ranges) }
{
    let mut intervals = Vec::new(alloc);
    for unit in units {
        intervals.push(tree.interval(*unit))?;
    }
    ViewRanges::of(alloc, &intervals)
}

/// Whether the unit is under one of those that the ranges are of.
pub fn is_covered(tree: &Tree, ranges: &ViewRanges, units: &[u32], unit: u32) -> bool
    requires covers { Covers tree.now units.now ranges.now }
    requires unit { unit < length tree.now }
    ensures { result ≡ is_under_any tree.now units.now unit }
{
    ranges.holds(tree.order(unit))
}
