//! View units, their children and grandchildren.
ghost use Rattle.std.specs.Prelude.{◌≡◌, ◌<◌, ◌++◌, length, OnOk};
ghost use Rattle.query_lang.specs.Walk.{Knows};
ghost use Rattle.query_lang.specs.Parts.{is_kin, kin_of};

use crate::set::{push_if, set_of};
use dh_base::memory::Memory;
use org_tree::tree::Tree;
use std::alloc::Global;
use std::collections::HashSet;

/// Whether the unit so many steps above is one of the view units.
#[tactic(auto, using(crate::proofs::WalkLemmas::steps_above))]
fn is_kin(tree: &Tree, views: &[u32], seen: &HashSet<u32>, degree: u8, unit: u32) -> bool
    requires seen { Knows seen.now views.now }
    requires unit { unit < length tree.now }
    ensures { result ≡ is_kin tree.now views.now degree unit }
{
    let _count = tree.count();
    let level = tree.level(unit);
    if level <= degree {
        return false;
    }
    match tree.ancestor_at(unit, level - degree) {
        Some(upper) => seen.contains(&upper),
        None => false,
    }
}

/// Puts the units so many steps below the view units at the end, in the order of the tree.
#[tactic(auto, unfolding(crate::specs::Parts::kin_of, crate::specs::Walk::walk_of))]
pub(crate) fn push_kin(
    alloc: Global,
    units: &mut Vec<u32>,
    tree: &Tree,
    views: &[u32],
    degree: u8,
) -> Result<(), Memory>
    ensures { OnOk result (units.new.items ≡ units.old.items ++ kin_of tree.now views.now degree) }
{
    let seen = set_of(alloc, views)?;
    for order in 0..tree.count() {
        let unit = tree.unit_at(order);
        let passes = is_kin(tree, views, &seen, degree, unit);
        push_if(units, unit, passes)?;
    }
    Ok(())
}
