//! The units and the levels of items.
ghost use Rattle.std.specs.Prelude.{◌≡◌, ◌++◌, IfOk, OnOk};
ghost use Rattle.query_lang.specs.Parts.{part_units, levels_of};
ghost use Rattle.query_lang.specs.Choice.{parts_units};

use crate::kin::push_kin;
use crate::part::Part;
use crate::set::push_if;
use dh_base::memory::Memory;
use org_tree::tree::Tree;
use std::alloc::Global;

/// Puts the units of an item at the end.
fn push_units(
    alloc: Global,
    units: &mut Vec<u32>,
    tree: &Tree,
    views: &[u32],
    part: Part,
) -> Result<(), Memory>
    ensures { OnOk result (units.new.items ≡ units.old.items ++ part_units tree.now views.now part) }
{
    match part {
        Part::Unit(unit) => push_if(units, unit, unit < tree.count()),
        Part::User => push_kin(alloc, units, tree, views, 0),
        Part::Children => push_kin(alloc, units, tree, views, 1),
        Part::Grandchildren => push_kin(alloc, units, tree, views, 2),
        Part::Level(_) => Ok(()),
        Part::Group(_) => Ok(()),
    }
}

/// The units of the items, one item after the other.
#[tactic(auto, unfolding(crate::specs::Choice::parts_units))]
pub(crate) fn parts_units(
    alloc: Global,
    tree: &Tree,
    views: &[u32],
    parts: &[Part],
) -> Result<Vec<u32>, Memory>
    ensures { IfOk result (λ units. units.items ≡ parts_units tree.now views.now parts.now) }
{
    let mut units = Vec::new(alloc);
    for part in parts {
        push_units(alloc, &mut units, tree, views, *part)?;
    }
    Ok(units)
}

/// The levels that are named.
#[tactic(auto, unfolding(crate::specs::Parts::levels_of))]
pub(crate) fn levels_of(alloc: Global, parts: &[Part]) -> Result<Vec<u8>, Memory>
    ensures { IfOk result (λ levels. levels.items ≡ levels_of parts.now) }
{
    let mut levels = Vec::new(alloc);
    for part in parts {
        if let Some(level) = part.level() {
            levels.push(level)?;
        }
    }
    Ok(levels)
}
