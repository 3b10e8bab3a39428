//! The organisation units as a tree.

ghost use Rattle.std.specs.Prelude.{◌≡◌, ◌^◌, ◌<◌, Some, length, IfOk};
ghost use Rattle.org_tree.specs.Units.{HasOwnIds};
ghost use Rattle.dh_base.specs.Memory.{Finds};
ghost use Rattle.meta_rules.specs.Faults.{rule_cause};
ghost use Rattle.dh_metadata.specs.Rows.{tree_rows};
ghost use Rattle.meta_rules.specs.Trees.{id_at, tree_error, tree_broken};

use crate::fault::{BrokenRule, RuleError, RuleFault};
use crate::item::item_at;
use dh_base::uid::Uid;
use dh_metadata::records::Unit;
use org_tree::fault::TreeFault;
use org_tree::tree::Tree;
use std::alloc::{AllocError, Global};

pub(crate) fn rows(alloc: Global, units: &[Unit]) -> Result<Vec<(Uid, Option<u32>)>, AllocError>
    ensures { IfOk result (λ rows. rows.items ≡ tree_rows units.now) }
{
    units
        .iter()
        .map(|unit| (unit.id, unit.parent))
        .collect(alloc)
}

fn id_at(units: &[Unit], unit: u32) -> Option<Uid>
    ensures { result ≡ id_at units.now unit }
{
    match item_at(units, unit as usize) {
        Some(unit) => Some(unit.id),
        None => None,
    }
}

fn told(units: &[Unit], fault: TreeFault) -> RuleError
    ensures { result ≡ tree_error units.now fault }
{
    let uid = match fault {
        TreeFault::NoParent { node } => id_at(units, node),
        TreeFault::NoRoot => None,
        TreeFault::TwoRoots { second } => id_at(units, second),
        TreeFault::Loop { node } => id_at(units, node),
        TreeFault::TooDeep { node } => id_at(units, node),
        TreeFault::Memory => return RuleError::Memory,
    };
    RuleError::Broken(RuleFault {
        uid,
        which: BrokenRule::Tree,
    })
}

/// The tree of the units, which are fewer than 2^32 and differ in their identifiers.
#[tactic(auto, unfolding(crate::specs::Trees::tree_broken))]
pub fn tree_of(alloc: Global, units: &[Unit]) -> Result<Tree, RuleError>
    requires few { length units.now < 2 ^ 32 }
    requires own_ids { HasOwnIds (tree_rows units.now) }
    ensures { Finds rule_cause (tree_broken units.now) (λ tree. tree ≡ tree_rows units.now) result }
{
    let rows = rows(alloc, units)?;
    match Tree::build(alloc, &rows) {
        Ok(tree) => Ok(tree),
        Err(fault) => Err(told(units, fault)),
    }
}
