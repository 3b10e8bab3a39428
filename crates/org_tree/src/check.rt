ghost use Rattle.std.specs.Prelude.{◌≡◌, ◌⊎◌, ◌^◌, ◌<◌, None, Some, length, IfOk, IfErr, OnOk};
ghost use Rattle.org_tree.specs.Faults.{tree_fault, NeverReaches};
ghost use Rattle.org_tree.specs.Levels.{AreLevels};
ghost use Rattle.org_tree.specs.Units.{IsTree, HasOwnIds};
ghost use Rattle.org_tree.specs.declared.fault.TreeFault.TheVariants as fault;

use crate::checks::fault_of_shape;
use crate::fault::TreeFault;
use crate::levels::levels;
use dh_base::uid::Uid;
use std::alloc::Global;

/// The level of each unit, where the units are a tree.
#[tactic(auto, unfolding(crate::specs::Faults::tree_fault))]
pub fn check(alloc: Global, units: &[(Uid, Option<u32>)]) -> Result<Vec<u8>, TreeFault>
    requires few { length units.now < 2 ^ 32 }
    requires own_ids { HasOwnIds units.now }
    ensures tree { OnOk result (IsTree units.now) }
    ensures levels { IfOk result (λ levels. AreLevels units.now levels.items) }
    ensures none { OnOk result (tree_fault units.now ≡ None) }
    ensures fault { IfErr result (λ e. (e ≡ fault.Memory) ⊎ (tree_fault units.now ≡ Some e)) }
    ensures loop_node { IfErr result (λ e. NeverReaches units.now e) }
{
    if let Some(fault) = fault_of_shape(units) {
        return Err(fault);
    }
    levels(alloc, units)
}
