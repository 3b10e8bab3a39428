//! All rules between objects but those of program indicators.

ghost use Rattle.std.specs.Prelude.{◌≡◌, ◌^◌, ◌<◌, length};
ghost use Rattle.dh_categories.specs.Single.{CombosBelow};
ghost use Rattle.org_tree.specs.Units.{HasOwnIds};
ghost use Rattle.dh_metadata.specs.Rows.{option_combo_rows};
ghost use Rattle.dh_base.specs.Memory.{Finds};
ghost use Rattle.meta_rules.specs.Faults.{rule_cause};
ghost use Rattle.meta_rules.specs.Held.{approvals_broken, AreApprovals, rules_broken, IsHeld};
ghost use Rattle.dh_metadata.specs.Rows.{tree_rows};

use crate::both::both;
use crate::combos::combos_of;
use crate::fault::RuleError;
use crate::levels::all_positions;
use crate::overrides::first_override;
use crate::tree::tree_of;
use crate::workflows::workflows_of;
use dh_base::items::Items;
use dh_categories::combos::Combos;
use dh_metadata::held::Links;
use dh_metadata::parts::MetaParts;
use dh_metadata::structure::Structure;
use org_tree::tree::Tree;
use std::alloc::Global;

/// The workflows and their positions, if the data sets name no other combinations than their elements have.
fn approvals(
    alloc: Global,
    parts: &MetaParts,
    links: &Links,
) -> Result<(Vec<Option<u32>>, Vec<Items<i64>>), RuleError>
    requires { length links.now.data_elements < 2 ^ 32 }
    ensures { Finds rule_cause (approvals_broken parts.now links.now) (λ pair. AreApprovals links.now pair.0.items pair.1.items) result }
{
    let workflows = workflows_of(
        alloc,
        links.data_elements.as_slice(),
        links.data_sets.as_slice(),
    )?;
    let positions = all_positions(
        alloc,
        links.data_approval_levels.as_slice(),
        links.data_approval_workflows.as_slice(),
    )?;
    match first_override(
        parts.data_elements.as_slice(),
        parts.data_sets.as_slice(),
        links.data_sets.as_slice(),
    ) {
        Some(fault) => Err(RuleError::Broken(fault)),
        None => Ok((workflows, positions)),
    }
}

// What is kept, as it is handed on. This can't fail.
fn structure(all: (Tree, (Combos, (Vec<Option<u32>>, Vec<Items<i64>>)))) -> Structure
    ensures { result ≡ record { tree = all.0; combos = all.1.0; workflows = all.1.1.0; positions = all.1.1.1 } }
{
    let (tree, (combos, (workflows, positions))) = all;
    Structure {
        tree,
        combos,
        workflows,
        positions,
    }
}

/// Tries the rules in the order of the keys: the tree, the option combinations, the workflows of the
/// elements, the levels of the workflows, the combinations that data sets name.
pub fn rules(alloc: Global, parts: &MetaParts, links: &Links) -> Result<Structure, RuleError>
    requires few_units { length links.now.organisation_units < 2 ^ 32 }
    requires own_ids { HasOwnIds (tree_rows links.now.organisation_units) }
    requires few_combos { length links.now.category_option_combos < 2 ^ 32 }
    requires in_range { CombosBelow (length links.now.category_combos) (option_combo_rows links.now.category_option_combos) }
    requires few_elements { length links.now.data_elements < 2 ^ 32 }
    ensures { Finds rule_cause (rules_broken parts.now links.now) (IsHeld links.now) result }
{
    let tree = tree_of(alloc, links.organisation_units.as_slice());
    let combos = combos_of(
        alloc,
        links.categories.as_slice(),
        links.category_combos.as_slice(),
        links.category_option_combos.as_slice(),
    );
    let approvals = approvals(alloc, parts, links);
    let later = both(combos, approvals);
    match both(tree, later) {
        Ok(all) => Ok(structure(all)),
        Err(fault) => Err(fault),
    }
}
