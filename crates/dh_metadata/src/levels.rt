//! The tree levels of workflows' positions.

ghost use Rattle.std.specs.Prelude.{◌≡◌, map, min, unsigned_abs, IfOk};
ghost use Rattle.dh_metadata.specs.Approval.{tree_level};

use dh_base::items::Items;
use dh_base::memory::Memory;
use std::alloc::Global;

fn tree_levels(alloc: Global, levels: &[i64]) -> Result<Items<u8>, Memory>
    ensures { IfOk result (λ small. small ≡ map tree_level levels.now) }
{
    let mut small = Items::new(alloc);
    for level in levels {
        small.push(level.unsigned_abs().min(255) as u8)?;
    }
    Ok(small)
}

/// Tree levels as small numbers.
pub fn all_tree_levels(alloc: Global, all: &[Items<i64>]) -> Result<Vec<Items<u8>>, Memory>
    ensures { IfOk result (λ small. small.items ≡ map (map tree_level) all.now) }
{
    let mut small = Vec::with_capacity(alloc, all.len())?;
    for levels in all {
        small.push(tree_levels(alloc, levels.as_slice())?)?;
    }
    Ok(small)
}
