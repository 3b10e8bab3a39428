ghost use Rattle.std.specs.Prelude.{◌≡◌, ◌↔◌, length, map, IsTrue, IfOk, MatchBool};
ghost use Rattle.org_tree.specs.Ids.{NeighboursDiffer, NeighboursMeet};
ghost use Rattle.org_tree.specs.Units.{HasOwnIds};

use dh_base::memory::Memory;
use dh_base::uid::Uid;
use std::alloc::{AllocError, Global};

/// Whether no two units have one UID, which `Tree::build` asks for.
pub fn own_ids(alloc: Global, units: &[(Uid, Option<u32>)]) -> Result<bool, Memory>
    ensures { IfOk result (λ own. IsTrue own ↔ HasOwnIds units.now) }
{
    let mut ids = ids(alloc, units)?;
    ids.sort()?;
    Ok(neighbours_differ(&ids))
}

fn ids(alloc: Global, units: &[(Uid, Option<u32>)]) -> Result<Vec<Uid>, AllocError>
    ensures { IfOk result (λ ids. ids.items ≡ map (λ unit. unit.0) units.now) }
{
    let mut ids = Vec::with_capacity(alloc, units.len())?;
    for unit in units {
        ids.push(unit.0)?;
    }
    Ok(ids)
}

fn neighbours_differ(ids: &[Uid]) -> bool
    ensures { MatchBool result (NeighboursDiffer ids.now) (NeighboursMeet ids.now) }
{
    for i in 1..ids.len() {
        if ids[i - 1] == ids[i] {
            return false;
        }
    }
    true
}
