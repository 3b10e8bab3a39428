//! What a list of changes leaves under each key.
ghost use Rattle.std.specs.Prelude.{◌≡◌, map, IfOk};
ghost use Rattle.std.specs.Arc.{arc_value};
ghost use Rattle.dh_changes.specs.World.{facts};
ghost use Rattle.dh_changes.specs.Facts.{facts_in};
ghost use Rattle.table_build.specs.Log.{writes_of};

use dh_base::memory::Memory;
use dh_changes::change::Change;
use dh_changes::world::World;
use std::alloc::Global;
use std::sync::Arc;

/// The world after the changes.
pub fn world_of(alloc: Global, changes: &[Arc<Change>]) -> Result<World, Memory>
    ensures { IfOk result (λ world. facts world ≡ facts_in (writes_of (map arc_value changes.now))) }
{
    let mut world = World::new(alloc);
    for change in changes {
        let change: &Change = &**change;
        world.reserve(alloc, change.writes.as_slice())?;
        world.apply(change);
    }
    Ok(world)
}
