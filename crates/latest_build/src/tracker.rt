//! The events that the writes of changes touch.
ghost use Rattle.std.specs.Prelude.{◌≡◌, ◌++◌, ◌∷◌, [], map, OnOk, IfOk};
ghost use Rattle.std.specs.Arc.{arc_value};
ghost use Rattle.dh_changes.specs.World.{facts};
ghost use Rattle.table_build.specs.Log.{writes_of};
ghost use Rattle.table_rows.specs.Cells.{gathered};
ghost use Rattle.latest_build.specs.Touches as known;

use dh_base::memory::Memory;
use dh_base::uid::Uid;
use dh_changes::change::{Change, Write};
use dh_changes::world::World;
use std::alloc::Global;
use std::sync::Arc;

fn put_id(ids: &mut Vec<Uid>, id: Uid) -> Result<(), Memory>
    ensures { OnOk result (ids.new.items ≡ ids.old.items ++ id ∷ []) }
{
    ids.push(id)?;
    Ok(())
}

fn put_of_enrollment(
    alloc: Global,
    ids: &mut Vec<Uid>,
    world: &World,
    enrollment: Uid,
) -> Result<(), Memory>
    ensures { OnOk result (ids.new.items ≡ ids.old.items ++ (facts world.now).events_of enrollment) }
{
    let more = world.events_of(alloc, enrollment)?;
    ids.extend_from_slice(more.as_slice())?;
    Ok(())
}

fn put_of_enrollments(
    alloc: Global,
    ids: &mut Vec<Uid>,
    world: &World,
    enrollments: &[Uid],
) -> Result<(), Memory>
    ensures { OnOk result (ids.new.items ≡ ids.old.items ++ gathered (facts world.now).events_of enrollments.now) }
{
    for enrollment in enrollments {
        put_of_enrollment(alloc, ids, world, *enrollment)?;
    }
    Ok(())
}

fn put_of_entity(
    alloc: Global,
    ids: &mut Vec<Uid>,
    world: &World,
    entity: Uid,
) -> Result<(), Memory>
    ensures { OnOk result (ids.new.items ≡ ids.old.items ++ known.events_under (facts world.now) entity) }
{
    let enrollments = world.enrollments_of(alloc, entity)?;
    put_of_enrollments(alloc, ids, world, enrollments.as_slice())
}

fn put_write(alloc: Global, ids: &mut Vec<Uid>, world: &World, write: &Write) -> Result<(), Memory>
    ensures { OnOk result (ids.new.items ≡ ids.old.items ++ known.events_by (facts world.now) write.now) }
{
    match write {
        Write::EventWritten(event) => put_id(ids, event.get().id),
        Write::EventDeleted(id) => put_id(ids, *id),
        Write::EnrollmentWritten(enrollment) => {
            put_of_enrollment(alloc, ids, world, enrollment.get().id)
        }
        Write::EnrollmentDeleted(id) => put_of_enrollment(alloc, ids, world, *id),
        Write::EntityWritten(entity) => put_of_entity(alloc, ids, world, entity.get().id),
        Write::EntityDeleted(id) => put_of_entity(alloc, ids, world, *id),
        _ => Ok(()),
    }
}

fn put_writes(
    alloc: Global,
    ids: &mut Vec<Uid>,
    world: &World,
    writes: &[Write],
) -> Result<(), Memory>
    ensures { OnOk result (ids.new.items ≡ ids.old.items ++ known.events_touched (facts world.now) writes.now) }
{
    for write in writes {
        put_write(alloc, ids, world, write)?;
    }
    Ok(())
}

/// The identifiers of events that the writes of the changes touch, by what the world holds after them.
pub(crate) fn events_touched(
    alloc: Global,
    world: &World,
    changes: &[Arc<Change>],
) -> Result<Vec<Uid>, Memory>
    ensures { IfOk result (λ ids. ids.items ≡ known.events_touched (facts world.now) (writes_of (map arc_value changes.now))) }
{
    let mut ids: Vec<Uid> = Vec::new(alloc);
    for change in changes {
        put_writes(alloc, &mut ids, world, change.writes.as_slice())?;
    }
    Ok(ids)
}
