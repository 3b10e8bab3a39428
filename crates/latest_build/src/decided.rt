//! The values whose approval changes decide.
ghost use Rattle.std.specs.Prelude.{◌≡◌, [], length, map, OnOk, IfOk};
ghost use Rattle.std.specs.Arc.{arc_value};
ghost use Rattle.std.specs.List.{filter};
ghost use Rattle.dh_changes.specs.declared.change.Write.TheVariants as write;
ghost use Rattle.dh_changes.specs.Facts.{facts_in};
ghost use Rattle.dh_changes.specs.World.{facts};
ghost use Rattle.table_sums.specs.YearParts.{rows_together};
ghost use Rattle.table_build.specs.Log.{writes_of, values_named};
ghost use Rattle.latest_build.specs.Found.{decided_by, values_sought};
ghost use Rattle.latest_build.specs.Touches as known;

use crate::approvals::approvals_of;
use crate::found::found;
use dh_base::items::Items;
use dh_base::memory::Memory;
use dh_changes::change::{Change, Write};
use dh_changes::keys::{ApprovalKey, ValueKey};
use dh_changes::world::World;
use dh_metadata::metadata::Metadata;
use dh_records::approved::approved_at;
use std::alloc::Global;
use std::sync::Arc;
use table_build::named::named_in;
use table_sums::Tables;

fn approving(alloc: Global, keys: &[ApprovalKey]) -> Result<Change, Memory>
    ensures { IfOk result (λ change. change.writes ≡ map write.Approve keys.now) }
{
    let mut writes: Vec<Write> = Vec::new(alloc);
    for key in keys {
        writes.push(Write::Approve(*key))?;
    }
    Ok(Change {
        user: None,
        moment: 0,
        writes: Items { items: writes },
    })
}

fn world_of(alloc: Global, change: &Change) -> Result<World, Memory>
    ensures { IfOk result (λ world. facts world ≡ facts_in change.now.writes) }
{
    let mut world = World::new(alloc);
    world.reserve(alloc, change.writes.as_slice())?;
    world.apply(change);
    Ok(world)
}

// The world in which these keys are approved and no others: by it the position of a value is looked for as in any.
fn approved_alone(alloc: Global, keys: &[ApprovalKey]) -> Result<World, Memory>
    ensures { IfOk result (λ world. facts world ≡ known.approved_alone keys.now) }
{
    let change = approving(alloc, keys)?;
    let world = world_of(alloc, &change);
    drop(change);
    world
}

fn decided_among(
    alloc: Global,
    meta: &Metadata,
    world: &World,
    keys: &[ValueKey],
) -> Result<Vec<ValueKey>, Memory>
    ensures { IfOk result (λ decided. decided.items ≡ filter (known.has_position meta.now (facts world.now)) keys.now) }
{
    let mut decided: Vec<ValueKey> = Vec::new(alloc);
    for key in keys {
        if approved_at(world, meta, key).is_some() {
            decided.push(*key)?;
        }
    }
    Ok(decided)
}

// The values of the base whose approval the last of the changes decide.
fn values_decided(
    alloc: Global,
    meta: &Metadata,
    base: &Tables,
    last: &[Arc<Change>],
) -> Result<Vec<ValueKey>, Memory>
    ensures { IfOk result (λ decided. decided.items ≡ decided_by meta.now (rows_together base.now.parts) (known.approvals_named
        (writes_of (map arc_value last.now)))) }
{
    let approvals = approvals_of(alloc, last)?;
    let keys = found(alloc, meta, base, &approvals)?;
    let world = approved_alone(alloc, &approvals)?;
    let decided = decided_among(alloc, meta, &world, &keys);
    drop(world);
    decided
}

/// Keys of values that writes touch: as many as `named` are those that the writes name, in their order.
#[derive(Drop)]
pub(crate) struct TouchedValues {
    pub keys: Vec<ValueKey>,
    pub named: usize,
}

/// The keys of values that the last of the changes touch, after those that the base stands for.
pub(crate) fn values_touched(
    alloc: Global,
    meta: &Metadata,
    base: &Tables,
    last: &[Arc<Change>],
) -> Result<TouchedValues, Memory>
    ensures keys { IfOk result (λ touched. touched.keys.items
        ≡ values_sought meta.now (rows_together base.now.parts) (writes_of (map arc_value last.now))) }
    ensures named { IfOk result (λ touched. touched.named ≡ length (values_named (writes_of (map arc_value last.now)))) }
{
    let mut keys: Vec<ValueKey> = named_in(alloc, last)?;
    let named = keys.len();
    let mut decided = values_decided(alloc, meta, base, last)?;
    keys.append(&mut decided)?;
    Ok(TouchedValues { keys, named })
}
