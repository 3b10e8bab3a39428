//! The touched keys of a log as keys of tables.
ghost use Rattle.std.specs.Prelude.{◌≡◌, ◌<◌, [], length, IfOk};
ghost use Rattle.std.specs.Cmp.Lexicographic.{slice_cmp};
ghost use Rattle.std.specs.List.{filter_map};
ghost use Rattle.std.specs.Ordering.{nat_cmp};
ghost use Rattle.dh_changes.specs.World.{facts};
ghost use Rattle.table_build.specs.Ordered.{put_all};
ghost use Rattle.table_latest.specs.Keys.{reg_place_cmp};
ghost use Rattle.table_latest.specs.Latest.{touched_in};
ghost use Rattle.latest_build.specs.Places as known;

use dh_base::memory::Memory;
use dh_base::uid::Uid;
use dh_changes::keys::{RegKey, ValueKey};
use dh_changes::world::World;
use dh_metadata::metadata::Metadata;
use dh_records::access::tree_of;
use std::alloc::Global;
use std::collections::BTreeMap;
use table_build::regs::{RegObjects, objects_of};
use table_latest::{RegPlace, RowPlace, TouchedKeys};

/// Keys of a log, in any order.
#[derive(Clone, Copy)]
pub struct LogKeys<'a> {
    pub values: &'a [ValueKey],
    /// Events by their identifiers.
    pub events: &'a [Uid],
    pub regs: &'a [RegKey],
}

#[tactic(auto, unfolding(crate::specs::Places::reg_place))]
fn reg_place(meta: &Metadata, world: &World, key: &RegKey) -> Option<RegPlace>
    ensures { result ≡ known.reg_place meta.now (facts world.now) key.now }
{
    let objects = objects_of(meta, key)?;
    Some(RegPlace {
        set: objects.set,
        period: key.period,
        order: tree_of(world, meta).order(objects.unit),
        attribute: objects.attribute,
    })
}

#[tactic(auto, unfolding(crate::specs::Places::reg_places))]
fn reg_places(
    alloc: Global,
    meta: &Metadata,
    world: &World,
    keys: &[RegKey],
) -> Result<Vec<RegPlace>, Memory>
    ensures { IfOk result (λ places. places.items ≡ known.reg_places meta.now (facts world.now) keys.now) }
{
    let mut map = BTreeMap::new(alloc);
    for key in keys {
        if let Some(place) = reg_place(meta, world, key) {
            map.insert(place, place)?;
        }
    }
    Ok(map.into_values().collect(alloc)?)
}

#[tactic(auto, unfolding(crate::specs::Places::event_ids))]
fn event_ids(alloc: Global, ids: &[Uid]) -> Result<Vec<Uid>, Memory>
    ensures { IfOk result (λ all. all.items ≡ known.event_ids ids.now) }
{
    let mut map = BTreeMap::new(alloc);
    for id in ids {
        map.insert(*id, *id)?;
    }
    Ok(map.into_values().collect(alloc)?)
}

/// These keys as keys of tables, each list ascending, where those of the values are made.
pub(crate) fn touched_keys(
    alloc: Global,
    meta: &Metadata,
    world: &World,
    keys: &LogKeys<'_>,
    rows: Vec<RowPlace>,
) -> Result<TouchedKeys, Memory>
    requires { rows.items ≡ known.value_places meta.now (facts world.now) keys.now.values.now }
    ensures { IfOk result (λ touched. touched_in touched ≡ known.touched_of meta.now
        (facts world.now) keys.now.values.now keys.now.events.now keys.now.regs.now) }
{
    let events = event_ids(alloc, keys.events)?;
    let regs = reg_places(alloc, meta, world, keys.regs)?;
    Ok(TouchedKeys { rows, events, regs })
}
