//! The keys that changes touch.
ghost use Rattle.std.specs.Prelude.{◌≡◌, ◌++◌, List, length, map, IfOk};
ghost use Rattle.std.specs.Arc.{arc_value};
ghost use Rattle.dh_changes.specs.declared.change.Write.{Write as LogWrite};
ghost use Rattle.dh_changes.specs.Facts.{facts_in};
ghost use Rattle.dh_changes.specs.World.{facts};
ghost use Rattle.table_build.specs.Log.{writes_of, values_named, regs_named};
ghost use Rattle.latest_build.specs.Covers.{Covers};
ghost use Rattle.table_build.specs.Listed.{listed_in};
ghost use Rattle.table_sums.specs.YearParts.{rows_together};
ghost use Rattle.latest_build.specs.Found.{values_sought};
ghost use Rattle.latest_build.specs.Places.{value_places};
ghost use Rattle.latest_build.specs.Touches.{events_touched, values_touched};

use crate::build::units_stand;
use crate::decided::{TouchedValues, values_touched};
use crate::touched::LogKeys;
use crate::tracker::events_touched;
use dh_base::memory::Memory;
use dh_base::uid::Uid;
use dh_changes::change::Change;
use dh_changes::keys::{RegKey, ValueKey};
use dh_changes::world::World;
use dh_metadata::metadata::Metadata;
use std::alloc::Global;
use std::sync::Arc;
use table_build::named::named_in;
use table_sums::Tables;

/// Keys that writes touch, in the order of the writes.
#[derive(Drop)]
pub struct NamedKeys {
    pub values: Vec<ValueKey>,
    pub events: Vec<Uid>,
    pub regs: Vec<RegKey>,
    // how many of the values the writes themselves name; these stand first
    pub(crate) named: usize,
}

impl NamedKeys {
    /// The keys, lent.
    pub fn keys(&self) -> LogKeys<'_>
        ensures values { result.values.now ≡ self.now.values.items }
        ensures events { result.events.now ≡ self.now.events.items }
        ensures regs { result.regs.now ≡ self.now.regs.items }
    {
        LogKeys {
            values: &self.values,
            events: &self.events,
            regs: &self.regs,
        }
    }
}

/// The keys that the last of the changes touch, after those that the base stands for, by what the world holds after all: the values
/// that they name and those of the base whose approval they decide, the registrations that they name, and the events that they name
/// or that hang on what they name. What isn't among these is after all changes as it was after any of the last.
pub fn keys_touched(
    alloc: Global,
    meta: &Metadata,
    world: &World,
    base: &Tables,
    last: &[Arc<Change>],
) -> Result<NamedKeys, Memory>
    ensures values { IfOk result (λ keys. keys.values.items ≡ values_sought meta.now (rows_together base.now.parts) (writes_of (map arc_value last.now))) }
    ensures named { IfOk result (λ keys. keys.named ≡ length (values_named (writes_of (map arc_value last.now)))) }
    ensures events { IfOk result (λ keys. keys.events.items ≡ events_touched (facts world.now) (writes_of (map arc_value last.now))) }
    ensures regs { IfOk result (λ keys. keys.regs.items ≡ regs_named (writes_of (map arc_value last.now))) }
    ensures same { IfOk result (λ keys. (start : List LogWrite) → rows_together base.now.parts ≡ (listed_in meta.now start).rows
        → value_places meta.now (facts world.now) keys.values.items
        ≡ value_places meta.now (facts world.now) (values_touched meta.now start (writes_of (map arc_value last.now)))) }
    ensures cover { IfOk result (λ keys. (start before first more : List LogWrite) → rows_together base.now.parts ≡ (listed_in meta.now start).rows
        → facts world.now ≡ facts_in (start ++ writes_of (map arc_value last.now)) → start ++ writes_of (map arc_value last.now) ≡ before ++ more
        → writes_of (map arc_value last.now) ≡ first ++ more
        → Covers meta.now (facts_in before) (facts world.now) keys.values.items keys.events.items keys.regs.items) }
{
    units_stand(meta);
    let values = values_touched(alloc, meta, base, last)?;
    let events = events_touched(alloc, world, last)?;
    let regs: Vec<RegKey> = named_in(alloc, last)?;
    let TouchedValues { keys, named } = values;
    Ok(NamedKeys {
        values: keys,
        events,
        regs,
        named,
    })
}
