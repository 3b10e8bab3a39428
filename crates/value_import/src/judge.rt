//! How a data value is judged.

ghost use Rattle.std.specs.Prelude.{◌≡◌, IfOk};
ghost use Rattle.dh_changes.specs.World.{facts};
ghost use Rattle.value_import.specs.Outcomes.{IsKnown};
ghost use Rattle.value_import.specs.Ranges.{IsValueWithin};
ghost use Rattle.value_import.specs.Rules.{first_of};
ghost use Rattle.value_import.specs.Said.{AreSaid, holds_value};
ghost use Rattle.value_import.specs.Values.{placed_conditions, accepted, judged_by, key_of, judged_value};

use crate::asking::Asking;
use crate::batch::{Batch, holds_value};
use crate::effect::{Slot, accepted, value_condition};
use crate::judged::Judged;
use crate::place::ValuePlace;
use crate::rules::place_condition;
use crate::value::{key_of, placed};
use dh_base::memory::Memory;
use dh_changes::outcome::ImportStrategy;
use import_forms::set::{SetValue, ValueSet};
use std::alloc::Global;

// What a value comes to in its place.
fn judge_placed(
    alloc: Global,
    asking: &Asking<'_>,
    strategy: ImportStrategy,
    batch: &Batch,
    place: &ValuePlace,
    value: &SetValue,
) -> Result<Judged, Memory>
    requires who { IsKnown asking.now.meta.now asking.now.who }
    requires place { IsValueWithin asking.now.meta.now place.now }
    requires said { AreSaid batch.now.values batch.now.registrations batch.now.verdict.writes }
    ensures { IfOk result (λ judged. judged ≡ judged_by
        (first_of (placed_conditions (facts asking.now.world.now) asking.now.meta.now asking.now.who asking.now.today strategy
        (holds_value (facts asking.now.world.now) batch.now.verdict.writes (key_of asking.now.meta.now place.now)) place.now value.now))
        (accepted asking.now.meta.now strategy (key_of asking.now.meta.now place.now)
        (holds_value (facts asking.now.world.now) batch.now.verdict.writes (key_of asking.now.meta.now place.now)) place.now.element value.now)) }
{
    let key = key_of(asking.meta, place);
    let held = holds_value(asking.world, batch, &key);
    if let Some(code) = place_condition(asking.world, asking.meta, asking.who, &place.at) {
        return Ok(Judged::Refused(code));
    }
    if let Some(code) = value_condition(asking, strategy, held, place, value) {
        return Ok(Judged::Refused(code));
    }
    let slot = Slot { key, held };
    accepted(alloc, asking.meta, strategy, slot, place.element, value)
}

/// What a value comes to, after the writes accepted so far.
pub fn judge_value(
    alloc: Global,
    asking: &Asking<'_>,
    set: &ValueSet,
    batch: &Batch,
    value: &SetValue,
) -> Result<Judged, Memory>
    requires who { IsKnown asking.now.meta.now asking.now.who }
    requires said { AreSaid batch.now.values batch.now.registrations batch.now.verdict.writes }
    ensures { IfOk result (λ judged. judged ≡ judged_value (facts asking.now.world.now) asking.now.meta.now asking.now.who asking.now.today
        set.now (holds_value (facts asking.now.world.now) batch.now.verdict.writes) value.now) }
{
    match placed(asking.meta, set, value) {
        Ok(place) => judge_placed(alloc, asking, set.params.strategy, batch, &place, value),
        Err(code) => Ok(Judged::Refused(code)),
    }
}
