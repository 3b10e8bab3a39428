//! Samples, brought to an engine set by set.
ghost use Rattle.std.specs.Prelude.{◌≡◌, ◌≤◌, ◌<◌, ◌+◌, ◌/◌, ℕ, [], None, OnOk};
ghost use Rattle.dh_metadata.specs.declared.held.Records.{Records};
ghost use Rattle.engine.specs.InMemory.{largest, started};
ghost use Rattle.offline_replies.specs.Sets.{sample_sets};
ghost use Rattle.offline_replies.specs.Loaded.{with_set, log_with, HasLoaded, IsUpdated};

use crate::load::load_values;
use crate::samples::draws::{Draws, Sample};
use crate::samples::sets::values_of;
use dh_base::memory::Memory;
use dh_base::plain::CutKind;
use engine::{Engine, Unkept};
use std::alloc::Global;

// The most samples of a set.
const MOST_SAMPLES: u32 = 1000;

// After so many sets, each time, the latest part of the tables is made anew.
const SETS_BETWEEN: u32 = 10;

// Brings samples to the engine, whatever the report on them is.
fn bring(
    alloc: Global,
    engine: &mut Engine<Unkept>,
    moment: i64,
    samples: &[Sample],
) -> Result<(), Memory>
    requires faults { engine.old.faults ≡ 0 }
    requires limits { engine.old.limits ≡ largest }
    ensures loaded { (r : Records) (updates : ℕ) → HasLoaded r updates engine.old → HasLoaded r updates engine.new }
    ensures log { OnOk result (engine.new.state.log ≡ with_set engine.old.meta moment engine.old.state.log samples.now) }
{
    let values = values_of(alloc, samples)?;
    let found = load_values(alloc, engine, moment, values)?;
    drop(found);
    Ok(())
}

// Makes a latest update, of what was brought since the last one.
#[tactic(auto, using(crate::proofs::LoadLemmas::updated))]
fn update_latest(alloc: Global, engine: &mut Engine<Unkept>) -> Result<(), Memory>
    requires full { engine.old.state.full ≡ None }
    requires latest { engine.old.state.latest ≡ None }
    requires more { engine.old.state.ticket < engine.old.limits.updates }
    ensures { OnOk result (IsUpdated engine.old engine.new) }
{
    let Ok(cut) = engine.cut(alloc, CutKind::Latest) else {
        return Err(Memory);
    };
    engine.swap(alloc, cut.ticket)?;
    Ok(())
}

// A latest update follows each tenth set.
#[tactic(auto, using(crate::proofs::LoadLemmas::after_set))]
fn update_after(alloc: Global, engine: &mut Engine<Unkept>, set: u32) -> Result<(), Memory>
    requires few { set < 200 }
    requires loaded { HasLoaded engine.old.meta set engine.old }
    ensures loaded { OnOk result (HasLoaded engine.old.meta (set + 1) engine.new) }
    ensures log { OnOk result (engine.new.state.log ≡ engine.old.state.log) }
{
    if set % SETS_BETWEEN == SETS_BETWEEN - 1 {
        update_latest(alloc, engine)
    } else {
        Ok(())
    }
}

// How many sets so many samples make.
fn set_count(count: u32) -> u32
    requires { count ≤ 200000 }
    ensures { result ≡ (count + 999) / 1000 }
{
    (count + 999) / 1000
}

/// Brings so many samples to an engine without a change, in sets of 1,000, at a moment in seconds from 1970-01-01 in
/// UTC. A latest update follows each tenth set.
#[tactic(auto, unfolding(crate::specs::Sets::sample_sets))]
pub(crate) fn load_samples(
    alloc: Global,
    engine: &mut Engine<Unkept>,
    moment: i64,
    count: u32,
) -> Result<(), Memory>
    requires few { count ≤ 200000 }
    requires start { engine.old ≡ started engine.old.meta }
    ensures loaded { OnOk result (HasLoaded engine.old.meta 200 engine.new) }
    ensures log { OnOk result (engine.new.state.log ≡ log_with engine.old.meta moment [] (sample_sets count)) }
{
    let mut draws = Draws { state: 1 };
    let mut left = count;
    let sets = set_count(count);
    for set in 0..sets {
        let samples = draws.next_samples(alloc, left.min(MOST_SAMPLES))?;
        bring(alloc, engine, moment, samples.as_slice())?;
        update_after(alloc, engine, set)?;
        left = left.saturating_sub(MOST_SAMPLES);
    }
    Ok(())
}
