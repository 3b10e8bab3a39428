//! The verdict on a data value set and on completions.

ghost use Rattle.std.specs.Prelude.{◌≡◌, ◌+◌, ◌<◌, [], length, IsTrue, OnOk, IfOk};
ghost use Rattle.std.specs.List.{All};
ghost use Rattle.change_log.specs.Forms.{WriteFits};
ghost use Rattle.dh_periods.specs.Moment.{day_of};
ghost use Rattle.dh_changes.specs.World.{facts};
ghost use Rattle.value_import.specs.Outcomes.{finished, AreAtMost, IsKnown};
ghost use Rattle.value_import.specs.Said.{AreSaid};
ghost use Rattle.value_import.specs.Sizes.{IsValueWrite};
ghost use Rattle.value_import.specs.Verdicts.{with_values, with_date, verdict_of, with_completions, completions_verdict_of};

use crate::asking::Asking;
use crate::batch::{Batch, empty_batch, take_in};
use crate::completion::{completion_in, judge_completion, uncounted};
use crate::judge::judge_value;
use dh_base::items::Items;
use dh_base::memory::Memory;
use dh_changes::outcome::{Verdict, Who};
use dh_changes::world::World;
use dh_metadata::metadata::Metadata;
use dh_periods::day_of;
use import_forms::completion::Completion;
use import_forms::set::ValueSet;
use std::alloc::Global;

#[tactic(auto, unfolding(crate::specs::Verdicts::with_date))]
fn with_date(
    alloc: Global,
    asking: &Asking<'_>,
    set: &ValueSet,
    batch: &mut Batch,
) -> Result<(), Memory>
    requires who { IsKnown asking.now.meta.now asking.now.who }
    requires said { AreSaid batch.old.values batch.old.registrations batch.old.verdict.writes }
    requires counts { AreAtMost (length set.now.values) batch.old.verdict }
    ensures { OnOk result (batch.new.verdict ≡ with_date (facts asking.now.world.now) asking.now.meta.now asking.now.who asking.now.today
        set.now batch.old.verdict) }
{
    if set.complete_date.is_none() {
        return Ok(());
    }
    let asked = completion_in(alloc, set)?;
    let judged = judge_completion(asking, batch, &asked);
    let index = set.values.as_slice().len() as u64;
    take_in(batch, index, uncounted(judged))
}

// Takes in the values of a set, and the completion that its date asks for.
fn with_set(
    alloc: Global,
    asking: &Asking<'_>,
    set: &ValueSet,
    batch: &mut Batch,
) -> Result<(), Memory>
    requires who { IsKnown asking.now.meta.now asking.now.who }
    requires said { AreSaid batch.old.values batch.old.registrations batch.old.verdict.writes }
    requires counts { AreAtMost 0 batch.old.verdict }
    ensures { OnOk result (batch.new.verdict ≡ with_date (facts asking.now.world.now) asking.now.meta.now asking.now.who asking.now.today set.now
        (with_values (facts asking.now.world.now) asking.now.meta.now asking.now.who asking.now.today set.now 0 set.now.values batch.old.verdict)) }
{
    let values = set.values.as_slice();
    let mut index = 0u64;
    for value in values {
        let judged = judge_value(alloc, asking, set, batch, value)?;
        take_in(batch, index, judged)?;
        index += 1;
    }
    with_date(alloc, asking, set, batch)
}

// A log keeps the writes as long as it stands: the room that is left over is given back.
fn finished(alloc: Global, dry: bool, batch: Batch) -> Verdict
    ensures { result ≡ finished dry batch.verdict }
{
    let mut verdict = batch.verdict;
    if dry {
        verdict.writes = Items::new(alloc);
    }
    verdict.writes.items.shrink_to_fit();
    verdict
}

/// The verdict on a data value set. Each value is judged by what holds after the log and the writes
/// accepted before it in the set. A user is named by a number of the metadata. Each write fits the
/// bytes of a change.
#[tactic(auto, unfolding(crate::specs::Verdicts::verdict_of))]
pub fn verdict(
    alloc: Global,
    world: &World,
    meta: &Metadata,
    who: Who,
    moment: i64,
    set: &ValueSet,
) -> Result<Verdict, Memory>
    requires { IsKnown meta.now who }
    ensures value { IfOk result (λ verdict. verdict ≡ verdict_of (facts world.now) meta.now who moment set.now) }
    ensures writes { IfOk result (λ verdict. All (IsValueWrite (day_of moment)) verdict.writes) }
    ensures fits { IfOk result (λ verdict. All WriteFits verdict.writes) }
    ensures dry { IsTrue set.now.params.dry → IfOk result (λ verdict. verdict.writes ≡ []) }
{
    let asking = Asking {
        world,
        meta,
        who,
        today: day_of(moment),
    };
    let writes = Items::from(Vec::with_capacity(alloc, set.values.len())?);
    let mut batch = empty_batch(alloc, writes);
    with_set(alloc, &asking, set, &mut batch)?;
    Ok(finished(alloc, set.params.dry, batch))
}

fn with_completions(
    asking: &Asking<'_>,
    list: &[Completion],
    batch: &mut Batch,
) -> Result<(), Memory>
    requires who { IsKnown asking.now.meta.now asking.now.who }
    requires said { AreSaid batch.old.values batch.old.registrations batch.old.verdict.writes }
    requires counts { AreAtMost 0 batch.old.verdict }
    ensures { OnOk result (batch.new.verdict ≡ with_completions (facts asking.now.world.now) asking.now.meta.now asking.now.who asking.now.today
        0 list.now batch.old.verdict) }
{
    let mut index = 0u64;
    for asked in list {
        take_in(batch, index, judge_completion(asking, batch, asked))?;
        index += 1;
    }
    Ok(())
}

/// The verdict on completions. Each is judged by what holds after the log and the writes accepted
/// before it in the list. A user is named by a number of the metadata. Each write fits the bytes of a
/// change.
#[tactic(auto, unfolding(crate::specs::Verdicts::completions_verdict_of))]
pub fn judge_completions(
    alloc: Global,
    world: &World,
    meta: &Metadata,
    who: Who,
    moment: i64,
    list: &[Completion],
) -> Result<Verdict, Memory>
    requires { IsKnown meta.now who }
    ensures value { IfOk result (λ verdict. verdict ≡ completions_verdict_of (facts world.now) meta.now who moment list.now) }
    ensures writes { IfOk result (λ verdict. All (IsValueWrite (day_of moment)) verdict.writes) }
    ensures fits { IfOk result (λ verdict. All WriteFits verdict.writes) }
{
    let asking = Asking {
        world,
        meta,
        who,
        today: day_of(moment),
    };
    let mut batch = empty_batch(alloc, Items::new(alloc));
    with_completions(&asking, list, &mut batch)?;
    Ok(batch.verdict)
}
