//! The verdict on a tracker bundle.

ghost use Rattle.std.specs.Prelude.{◌≡◌, ◌<◌, ◌^◌, ◌&&◌, not, length, IfOk, OnOk};
ghost use Rattle.std.specs.List.{All};
ghost use Rattle.change_log.specs.Forms.{WriteFits};
ghost use Rattle.dh_changes.specs.World.{facts};
ghost use Rattle.dh_metadata.specs.declared.kind.Kind.TheVariants as kind;
ghost use Rattle.value_import.specs.Outcomes.{IsKnown};
ghost use Rattle.tracker_import.specs.Batches.{IsBatch};
ghost use Rattle.tracker_import.specs.Deletes as deletes;
ghost use Rattle.tracker_import.specs.Outcomes as outcomes;
ghost use Rattle.tracker_import.specs.Outcomes.{sofar_of, AreAtMost};
ghost use Rattle.tracker_import.specs.Rules.{id_in};
ghost use Rattle.tracker_import.specs.Verdicts as verdicts;

use crate::asking::Asking;
use crate::batch::{
    Batch, empty_batch, enrollment_now, entity_now, event_now, is_repeated, take_in,
};
use crate::deletes::{deleted, enrollment_gone, entity_gone};
use crate::enrollments::judge_enrollment;
use crate::entities::{Standing, judge_entity, only};
use crate::events::judge_event;
use crate::items::id_in;
use crate::judged::Judged;
use crate::object::Object;
use crate::places::Live;
use dh_base::items::Items;
use dh_base::memory::Memory;
use dh_base::uid::Uid;
use dh_changes::change::Write;
use dh_changes::outcome::{Verdict, Who};
use dh_changes::world::World;
use dh_metadata::kind::Kind;
use dh_metadata::metadata::Metadata;
use import_forms::bundle::Bundle;
use import_forms::enrollment::BundleEnrollment;
use import_forms::entity::BundleEntity;
use import_forms::event::BundleEvent;
use std::alloc::Global;
use value_import::strategy::is_delete_all;

impl Object for BundleEntity {
    ghost own = { λ asked. id_in asked.id };

    ghost owned_by = { kind.TrackedEntityType };

    ghost there = { verdicts.entity_there };

    ghost removal = { deletes.entity_gone };

    ghost written = { verdicts.entity_write };

    fn id(&self) -> Option<Uid> {
        id_in(&self.id)
    }

    fn owners() -> Kind {
        Kind::TrackedEntityType
    }

    fn live(world: &World, batch: &Batch, id: &Option<Uid>) -> Option<Live> {
        match entity_now(world, batch, id) {
            Some(entity) => Some(Live {
                unit: entity.unit,
                owner: entity.kind,
                orphaned: false,
            }),
            None => None,
        }
    }

    fn gone(alloc: Global, world: &World, batch: &Batch, id: Uid) -> Result<Items<Write>, Memory> {
        entity_gone(alloc, world, batch, id)
    }

    #[tactic(auto, unfolding(crate::specs::Verdicts::entity_write))]
    fn write(
        &self,
        alloc: Global,
        asking: &Asking<'_>,
        world: &World,
        batch: &Batch,
    ) -> Result<Judged, Memory> {
        let id = id_in(&self.id);
        let before = entity_now(world, batch, &id);
        judge_entity(alloc, asking, before, is_repeated(batch, &id), self)
    }
}

impl Object for BundleEnrollment {
    ghost own = { λ asked. id_in asked.id };

    ghost owned_by = { kind.Program };

    ghost there = { verdicts.enrollment_there };

    ghost removal = { deletes.enrollment_gone };

    ghost written = { verdicts.enrollment_write };

    fn id(&self) -> Option<Uid> {
        id_in(&self.id)
    }

    fn owners() -> Kind {
        Kind::Program
    }

    fn live(world: &World, batch: &Batch, id: &Option<Uid>) -> Option<Live> {
        match enrollment_now(world, batch, id) {
            Some(at) => Some(Live {
                unit: at.unit,
                owner: at.program,
                orphaned: entity_now(world, batch, &Some(at.entity)).is_none(),
            }),
            None => None,
        }
    }

    fn gone(alloc: Global, world: &World, batch: &Batch, id: Uid) -> Result<Items<Write>, Memory> {
        enrollment_gone(alloc, world, batch, id)
    }

    #[tactic(auto, unfolding(crate::specs::Verdicts::enrollment_write))]
    fn write(
        &self,
        alloc: Global,
        asking: &Asking<'_>,
        world: &World,
        batch: &Batch,
    ) -> Result<Judged, Memory> {
        let id = id_in(&self.id);
        let live = enrollment_now(world, batch, &id).is_some();
        let repeated = is_repeated(batch, &id);
        let parent = entity_now(world, batch, &id_in(&self.entity));
        judge_enrollment(alloc, asking, Standing { live, repeated }, parent, self)
    }
}

impl Object for BundleEvent {
    ghost own = { λ asked. id_in asked.id };

    ghost owned_by = { kind.Program };

    ghost there = { verdicts.event_there };

    ghost removal = { verdicts.event_gone };

    ghost written = { verdicts.event_write };

    fn id(&self) -> Option<Uid> {
        id_in(&self.id)
    }

    fn owners() -> Kind {
        Kind::Program
    }

    fn live(world: &World, batch: &Batch, id: &Option<Uid>) -> Option<Live> {
        match event_now(world, batch, id) {
            Some(at) => Some(Live {
                unit: at.unit,
                owner: at.program,
                orphaned: at.enrollment.is_some()
                    && enrollment_now(world, batch, &at.enrollment).is_none(),
            }),
            None => None,
        }
    }

    fn gone(
        alloc: Global,
        _world: &World,
        _batch: &Batch,
        id: Uid,
    ) -> Result<Items<Write>, Memory> {
        only(alloc, Write::EventDeleted(id))
    }

    #[tactic(auto, unfolding(crate::specs::Verdicts::event_write))]
    fn write(
        &self,
        alloc: Global,
        asking: &Asking<'_>,
        world: &World,
        batch: &Batch,
    ) -> Result<Judged, Memory> {
        let id = id_in(&self.id);
        let live = event_now(world, batch, &id).is_some();
        let repeated = is_repeated(batch, &id);
        let parent = enrollment_now(world, batch, &id_in(&self.enrollment));
        judge_event(alloc, asking, Standing { live, repeated }, parent, self)
    }
}

#[tactic(auto, unfolding(crate::specs::Verdicts::with_one))]
fn with_one<T: Object>(
    alloc: Global,
    asking: &Asking<'_>,
    batch: &mut Batch,
    asked: &T,
) -> Result<(), Memory>
    requires who { IsKnown asking.now.meta.now asking.now.who }
    requires held { IsBatch batch.old }
    ensures sofar { OnOk result (sofar_of batch.new.verdict batch.new.judged ≡ verdicts.with_one T.own (verdicts.deleted T.owned_by T.there T.removal) T.written
        (facts asking.now.world.now) asking.now.meta.now asking.now.who asking.now.strategy asked.now (sofar_of batch.old.verdict batch.old.judged)) }
    ensures held { OnOk result (IsBatch batch.new) }
{
    let id = asked.id();
    let judged = if is_delete_all(asking.strategy) {
        deleted::<T>(alloc, asking, batch, &id)?
    } else {
        asked.write(alloc, asking, asking.world, batch)?
    };
    take_in(alloc, batch, &id, judged)
}

fn with_each<T: Object>(
    alloc: Global,
    asking: &Asking<'_>,
    batch: &mut Batch,
    list: &[T],
) -> Result<(), Memory>
    requires who { IsKnown asking.now.meta.now asking.now.who }
    requires held { IsBatch batch.old }
    ensures sofar { OnOk result (sofar_of batch.new.verdict batch.new.judged ≡ verdicts.with_each (verdicts.with_one T.own
        (verdicts.deleted T.owned_by T.there T.removal) T.written (facts asking.now.world.now) asking.now.meta.now asking.now.who
        asking.now.strategy) list.now (sofar_of batch.old.verdict batch.old.judged)) }
    ensures held { OnOk result (IsBatch batch.new) }
{
    for asked in list {
        with_one(alloc, asking, batch, asked)?;
    }
    Ok(())
}

#[tactic(auto, unfolding(crate::specs::Verdicts::with_all))]
fn with_all(
    alloc: Global,
    asking: &Asking<'_>,
    batch: &mut Batch,
    bundle: &Bundle,
) -> Result<(), Memory>
    requires who { IsKnown asking.now.meta.now asking.now.who }
    requires held { IsBatch batch.old }
    requires none { sofar_of batch.old.verdict batch.old.judged ≡ outcomes.none }
    requires strategy { asking.now.strategy ≡ bundle.now.params.strategy }
    ensures sofar { OnOk result (sofar_of batch.new.verdict batch.new.judged ≡ verdicts.with_all (facts asking.now.world.now) asking.now.meta.now
        asking.now.who bundle.now) }
    ensures held { OnOk result (IsBatch batch.new) }
{
    if is_delete_all(asking.strategy) {
        with_each(alloc, asking, batch, bundle.events.as_slice())?;
        with_each(alloc, asking, batch, bundle.enrollments.as_slice())?;
        with_each(alloc, asking, batch, bundle.entities.as_slice())
    } else {
        with_each(alloc, asking, batch, bundle.entities.as_slice())?;
        with_each(alloc, asking, batch, bundle.enrollments.as_slice())?;
        with_each(alloc, asking, batch, bundle.events.as_slice())
    }
}

// Whether nothing of a verdict is to be written.
fn is_unwritten(atomic: bool, verdict: &Verdict) -> bool
    ensures { result ≡ (atomic && not (outcomes.is_whole verdict.now)) }
{
    atomic && !verdict.conflicts.is_empty()
}

// The verdict without its writes, all objects ignored.
fn unwritten(alloc: Global, verdict: Verdict, judged: u64) -> Verdict
    ensures { result ≡ outcomes.unwritten judged verdict }
{
    let mut verdict = verdict;
    verdict.writes = Items::new(alloc);
    verdict.imported = 0;
    verdict.updated = 0;
    verdict.ignored = judged;
    verdict.deleted = 0;
    verdict
}

#[tactic(auto, unfolding(crate::specs::Outcomes::finished))]
fn finished(alloc: Global, atomic: bool, batch: Batch) -> Verdict
    requires { AreAtMost (length batch.judged) batch.verdict }
    ensures value { result ≡ outcomes.finished atomic (sofar_of batch.verdict batch.judged) }
    ensures total { outcomes.total_of result < 2 ^ 64 }
{
    let Batch {
        verdict,
        judged,
        seen: _,
        notes: _,
    } = batch;
    let count = judged.len() as u64;
    if is_unwritten(atomic, &verdict) {
        return unwritten(alloc, verdict, count);
    }
    verdict
}

/// The verdict on a tracker bundle. Each object is judged by what holds after the log and the writes accepted before it
/// in the bundle. A user is named by a number of the metadata. `imported` counts the objects created. Each write fits the
/// bytes of a change.
#[tactic(auto, unfolding(crate::specs::Verdicts::verdict_of))]
pub fn verdict(
    alloc: Global,
    world: &World,
    meta: &Metadata,
    who: Who,
    bundle: &Bundle,
) -> Result<Verdict, Memory>
    requires { IsKnown meta.now who }
    ensures value { IfOk result (λ verdict. verdict ≡ verdicts.verdict_of (facts world.now) meta.now who bundle.now) }
    ensures total { IfOk result (λ verdict. outcomes.total_of verdict < 2 ^ 64) }
    ensures fits { IfOk result (λ verdict. All WriteFits verdict.writes) }
{
    let asking = Asking {
        world,
        meta,
        who,
        strategy: bundle.params.strategy,
    };
    let mut batch = empty_batch(alloc);
    with_all(alloc, &asking, &mut batch, bundle)?;
    Ok(finished(alloc, bundle.params.atomic, batch))
}
