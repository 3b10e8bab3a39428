//! How objects are taken away, each with what hangs on it.

ghost use Rattle.std.specs.Prelude.{◌≡◌, ◌++◌, ◌∷◌, [], true, map, if◌then◌else◌, IfOk, OnOk};
ghost use Rattle.std.specs.List.{flat_map};
ghost use Rattle.dh_metadata.specs.Objects.{is_shared};
ghost use Rattle.dh_changes.specs.World.{facts};
ghost use Rattle.value_import.specs.Outcomes.{IsKnown};
ghost use Rattle.tracker_import.specs.Batches.{IsBatch};
ghost use Rattle.tracker_import.specs.Deletes as known;
ghost use Rattle.tracker_import.specs.Outcomes.{sofar_of};
ghost use Rattle.tracker_import.specs.Verdicts as verdicts;

use crate::asking::Asking;
use crate::batch::{Batch, enrollment_now, event_now, is_repeated};
use crate::judged::Judged;
use crate::object::Object;
use crate::places::Live;
use crate::rights::right_condition;
use crate::standing::standing_condition;
use dh_base::codes::Code;
use dh_base::items::Items;
use dh_base::memory::Memory;
use dh_base::uid::Uid;
use dh_changes::change::Write;
use dh_changes::world::World;
use dh_metadata::kind::Kind;
use std::alloc::Global;
use std::collections::BTreeMap;

// ---- the conditions

#[tactic(auto, unfolding(crate::specs::Deletes::live_conditions))]
fn live_conflict(asking: &Asking<'_>, owners: Kind, live: &Option<Live>) -> Option<Code>
    requires who { IsKnown asking.now.meta.now asking.now.who }
    requires shared { is_shared owners ≡ true }
    ensures { result ≡ known.live_conflict (facts asking.now.world.now) asking.now.meta.now asking.now.who owners live.now }
{
    let Some(live) = live else {
        return None;
    };
    let unit = asking.meta.find(Kind::OrganisationUnit, live.unit);
    if unit.is_none() {
        return Some(Code::T3);
    }
    if live.orphaned {
        return Some(Code::T4);
    }
    let owner = asking.meta.find(owners, live.owner);
    right_condition(asking, unit, owners, owner)
}

/// What an object with this identifier comes to that is to be taken away.
#[tactic(auto, unfolding(crate::specs::Deletes::delete_conflict))]
pub fn deleted<T: Object>(
    alloc: Global,
    asking: &Asking<'_>,
    batch: &Batch,
    id: &Option<Uid>,
) -> Result<Judged, Memory>
    requires who { IsKnown asking.now.meta.now asking.now.who }
    requires held { IsBatch batch.now }
    ensures { IfOk result (λ judged. judged ≡ verdicts.deleted T.owned_by T.there T.removal (facts asking.now.world.now) asking.now.meta.now
        asking.now.who asking.now.strategy (sofar_of batch.now.verdict batch.now.judged) id.now) }
{
    let Some(own) = id else {
        return Ok(Judged::Refused(Code::T1));
    };
    let live = T::live(asking.world, batch, id);
    if let Some(code) = live_conflict(asking, T::owners(), &live) {
        return Ok(Judged::Refused(code));
    }
    let repeated = is_repeated(batch, id);
    match standing_condition(asking.strategy, live.is_some(), repeated) {
        Some(code) => Ok(Judged::Refused(code)),
        None => Ok(Judged::Deleted(T::gone(alloc, asking.world, batch, *own)?)),
    }
}

// ---- what goes with it

fn keep_if(kept: &mut Items<Uid>, id: Uid, keep: bool) -> Result<(), Memory>
    ensures { OnOk result (kept.new ≡ kept.old ++ (if keep then id ∷ [] else [])) }
{
    if keep {
        kept.push(id)?;
    }
    Ok(())
}

/// The events of an enrollment that are there.
#[tactic(auto, unfolding(crate::specs::Deletes::events_left))]
fn events_left(
    alloc: Global,
    world: &World,
    batch: &Batch,
    enrollment: Uid,
) -> Result<Items<Uid>, Memory>
    requires { IsBatch batch.now }
    ensures { IfOk result (λ ids. ids ≡ known.events_left (facts world.now) batch.now.verdict.writes enrollment) }
{
    let all = world.events_of(alloc, enrollment)?;
    let mut left = Items::new(alloc);
    for id in all.as_slice() {
        keep_if(
            &mut left,
            *id,
            event_now(world, batch, &Some(*id)).is_some(),
        )?;
    }
    Ok(left)
}

/// The enrollments of an entity that are there.
#[tactic(auto, unfolding(crate::specs::Deletes::enrollments_left))]
fn enrollments_left(
    alloc: Global,
    world: &World,
    batch: &Batch,
    entity: Uid,
) -> Result<Items<Uid>, Memory>
    requires { IsBatch batch.now }
    ensures { IfOk result (λ ids. ids ≡ known.enrollments_left (facts world.now) batch.now.verdict.writes entity) }
{
    let all = world.enrollments_of(alloc, entity)?;
    let mut left = Items::new(alloc);
    for id in all.as_slice() {
        keep_if(
            &mut left,
            *id,
            enrollment_now(world, batch, &Some(*id)).is_some(),
        )?;
    }
    Ok(left)
}

fn put_events(writes: &mut Items<Write>, ids: &[Uid]) -> Result<(), Memory>
    ensures { OnOk result (writes.new ≡ writes.old ++ map Write.EventDeleted ids.now) }
{
    for id in ids {
        writes.push(Write::EventDeleted(*id))?;
    }
    Ok(())
}

fn put_enrollments(writes: &mut Items<Write>, ids: &[Uid]) -> Result<(), Memory>
    ensures { OnOk result (writes.new ≡ writes.old ++ map Write.EnrollmentDeleted ids.now) }
{
    for id in ids {
        writes.push(Write::EnrollmentDeleted(*id))?;
    }
    Ok(())
}

/// The writes that take an enrollment away.
#[tactic(auto, unfolding(crate::specs::Deletes::enrollment_gone))]
pub fn enrollment_gone(
    alloc: Global,
    world: &World,
    batch: &Batch,
    id: Uid,
) -> Result<Items<Write>, Memory>
    requires { IsBatch batch.now }
    ensures { IfOk result (λ writes. writes ≡ known.enrollment_gone (facts world.now) batch.now.verdict.writes id) }
{
    let events = events_left(alloc, world, batch, id)?;
    let mut writes = Items::new(alloc);
    put_events(&mut writes, events.as_slice())?;
    writes.push(Write::EnrollmentDeleted(id))?;
    Ok(writes)
}

fn put_ids(all: &mut BTreeMap<Uid, Uid>, ids: &[Uid]) -> Result<(), Memory>
    ensures { OnOk result (all.new.entries ≡ known.put_ids all.old.entries ids.now) }
{
    for id in ids {
        all.insert(*id, *id)?;
    }
    Ok(())
}

/// The events of some enrollments, in order.
#[tactic(auto, unfolding(crate::specs::Deletes::ordered))]
fn events_in_order(
    alloc: Global,
    world: &World,
    batch: &Batch,
    enrollments: &[Uid],
) -> Result<Items<Uid>, Memory>
    requires { IsBatch batch.now }
    ensures { IfOk result (λ ids. ids ≡ known.ordered (flat_map (known.events_left (facts world.now) batch.now.verdict.writes) enrollments.now)) }
{
    let mut all = BTreeMap::new(alloc);
    for enrollment in enrollments {
        let events = events_left(alloc, world, batch, *enrollment)?;
        put_ids(&mut all, events.as_slice())?;
    }
    Ok(Items {
        items: all.into_values().collect(alloc)?,
    })
}

// The writes that take an entity with these enrollments and events away.
fn entity_writes(
    alloc: Global,
    events: &[Uid],
    enrollments: &[Uid],
    id: Uid,
) -> Result<Items<Write>, Memory>
    ensures { IfOk result (λ writes. writes ≡ map Write.EventDeleted events.now ++ map Write.EnrollmentDeleted enrollments.now
        ++ Write.EntityDeleted id ∷ []) }
{
    let mut writes = Items::new(alloc);
    put_events(&mut writes, events)?;
    put_enrollments(&mut writes, enrollments)?;
    writes.push(Write::EntityDeleted(id))?;
    Ok(writes)
}

/// The writes that take an entity away.
#[tactic(auto, unfolding(crate::specs::Deletes::entity_gone))]
pub fn entity_gone(
    alloc: Global,
    world: &World,
    batch: &Batch,
    id: Uid,
) -> Result<Items<Write>, Memory>
    requires { IsBatch batch.now }
    ensures { IfOk result (λ writes. writes ≡ known.entity_gone (facts world.now) batch.now.verdict.writes id) }
{
    let enrollments = enrollments_left(alloc, world, batch, id)?;
    let events = events_in_order(alloc, world, batch, enrollments.as_slice())?;
    entity_writes(alloc, events.as_slice(), enrollments.as_slice(), id)
}
