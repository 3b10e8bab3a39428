//! The verdict so far, and what its writes say.

ghost use Rattle.std.specs.Prelude.{◌≡◌, ◌+◌, ◌<◌, ◌^◌, ◌++◌, ◌∷◌, [], Some, None, option_and_then, IfOk, OnOk};
ghost use Rattle.std.specs.Option.{option_copied};
ghost use Rattle.dh_changes.specs.World.{facts};
ghost use Rattle.tracker_import.specs.Known as known;
ghost use Rattle.tracker_import.specs.Known.{AreSaid, AreSeen, Holds, NotesEntity, NotesEnrollment, NotesEvent};
ghost use Rattle.tracker_import.specs.Batches.{IsBatch};
ghost use Rattle.tracker_import.specs.Outcomes.{sofar_of, none, counted, taken, AreAtMost};
ghost use Rattle.tracker_import.specs.Rules as rules;

use crate::judged::Judged;
use crate::names::EnrollmentPlace;
use crate::places::EventPlace;
use dh_base::codes::Code;
use dh_base::items::Items;
use dh_base::memory::Memory;
use dh_base::uid::Uid;
use dh_changes::change::Write;
use dh_changes::outcome::{Conflict, Verdict};
use dh_changes::tracker::{Enrollment, Entity, Event};
use dh_changes::world::World;
use std::alloc::Global;
use std::collections::{HashMap, HashSet};

/// What the writes of a verdict say of each object that they name.
#[derive(Drop)]
pub struct Notes {
    pub entities: HashMap<Uid, Option<Entity>>,
    pub enrollments: HashMap<Uid, Option<EnrollmentPlace>>,
    pub events: HashMap<Uid, Option<EventPlace>>,
}

/// The verdict so far with its notes, and the identifiers of the objects judged so far.
#[derive(Drop)]
pub struct Batch {
    pub verdict: Verdict,
    pub judged: Items<Option<Uid>>,
    pub seen: HashSet<Uid>,
    pub notes: Notes,
}

/// Nothing is judged.
pub fn empty_batch(alloc: Global) -> Batch
    ensures sofar { sofar_of result.verdict result.judged ≡ none }
    ensures held { IsBatch result }
{
    Batch {
        verdict: Verdict {
            writes: Items::new(alloc),
            conflicts: Items::new(alloc),
            imported: 0,
            updated: 0,
            ignored: 0,
            deleted: 0,
        },
        judged: Items::new(alloc),
        seen: HashSet::new(alloc),
        notes: Notes {
            entities: HashMap::new(alloc),
            enrollments: HashMap::new(alloc),
            events: HashMap::new(alloc),
        },
    }
}

// ---- what there is

/// The entity of an identifier, if there is one.
pub fn entity_now<'a>(world: &'a World, batch: &'a Batch, id: &Option<Uid>) -> Option<&'a Entity>
    requires { IsBatch batch.now }
    ensures { option_copied result ≡ option_and_then (known.entity_now (facts world.now) batch.now.verdict.writes) id.now }
{
    let id = (*id)?;
    match batch.notes.entities.get(&id) {
        Some(held) => held.as_ref(),
        None => world.entity(id),
    }
}

fn enrollment_place(found: Option<&Enrollment>) -> Option<EnrollmentPlace>
    ensures { result ≡ known.enrollment_place (option_copied found.entry) }
{
    match found {
        Some(found) => Some(EnrollmentPlace {
            entity: found.entity,
            program: found.program,
            unit: found.unit,
        }),
        None => None,
    }
}

fn event_place(found: Option<&Event>) -> Option<EventPlace>
    ensures { result ≡ known.event_place (option_copied found.entry) }
{
    match found {
        Some(found) => Some(EventPlace {
            enrollment: found.enrollment,
            program: found.program,
            unit: found.unit,
        }),
        None => None,
    }
}

/// Where the enrollment of an identifier stands.
pub fn enrollment_now(world: &World, batch: &Batch, id: &Option<Uid>) -> Option<EnrollmentPlace>
    requires { IsBatch batch.now }
    ensures { result ≡ option_and_then (known.enrollment_now (facts world.now) batch.now.verdict.writes) id.now }
{
    let id = (*id)?;
    match batch.notes.enrollments.get(&id) {
        Some(held) => *held,
        None => enrollment_place(world.enrollment(id)),
    }
}

/// Where the event of an identifier stands.
pub fn event_now(world: &World, batch: &Batch, id: &Option<Uid>) -> Option<EventPlace>
    requires { IsBatch batch.now }
    ensures { result ≡ option_and_then (known.event_now (facts world.now) batch.now.verdict.writes) id.now }
{
    let id = (*id)?;
    match batch.notes.events.get(&id) {
        Some(held) => *held,
        None => event_place(world.event(id)),
    }
}

/// Whether an object of this identifier was judged before.
pub fn is_repeated(batch: &Batch, id: &Option<Uid>) -> bool
    requires { IsBatch batch.now }
    ensures { result ≡ rules.is_repeated batch.now.judged id.now }
{
    match id {
        Some(id) => batch.seen.contains(id),
        None => false,
    }
}

// ---- what is taken in

fn copied_pairs(
    alloc: Global,
    pairs: &[(Uid, Items<u8>)],
) -> Result<Items<(Uid, Items<u8>)>, Memory>
    ensures { IfOk result (λ copy. copy ≡ pairs.now) }
{
    let mut copy = Vec::new(alloc);
    for pair in pairs {
        copy.push((pair.0, Items::from(pair.1.as_slice().to_vec(alloc)?)))?;
    }
    Ok(Items::from(copy))
}

// Notes what is there of an identifier.
fn hold<T: Drop>(
    held: &mut HashMap<Uid, Option<T>>,
    id: Uid,
    found: Option<T>,
) -> Result<(), Memory>
    ensures { OnOk result (Holds id found held.old held.new) }
{
    held.insert(id, found)?;
    Ok(())
}

fn hold_entity(
    alloc: Global,
    held: &mut HashMap<Uid, Option<Entity>>,
    entity: &Entity,
) -> Result<(), Memory>
    ensures { OnOk result (Holds entity.now.id (Some entity.now) held.old held.new) }
{
    let copy = Entity {
        id: entity.id,
        kind: entity.kind,
        unit: entity.unit,
        attributes: copied_pairs(alloc, entity.attributes.as_slice())?,
    };
    hold(held, entity.id, Some(copy))
}

// Notes what a write says.
fn note(alloc: Global, notes: &mut Notes, write: &Write) -> Result<(), Memory>
    ensures entity { OnOk result (NotesEntity write.now notes.old.entities notes.new.entities) }
    ensures enrollment { OnOk result (NotesEnrollment write.now notes.old.enrollments notes.new.enrollments) }
    ensures event { OnOk result (NotesEvent write.now notes.old.events notes.new.events) }
{
    match write {
        Write::ValueSet { .. } => Ok(()),
        Write::ValueCleared { .. } => Ok(()),
        Write::EventWritten(event) => {
            let event = event.get();
            hold(&mut notes.events, event.id, event_place(Some(event)))
        }
        Write::EventDeleted(id) => hold(&mut notes.events, *id, None),
        Write::EnrollmentWritten(enrollment) => {
            let enrollment = enrollment.get();
            let place = enrollment_place(Some(enrollment));
            hold(&mut notes.enrollments, enrollment.id, place)
        }
        Write::EnrollmentDeleted(id) => hold(&mut notes.enrollments, *id, None),
        Write::EntityWritten(entity) => hold_entity(alloc, &mut notes.entities, entity.get()),
        Write::EntityDeleted(id) => hold(&mut notes.entities, *id, None),
        Write::Approve(_) => Ok(()),
        Write::Unapprove(_) => Ok(()),
        Write::Accept(_) => Ok(()),
        Write::Unaccept(_) => Ok(()),
        Write::Complete { .. } => Ok(()),
        Write::Uncomplete { .. } => Ok(()),
    }
}

// Accepts writes.
fn accept_all(
    alloc: Global,
    notes: &mut Notes,
    writes: &mut Items<Write>,
    more: Items<Write>,
) -> Result<(), Memory>
    requires { AreSaid notes.old.entities notes.old.enrollments notes.old.events writes.old }
    ensures writes { OnOk result (writes.new ≡ writes.old ++ more) }
    ensures said { OnOk result (AreSaid notes.new.entities notes.new.enrollments notes.new.events writes.new) }
{
    for write in more.items {
        note(alloc, notes, &write)?;
        writes.push(write)?;
    }
    Ok(())
}

fn refuse(verdict: &mut Verdict, index: u64, uid: &Option<Uid>, code: Code) -> Result<(), Memory>
    requires { verdict.old.ignored + 1 < 2 ^ 64 }
    ensures { OnOk result (verdict.new ≡ counted index uid.now (Judged.Refused code) verdict.old) }
{
    let uid = *uid;
    let conflict = Conflict { code, index, uid };
    verdict.conflicts.push(conflict)?;
    verdict.ignored += 1;
    Ok(())
}

// Counts what an object comes to, and accepts its writes.
fn count(
    alloc: Global,
    notes: &mut Notes,
    verdict: &mut Verdict,
    index: u64,
    uid: &Option<Uid>,
    judged: Judged,
) -> Result<(), Memory>
    requires said { AreSaid notes.old.entities notes.old.enrollments notes.old.events verdict.old.writes }
    requires counts { AreAtMost index verdict.old }
    requires few { index + 1 < 2 ^ 64 }
    ensures verdict { OnOk result (verdict.new ≡ counted index uid.now judged verdict.old) }
    ensures said { OnOk result (AreSaid notes.new.entities notes.new.enrollments notes.new.events verdict.new.writes) }
    ensures counts { OnOk result (AreAtMost (index + 1) verdict.new) }
{
    match judged {
        Judged::Refused(code) => refuse(verdict, index, uid, code),
        Judged::Nothing => Ok(()),
        Judged::Created(writes) => {
            verdict.imported += 1;
            accept_all(alloc, notes, &mut verdict.writes, writes)
        }
        Judged::Updated(writes) => {
            verdict.updated += 1;
            accept_all(alloc, notes, &mut verdict.writes, writes)
        }
        Judged::Deleted(writes) => {
            verdict.deleted += 1;
            accept_all(alloc, notes, &mut verdict.writes, writes)
        }
    }
}

// Notes that an object of this identifier, or without one, was judged.
fn note_judged(
    judged: &mut Items<Option<Uid>>,
    seen: &mut HashSet<Uid>,
    id: &Option<Uid>,
) -> Result<(), Memory>
    requires { AreSeen seen.old judged.old }
    ensures judged { OnOk result (judged.new ≡ judged.old ++ id.now ∷ []) }
    ensures seen { OnOk result (AreSeen seen.new judged.new) }
{
    if let Some(own) = id {
        seen.insert(*own)?;
    }
    judged.push(*id)?;
    Ok(())
}

/// Takes in what an object comes to.
#[tactic(auto, unfolding(crate::specs::Outcomes::taken))]
pub fn take_in(
    alloc: Global,
    batch: &mut Batch,
    id: &Option<Uid>,
    judged: Judged,
) -> Result<(), Memory>
    requires { IsBatch batch.old }
    ensures sofar { OnOk result (sofar_of batch.new.verdict batch.new.judged ≡ taken id.now judged (sofar_of batch.old.verdict batch.old.judged)) }
    ensures held { OnOk result (IsBatch batch.new) }
{
    let index = batch.judged.as_slice().len() as u64;
    count(
        alloc,
        &mut batch.notes,
        &mut batch.verdict,
        index,
        id,
        judged,
    )?;
    note_judged(&mut batch.judged, &mut batch.seen, id)
}
