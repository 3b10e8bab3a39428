ghost use Rattle.std.specs.Prelude.{◌≡◌, Some, IfOk};
ghost use Rattle.dh_changes.specs.declared.said.Said.TheVariants as said;
ghost use Rattle.dh_changes.specs.Said as holds;

use crate::change::Write;
use crate::keys::{ApprovalKey, RegKey, ValueKey};
use crate::text::Text;
use crate::tracker::{Enrollment, Entity, Event};
use dh_base::items::Items;
use dh_base::memory::Memory;
use dh_base::uid::Uid;
use std::alloc::Global;

/// How far an approval has come.
#[derive(Clone, Copy)]
pub enum ApprovalState {
    None,
    Approved,
    Accepted,
}

/// What a write says of the one key that it names. `None` says that nothing is held.
#[derive(Drop)]
pub enum Said {
    Value {
        key: ValueKey,
        value: Option<Text>,
    },
    Event {
        id: Uid,
        event: Option<Event>,
    },
    Enrollment {
        id: Uid,
        enrollment: Option<Enrollment>,
    },
    Entity {
        id: Uid,
        entity: Option<Entity>,
    },
    Approval {
        key: ApprovalKey,
        state: ApprovalState,
    },
    Registration {
        key: RegKey,
        day: Option<i32>,
    },
}

/// What a write says, with copies of its texts.
pub fn said_by(alloc: Global, write: &Write) -> Result<Said, Memory>
    ensures { IfOk result (λ said. said ≡ holds.said_by write.now) }
{
    match write {
        Write::ValueSet { key, value } => Ok(Said::Value {
            key: *key,
            value: Some(Text::of(alloc, value.as_slice())?),
        }),
        Write::ValueCleared { key } => Ok(Said::Value {
            key: *key,
            value: None,
        }),
        Write::EventWritten(event) => said_of_event(alloc, event.get()),
        Write::EventDeleted(id) => Ok(Said::Event {
            id: *id,
            event: None,
        }),
        Write::EnrollmentWritten(enrollment) => Ok(said_of_enrollment(enrollment.get())),
        Write::EnrollmentDeleted(id) => Ok(Said::Enrollment {
            id: *id,
            enrollment: None,
        }),
        Write::EntityWritten(entity) => said_of_entity(alloc, entity.get()),
        Write::EntityDeleted(id) => Ok(Said::Entity {
            id: *id,
            entity: None,
        }),
        Write::Approve(key) | Write::Unaccept(key) => Ok(Said::Approval {
            key: *key,
            state: ApprovalState::Approved,
        }),
        Write::Unapprove(key) => Ok(Said::Approval {
            key: *key,
            state: ApprovalState::None,
        }),
        Write::Accept(key) => Ok(Said::Approval {
            key: *key,
            state: ApprovalState::Accepted,
        }),
        Write::Complete { key, day } => Ok(Said::Registration {
            key: *key,
            day: Some(*day),
        }),
        Write::Uncomplete { key } => Ok(Said::Registration {
            key: *key,
            day: None,
        }),
    }
}

fn said_of_event(alloc: Global, event: &Event) -> Result<Said, Memory>
    ensures { IfOk result (λ found. found ≡ said.Event event.now.id (Some event.now)) }
{
    let values = copy_pairs(alloc, event.values.as_slice())?;
    Ok(Said::Event {
        id: event.id,
        event: Some(Event {
            id: event.id,
            enrollment: event.enrollment,
            program: event.program,
            stage: event.stage,
            unit: event.unit,
            status: event.status,
            occurred: event.occurred,
            scheduled: event.scheduled,
            values,
        }),
    })
}

fn said_of_enrollment(enrollment: &Enrollment) -> Said
    ensures { result ≡ said.Enrollment enrollment.now.id (Some enrollment.now) }
{
    Said::Enrollment {
        id: enrollment.id,
        enrollment: Some(Enrollment {
            id: enrollment.id,
            entity: enrollment.entity,
            program: enrollment.program,
            unit: enrollment.unit,
            status: enrollment.status,
            enrolled: enrollment.enrolled,
            occurred: enrollment.occurred,
        }),
    }
}

fn said_of_entity(alloc: Global, entity: &Entity) -> Result<Said, Memory>
    ensures { IfOk result (λ found. found ≡ said.Entity entity.now.id (Some entity.now)) }
{
    let attributes = copy_pairs(alloc, entity.attributes.as_slice())?;
    Ok(Said::Entity {
        id: entity.id,
        entity: Some(Entity {
            id: entity.id,
            kind: entity.kind,
            unit: entity.unit,
            attributes,
        }),
    })
}

fn copy_pairs(alloc: Global, pairs: &[(Uid, Items<u8>)]) -> Result<Items<(Uid, Items<u8>)>, Memory>
    ensures { IfOk result (λ copy. copy ≡ pairs.now) }
{
    let mut copies = Vec::with_capacity(alloc, pairs.len())?;
    for pair in pairs {
        let text = Items::from(Vec::from_slice(alloc, pair.1.as_slice())?);
        copies.push((pair.0, text))?;
    }
    Ok(Items::from(copies))
}
