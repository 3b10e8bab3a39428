ghost use Rattle.std.specs.Prelude.{◌≡◌, IfOk};
ghost use Rattle.dh_changes.specs.declared.change.Write.TheVariants as Write;

use crate::apart::Apart;
use crate::keys::{ApprovalKey, RegKey, ValueKey};
use crate::text::Text;
use crate::tracker::{Enrollment, Entity, Event};
use dh_base::items::Items;
use dh_base::memory::Memory;
use dh_base::uid::Uid;
use std::alloc::Global;

/// What one write of a change says. Most writes of a log are values: what is wider stands apart.
pub enum Write {
    ValueSet { key: ValueKey, value: Text },
    ValueCleared { key: ValueKey },
    EventWritten(Apart<Event>),
    EventDeleted(Uid),
    EnrollmentWritten(Apart<Enrollment>),
    EnrollmentDeleted(Uid),
    EntityWritten(Apart<Entity>),
    EntityDeleted(Uid),
    Approve(ApprovalKey),
    Unapprove(ApprovalKey),
    Accept(ApprovalKey),
    Unaccept(ApprovalKey),
    /// The day is counted from 1 January 1970.
    Complete { key: RegKey, day: i32 },
    Uncomplete { key: RegKey },
}

// By hand, so that it is proved here alone and not in each crate above.
impl Drop for Write {
    fn drop(self) {
        match self {
            Write::ValueSet { key: _, value: _ } => {}
            Write::ValueCleared { key: _ } => {}
            Write::EventWritten(_) => {}
            Write::EventDeleted(_) => {}
            Write::EnrollmentWritten(_) => {}
            Write::EnrollmentDeleted(_) => {}
            Write::EntityWritten(_) => {}
            Write::EntityDeleted(_) => {}
            Write::Approve(_) => {}
            Write::Unapprove(_) => {}
            Write::Accept(_) => {}
            Write::Unaccept(_) => {}
            Write::Complete { key: _, day: _ } => {}
            Write::Uncomplete { key: _ } => {}
        }
    }
}

impl Write {
    /// An event written.
    pub fn event(alloc: Global, event: Event) -> Result<Write, Memory>
        ensures { IfOk result (λ write. write ≡ Write.EventWritten event) }
    {
        Ok(Write::EventWritten(Apart::new(alloc, event)?))
    }

    /// An enrollment written.
    pub fn enrollment(alloc: Global, enrollment: Enrollment) -> Result<Write, Memory>
        ensures { IfOk result (λ write. write ≡ Write.EnrollmentWritten enrollment) }
    {
        Ok(Write::EnrollmentWritten(Apart::new(alloc, enrollment)?))
    }

    /// A tracked entity written.
    pub fn entity(alloc: Global, entity: Entity) -> Result<Write, Memory>
        ensures { IfOk result (λ write. write ≡ Write.EntityWritten entity) }
    {
        Ok(Write::EntityWritten(Apart::new(alloc, entity)?))
    }
}

/// An entry of the log.
pub struct Change {
    /// Who made it, or `None` for the loader.
    pub user: Option<Uid>,
    /// Seconds since 1 January 1970.
    pub moment: i64,
    /// The writes in their order.
    pub writes: Items<Write>,
}

// By hand, so that it is proved here alone and not in each crate above.
impl Drop for Change {
    fn drop(self) {
        let Change {
            user: _,
            moment: _,
            writes: _,
        } = self;
    }
}
