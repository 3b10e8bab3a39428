use dh_base::items::Items;
use dh_base::uid::Uid;

/// A tracker event as a write leaves it.
pub struct Event {
    pub id: Uid,
    /// The enrollment, or `None` in a program without registration.
    pub enrollment: Option<Uid>,
    pub program: Uid,
    /// The program stage.
    pub stage: Uid,
    /// The organisation unit.
    pub unit: Uid,
    /// The place in ACTIVE, COMPLETED, VISITED, SCHEDULE, OVERDUE, SKIPPED, counted from 0.
    pub status: u8,
    /// Days since 1 January 1970.
    pub occurred: Option<i32>,
    /// Days since 1 January 1970.
    pub scheduled: Option<i32>,
    /// Data elements and their values, in byte order of the identifiers.
    pub values: Items<(Uid, Items<u8>)>,
}

// By hand, so that it is proved here alone and not in each crate above.
impl Drop for Event {
    fn drop(self) {
        let Event {
            id: _,
            enrollment: _,
            program: _,
            stage: _,
            unit: _,
            status: _,
            occurred: _,
            scheduled: _,
            values: _,
        } = self;
    }
}

/// An enrollment as a write leaves it.
#[derive(Drop)]
pub struct Enrollment {
    pub id: Uid,
    /// The tracked entity.
    pub entity: Uid,
    pub program: Uid,
    /// The organisation unit.
    pub unit: Uid,
    /// The place in ACTIVE, COMPLETED, CANCELLED, counted from 0.
    pub status: u8,
    /// Days since 1 January 1970.
    pub enrolled: Option<i32>,
    /// Days since 1 January 1970.
    pub occurred: Option<i32>,
}

/// A tracked entity as a write leaves it.
pub struct Entity {
    pub id: Uid,
    /// The tracked entity type.
    pub kind: Uid,
    /// The organisation unit.
    pub unit: Uid,
    /// Attributes and their values, in byte order of the identifiers.
    pub attributes: Items<(Uid, Items<u8>)>,
}

// By hand, so that it is proved here alone and not in each crate above.
impl Drop for Entity {
    fn drop(self) {
        let Entity {
            id: _,
            kind: _,
            unit: _,
            attributes: _,
        } = self;
    }
}
