//! Where objects stand that are there.

use dh_base::uid::Uid;

/// An object that is there.
#[derive(Clone, Copy)]
pub struct Live {
    pub unit: Uid,
    /// Its tracked entity type or its program.
    pub owner: Uid,
    /// Whether the object that it hangs on isn't there.
    pub orphaned: bool,
}

/// Where an event stands.
#[derive(Clone, Copy)]
pub struct EventPlace {
    pub enrollment: Option<Uid>,
    pub program: Uid,
    pub unit: Uid,
}
