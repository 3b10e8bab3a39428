//! What the texts of objects name.

use dh_base::uid::Uid;

/// What an entity names. An object that isn't there is `None`.
#[derive(Clone, Copy)]
pub struct EntityNames {
    pub id: Option<Uid>,
    pub kind: Option<u32>,
    pub unit: Option<u32>,
}

/// What an enrollment names. An object that isn't there is `None`.
#[derive(Clone, Copy)]
pub struct EnrollmentNames {
    pub id: Option<Uid>,
    pub entity: Option<Uid>,
    pub program: Option<u32>,
    pub unit: Option<u32>,
}

/// What an event names. An object that isn't there is `None`.
#[derive(Clone, Copy)]
pub struct EventNames {
    pub id: Option<Uid>,
    pub enrollment: Option<Uid>,
    pub program: Option<u32>,
    pub stage: Option<u32>,
    pub unit: Option<u32>,
}

/// Where an enrollment stands.
#[derive(Clone, Copy)]
pub struct EnrollmentPlace {
    pub entity: Uid,
    pub program: Uid,
    pub unit: Uid,
}
