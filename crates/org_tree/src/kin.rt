use dh_base::uid::Uid;

/// A unit among its kin: ordered by level, then by parent, then by UID.
#[derive(Clone, Copy, PartialEq, Eq, PartialOrd, Ord)]
pub struct Kin {
    pub level: u8,
    /// The parent's place; 0 at the root, which has a level of its own.
    pub family: u32,
    pub id: Uid,
    pub place: u32,
}
