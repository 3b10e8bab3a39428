use crate::change::Write;
use dh_base::codes::Code;
use dh_base::items::Items;
use dh_base::uid::Uid;

/// Which objects an import may make, change or take away.
#[derive(Clone, Copy)]
pub enum ImportStrategy {
    Create,
    Update,
    CreateAndUpdate,
    Delete,
}

/// Who asks for a change: a user of the metadata, by number, or the loader, who may do all.
#[derive(Clone, Copy)]
pub enum Who {
    User(u32),
    Loader,
}

/// Why an object of an import isn't taken.
#[derive(Clone, Copy)]
pub struct Conflict {
    pub code: Code,
    /// The place of the object in its list, counted from 0.
    pub index: u64,
    /// The identifier that the conflict names.
    pub uid: Option<Uid>,
}

/// What an import comes to: the writes to be made, the conflicts, and how many objects are
/// imported, updated, ignored and deleted.
#[derive(Drop)]
pub struct Verdict {
    pub writes: Items<Write>,
    pub conflicts: Items<Conflict>,
    pub imported: u64,
    pub updated: u64,
    pub ignored: u64,
    pub deleted: u64,
}

/// Why a body isn't read.
#[derive(Drop)]
pub enum BodyFault {
    /// The path of the first place that isn't of its form.
    Bad { path: Items<u8> },
    /// Memory ran out.
    Memory,
}
