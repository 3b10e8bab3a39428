//! What the machine answers.
use crate::tables::Tables;
use dh_base::codes::Refusal;
use dh_base::items::Items;
use dh_base::plain::CutKind;
use dh_changes::change::Change;
use std::sync::Arc;

/// What a change that isn't refused came to.
#[derive(Drop)]
pub struct Report {
    /// The body of the reply, and its status.
    pub body: Items<u8>,
    pub status: u16,
    /// How many changes the log has afterwards.
    pub number: u64,
}

/// Why a change isn't made.
#[derive(Drop)]
pub enum ChangeFault {
    /// A rule of its kind refuses it.
    Refused(Refusal),
    /// The log with the change would pass this limit.
    LogFull { limit: u64 },
    /// The keeper failed.
    StoreFault,
    /// Out of memory.
    Memory,
}

/// An update of the tables that is begun.
#[derive(Clone, Copy)]
pub struct Staged {
    pub ticket: u64,
    /// How many changes its tables will stand for.
    pub number: u64,
}

/// What is needed to make the tables of an update.
#[derive(Drop)]
pub struct Cut {
    pub ticket: u64,
    pub kind: CutKind,
    /// How many changes the tables will stand for.
    pub number: u64,
    /// The years that may be made beforehand.
    pub years: Items<i32>,
    /// The changes from which the tables are made: all, or those after the last full update.
    pub changes: Vec<Arc<Change>>,
}

/// Why no update is begun.
#[derive(Clone, Copy, Drop)]
pub enum CutFault {
    /// An update of the same kind is begun already, with this ticket.
    Busy { ticket: u64 },
    /// So many updates were begun, and no more may be.
    UpdatesSpent { limit: u64 },
    /// Out of memory.
    Memory,
}

/// Why no tables are shown.
#[derive(Clone, Copy, Drop)]
pub enum LookFault {
    /// Only so many changes are published.
    NotYet { published: u64 },
    /// Out of memory.
    Memory,
}

/// The tables, and how many changes they stand for.
#[derive(Drop)]
pub struct View {
    pub published: u64,
    pub tables: Arc<Tables>,
}

/// How many changes there are, how many of them are published, and the tickets of the updates that are begun.
#[derive(Clone, Copy)]
pub struct Standing {
    pub changes: u64,
    pub published: u64,
    pub full: Option<u64>,
    pub latest: Option<u64>,
}
