//! How links are served, and the engine that they are answered over.
ghost use Rattle.std.specs.Prelude.{IfOk};
ghost use Rattle.shared_server.specs.Links.{IsMadeFor};

use change_log::Limits;
use dh_base::limits::{MOST_LOG_BYTES, MOST_RECORDS, MOST_UPDATES};
use dh_base::memory::Memory;
use dh_metadata::metadata::Metadata;
use engine::{Engine, Unkept};
use shared_engine::{Opened, open};
use std::alloc::Global;
use std::sync::Arc;

/// The leave to start threads and to wait, memory, the clock, the gate at which builders stop, how many workers serve, and the most
/// links that are accepted.
#[derive(Drop)]
pub struct Setup<'a, R, C, G> {
    pub rt: &'a R,
    pub alloc: Global,
    pub clock: &'a C,
    pub gate: &'a G,
    pub workers: u32,
    pub connections: u64,
}

// The largest limits that a log may have.
const LARGEST: Limits = Limits {
    writes: MOST_RECORDS as u64,
    bytes: MOST_LOG_BYTES,
    updates: MOST_UPDATES,
};

/// An engine over metadata, with an empty log that is kept in memory alone, for callers to share.
pub fn open_over(alloc: Global, meta: Metadata) -> Result<Opened<Unkept>, Memory>
    ensures { IfOk result (IsMadeFor meta) }
{
    let meta = Arc::new(alloc, meta)?;
    let engine = Engine::new(alloc, meta.clone()?, Unkept::new(), LARGEST)?;
    open(alloc, engine, meta)
}
