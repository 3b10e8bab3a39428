//! An engine whose log is kept in memory alone, as a command that ends has it: loading a change, and the tables of all
//! changes.
ghost use Rattle.std.specs.Prelude.{◌≡◌, ◌<◌, None, IfOk};
ghost use Rattle.std.specs.Arc.{arc_value};
ghost use Rattle.table_rows.specs.Store.{contents_in};
ghost use Rattle.engine.specs.Tables.{tables_of};
ghost use Rattle.engine.specs.InMemory.{started, loading, full_refusal, IsRefusalBy, Loads};

use crate::ChangeRequest;
use crate::engine::Engine;
use crate::machine::{ChangeFault, Report};
use crate::tables::Tables;
use change_log::Limits;
use dh_base::codes::{Code, Refusal};
use dh_base::items::Items;
use dh_base::limits::{MOST_LOG_BYTES, MOST_RECORDS, MOST_UPDATES};
use dh_base::memory::Memory;
use dh_base::plain::CutKind;
use dh_changes::outcome::Who;
use dh_metadata::metadata::Metadata;
use dh_outside::{KeepFault, Keeper};
use std::alloc::Global;
use std::sync::Arc;

// The largest limits that a log may have.
const LARGEST: Limits = Limits {
    writes: MOST_RECORDS as u64,
    bytes: MOST_LOG_BYTES,
    updates: MOST_UPDATES,
};

/// A keeper that keeps nothing for good. It counts the bytes that it acknowledged, and never fails.
#[derive(Drop)]
pub struct Unkept {
    acknowledged: u64,
}

impl Unkept {
    /// A keeper that has acknowledged nothing yet.
    pub fn new() -> Unkept
        ensures { result.acknowledged ≡ 0 }
    {
        Unkept { acknowledged: 0 }
    }
}

impl Keeper for Unkept {
    ghost acknowledged = { λ keeper. keeper.acknowledged };

    ghost kept = { λ _. None };

    ghost keeper_faults = { λ _. 0 };

    fn append(&mut self, _alloc: Global, at: u64, bytes: &[u8]) -> Result<(), KeepFault> {
        self.acknowledged = at + bytes.len() as u64;
        Ok(())
    }

    fn read_all(&mut self, alloc: Global, _most: u64) -> Result<Vec<u8>, KeepFault> {
        Ok(Vec::new(alloc))
    }

    ghost told_len = { λ keeper. tt };
}

/// An engine in the start state, over metadata and at the largest limits.
pub fn engine_in_memory(alloc: Global, meta: Metadata) -> Result<Engine<Unkept>, Memory>
    ensures { IfOk result (λ engine. engine ≡ started meta) }
{
    Engine::new(alloc, Arc::new(alloc, meta)?, Unkept::new(), LARGEST)
}

// The log is full at a limit.
fn full_refusal(alloc: Global, limit: u64) -> Result<Refusal, Memory>
    ensures { IfOk result (λ refusal. refusal ≡ full_refusal limit) }
{
    let detail = Items::from(format!(in alloc; "{limit}")?.into_bytes());
    Ok(Refusal {
        code: Code::F22,
        detail,
    })
}

// A fault as a refusal.
fn refusal_of(alloc: Global, fault: ChangeFault) -> Result<Refusal, Memory>
    ensures { IfOk result (λ refusal. IsRefusalBy fault refusal) }
{
    match fault {
        ChangeFault::Refused(refusal) => Ok(refusal),
        ChangeFault::LogFull { limit } => full_refusal(alloc, limit),
        ChangeFault::StoreFault => Err(Memory),
        ChangeFault::Memory => Err(Memory),
    }
}

/// Brings what the loader asks for to the log, at a moment in seconds from 1970-01-01 in UTC. Answers the report on it,
/// or its refusal, which leaves the log.
pub fn load(
    alloc: Global,
    engine: &mut Engine<Unkept>,
    moment: i64,
    request: &ChangeRequest,
) -> Result<Result<Report, Refusal>, Memory>
    requires { engine.old.faults ≡ 0 }
    ensures { Loads engine.old (loading moment request.now) result engine.new }
{
    match engine.change(alloc, Who::Loader, moment, request) {
        Ok(report) => Ok(Ok(report)),
        Err(fault) => match refusal_of(alloc, fault) {
            Ok(refusal) => Ok(Err(refusal)),
            Err(memory) => Err(memory),
        },
    }
}

/// Publishes all changes, and hands out their tables.
pub fn tables_of_all(alloc: Global, engine: &mut Engine<Unkept>) -> Result<Arc<Tables>, Memory>
    requires free { engine.old.state.full ≡ None }
    requires more { engine.old.state.ticket < engine.old.limits.updates }
    ensures tables { IfOk result (λ tables. contents_in (arc_value tables).all ≡ tables_of engine.old.meta engine.old.state.log) }
    ensures meta { engine.new.meta ≡ engine.old.meta }
    ensures log { engine.new.state.log ≡ engine.old.state.log }
{
    let Ok(cut) = engine.cut(alloc, CutKind::Full) else {
        return Err(Memory);
    };
    engine.swap(alloc, cut.ticket)?;
    match engine.look(0) {
        Ok(view) => Ok(view.tables),
        Err(_) => Err(Memory),
    }
}
