//! A log over a store that fails at its first call, with room for one write.
use change_log::{AppendFault, ChangeLog, Limits};
use dh_base::items::Items;
use dh_base::uid::Uid;
use dh_changes::change::Write;
use dh_outside::MemKeeper;
use std::alloc::Global;
use std::test::Fail;

const ONE_WRITE: Limits = Limits {
    writes: 1,
    bytes: 536_870_912,
    updates: 1,
};

// 15 March 2024.
const MOMENT: i64 = 1_710_460_800;

// Appends a change of one write.
fn append(alloc: Global, log: &mut ChangeLog<MemKeeper>) -> Result<u64, AppendFault> {
    let Some(event) = Uid::parse(b"EvVisits001") else {
        return Ok(0);
    };
    let Ok(writes) = vec![in alloc; Write::EventDeleted(event)] else {
        return Err(AppendFault::Memory);
    };
    log.append(alloc, None, MOMENT, Items::from(writes))
}

// Fails if a change isn't refused without a trace, or isn't taken once the store keeps its bytes.
fn try_log(alloc: Global, log: &mut ChangeLog<MemKeeper>) -> Result<(), &'static str> {
    if append(alloc, log) != Err(AppendFault::StoreFault) || log.count() != 0 {
        return Err("the store fails");
    }
    if append(alloc, log) != Ok(1) || log.count() != 1 {
        return Err("the store keeps the change");
    }
    if append(alloc, log) != Err(AppendFault::LogFull { limit: 1 }) || log.count() != 1 {
        return Err("the log is full");
    }
    Ok(())
}

#[test]
fn a_change_that_is_not_stored_is_no_change(rt: HostRuntime) -> Result<(), Fail> {
    let alloc = rt.alloc();
    let keeper = MemKeeper::with(alloc, Vec::new(alloc), vec![in alloc; 1]?)?;
    let mut log = ChangeLog::new(alloc, keeper, ONE_WRITE);
    let tried = try_log(alloc, &mut log);
    drop(log);
    assert!(rt; tried == Ok(()));
    Ok(())
}
