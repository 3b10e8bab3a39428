//! Reads, writes and a keeper that fail once, and the files and the clock of the system.

use dh_outside::{
    Clock, Failed, FileFault, FileSet, KeepFault, Keeper, MemClock, MemKeeper, MemSink, MemSource,
    RealFiles, SystemClock, read_all, write_all,
};
use std::alloc::Global;

// A source whose second read fails, which would find the end.
fn is_failed(alloc: Global) -> Option<bool> {
    let bytes = b"abc".to_vec(alloc).ok()?;
    let mut source = MemSource::with(alloc, bytes, vec![in alloc; 2].ok()?).ok()?;
    Some(matches!(&read_all(alloc, &mut source, 3), Err(FileFault::Failed)))
}

#[test]
fn a_read_that_fails_is_no_end(rt: HostRuntime) {
    assert!(rt; is_failed(rt.alloc()) == Some(true));
}

// A sink with room for three bytes, whose first write fails.
fn fails_and_writes(alloc: Global) -> Option<bool> {
    let mut sink = MemSink::with(alloc, 3, vec![in alloc; 1].ok()?).ok()?;
    let fails = write_all(&mut sink, b"ab") == Err(Failed);
    let writes = write_all(&mut sink, b"abc") == Ok(());
    Some(fails && writes && write_all(&mut sink, b"d") == Err(Failed))
}

#[test]
fn a_sink_fails_and_goes_on(rt: HostRuntime) {
    assert!(rt; fails_and_writes(rt.alloc()) == Some(true));
}

// A keeper of one byte whose first call fails.
fn fails_and_keeps(alloc: Global) -> Option<bool> {
    let kept = b"a".to_vec(alloc).ok()?;
    let mut keeper = MemKeeper::with(alloc, kept, vec![in alloc; 1].ok()?).ok()?;
    let fails = keeper.append(alloc, 1, b"b") == Err(KeepFault::Failed);
    let keeps = keeper.append(alloc, 1, b"c") == Ok(());
    Some(fails && keeps && keeper.read_all(alloc, 2).is_ok())
}

#[test]
fn a_keeper_fails_and_goes_on(rt: HostRuntime) {
    assert!(rt; fails_and_keeps(rt.alloc()) == Some(true));
}

fn moments(alloc: Global) -> Option<(i64, i64, i64)> {
    let clock = MemClock::with(alloc, vec![in alloc; 7, -9].ok()?).ok()?;
    Some((clock.now(), clock.now(), clock.now()))
}

#[test]
fn moments_come_in_turn(rt: HostRuntime) {
    assert!(rt; moments(rt.alloc()) == Some((7, -9, -9)));
}

#[test]
fn files_and_clock_of_the_system_are_reached(rt: HostRuntime) {
    let mut files = RealFiles::new(rt.clone().expect(&rt, "a handle"));
    assert!(rt;
        matches!(
            &files.read_file(rt.alloc(), "absent", 3),
            Err(FileFault::Failed)
        )
    );
    assert!(rt; SystemClock::new(rt).now() > 1_700_000_000);
}
