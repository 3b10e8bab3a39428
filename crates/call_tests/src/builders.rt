//! Builders of the parts of years: that they run at the same time, and where their parts stand.
ghost use Rattle.std.specs.Prelude.{◌≡◌};

use dh_base::memory::Memory;
use shared_engine::{Builder, Gate, Meeting, OpenGate, build_each};
use std::alloc::Global;
use std::process::Abort;
use std::thread::Threads;

// The part of a year is its number. One year finds no memory.
#[derive(Drop)]
struct Numbers {
    lacking: i32,
}

impl Builder<i32> for Numbers {
    ghost is_part = { λ _ year part. part ≡ year };

    fn build(&self, _alloc: Global, year: i32) -> Result<i32, Memory> {
        if year == self.lacking {
            return Err(Memory);
        }
        Ok(year)
    }
}

fn are<R: Threads + Abort + Sync, G: Gate + Sync>(
    rt: &R,
    alloc: Global,
    gate: &G,
    workers: u32,
    parts: &[Option<i32>],
) -> bool {
    let years = [2022, 2023, 2024];
    let builder = Numbers { lacking: 2023 };
    let made = build_each(rt, alloc, &years, &builder, gate, workers).expect(rt, "memory");
    made.as_slice() == parts
}

#[test]
fn builders_run_at_the_same_time(rt: HostRuntime) {
    let gate = Meeting::of(2, 100_000_000);
    assert!(rt; are(&rt, rt.alloc(), &gate, 2, &[Some(2022), None, Some(2024)]));
    assert!(rt; gate.arrivals() == 3);
    assert!(rt; gate.missed() == 0);
}

#[test]
fn one_builder_meets_nobody(rt: HostRuntime) {
    let gate = Meeting::of(4, 3);
    assert!(rt; are(&rt, rt.alloc(), &gate, 1, &[Some(2022), None, Some(2024)]));
    assert!(rt; gate.arrivals() == 3);
    assert!(rt; gate.missed() == 3);
}

#[test]
fn without_a_worker_nothing_is_built(rt: HostRuntime) {
    assert!(rt; are(&rt, rt.alloc(), &OpenGate, 0, &[None, None, None]));
}
