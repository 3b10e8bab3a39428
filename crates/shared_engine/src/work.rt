//! The shared list of years, and what the workers make of it.
ghost use Rattle.std.specs.Prelude.{ℤ, ◌<◌, length, IfOk, OnOk};
ghost use Rattle.std.specs.List.{All};
ghost use Rattle.shared_engine.specs.Places.{IsBuilt, IsWork, ArePlaces};

use crate::gate::Gate;
use dh_base::memory::Memory;
use std::alloc::Global;
use std::sync::atomic::{AtomicU64, Ordering};
use std::thread;
use std::thread::Threads;

/// Builds the part of a year.
pub trait Builder<P> {
    ghost use Rattle.std.specs.Prelude.{ℤ};

    /// The part is that of the year.
    ghost is_part: { Self → ℤ → P → Type 0 };

    fn build(&self, alloc: Global, year: i32) -> Result<P, Memory>
        ensures { IfOk result (is_part self.now year) };
}

/// A part, and the place of its year.
#[derive(Drop)]
pub(crate) struct Built<P> {
    place: usize,
    part: P,
}

// The part of the year at a place.
fn build_at<P: Drop, B: Builder<P>, G: Gate>(
    alloc: Global,
    years: &[i32],
    builder: &B,
    gate: &G,
    place: usize,
    found: &mut Vec<Built<P>>,
) -> Result<(), Memory>
    requires place { place < length years.now }
    requires found { All (IsBuilt (B.is_part builder.now) years.now) found.old.items }
    ensures { All (IsBuilt (B.is_part builder.now) years.now) found.new.items }
{
    let year = years[place];
    gate.arrive(year);
    if let Ok(part) = builder.build(alloc, year) {
        found.push(Built { place, part })?;
    }
    Ok(())
}

// Takes one year after another, until none is left.
fn work<P: Drop, B: Builder<P>, G: Gate>(
    alloc: Global,
    years: &[i32],
    builder: &B,
    gate: &G,
    next: &AtomicU64,
) -> Result<Vec<Built<P>>, Memory>
    ensures { IsWork (B.is_part builder.now) years.now result }
{
    let mut found = Vec::new(alloc);
    for _ in years {
        let place = next.fetch_add(1, Ordering::SeqCst) as usize;
        if place >= years.len() {
            break;
        }
        build_at(alloc, years, builder, gate, place, &mut found)?;
    }
    Ok(found)
}

// A place for each year.
fn blank_places<P: Drop, B: Builder<P>>(
    alloc: Global,
    years: &[i32],
    builder: &B,
) -> Result<Vec<Option<P>>, Memory>
    ensures { IfOk result (λ places. ArePlaces (B.is_part builder.now) years.now places.items) }
{
    let mut places = Vec::new(alloc);
    for _ in years {
        places.push(None)?;
    }
    Ok(places)
}

// Puts a part into its place.
fn put<P: Drop, B: Builder<P>>(
    places: &mut Vec<Option<P>>,
    built: Built<P>,
    years: &[i32],
    builder: &B,
)
    requires places { ArePlaces (B.is_part builder.now) years.now places.old.items }
    requires built { IsBuilt (B.is_part builder.now) years.now built }
    ensures { ArePlaces (B.is_part builder.now) years.now places.new.items }
{
    let Built { place, part } = built;
    places[place] = Some(part);
}

// Puts what one worker built into its places.
fn put_all<P: Drop, B: Builder<P>>(
    places: &mut Vec<Option<P>>,
    found: Vec<Built<P>>,
    years: &[i32],
    builder: &B,
)
    requires places { ArePlaces (B.is_part builder.now) years.now places.old.items }
    requires found { All (IsBuilt (B.is_part builder.now) years.now) found.items }
    ensures { ArePlaces (B.is_part builder.now) years.now places.new.items }
{
    for built in found {
        put(places, built, years, builder);
    }
}

// What the workers built, in its places. A worker that found no memory leaves the places of its years without a part.
fn gather<P: Drop, B: Builder<P>>(
    alloc: Global,
    works: Vec<Result<Vec<Built<P>>, Memory>>,
    years: &[i32],
    builder: &B,
) -> Result<Vec<Option<P>>, Memory>
    requires works { All (IsWork (B.is_part builder.now) years.now) works.items }
    ensures { IfOk result (λ places. ArePlaces (B.is_part builder.now) years.now places.items) }
{
    let mut places = blank_places(alloc, years, builder)?;
    for work in works {
        if let Ok(found) = work {
            put_all(&mut places, found, years, builder);
        }
    }
    Ok(places)
}

/// So many workers build the parts of these years at the same time, each in a thread of its own where one can be made. Each calls the
/// gate before it builds a year.
pub fn build_each<R: Threads + Sync, P: Drop + Send, B: Builder<P> + Sync, G: Gate + Sync>(
    rt: &R,
    alloc: Global,
    years: &[i32],
    builder: &B,
    gate: &G,
    workers: u32,
) -> Result<Vec<Option<P>>, Memory>
    ensures { IfOk result (λ places. ArePlaces (B.is_part builder.now) years.now places.items) }
{
    let next = AtomicU64::new(0);
    let works = thread::map_indices(
        rt,
        alloc,
        workers as usize,
        &|_i: usize| -> Result<Vec<Built<P>>, Memory>
            ensures { IsWork (B.is_part builder.entry.now) years.entry.now result }
        { work(alloc, years, builder, gate, &next) },
    )?;
    gather(alloc, works, years, builder)
}
