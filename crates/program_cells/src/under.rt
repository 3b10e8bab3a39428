//! The subjects of some units.
ghost use Rattle.std.specs.Prelude.{◌≡◌, ◌++◌, ◌∷◌, [], cond, map, IfOk, OnOk};
ghost use Rattle.std.specs.List.{filter};
ghost use Rattle.dh_sharing.specs.Ranges.{is_within};
ghost use Rattle.program_cells.specs.Cells.{alone};
ghost use Rattle.program_cells.specs.Enrollments.{first_is};
ghost use Rattle.program_cells.specs.Kept.{is_placed_in};
ghost use Rattle.program_cells.specs.Places.{places_from};

use dh_base::memory::Memory;
use dh_sharing::ranges::ViewRanges;
use std::alloc::Global;
use std::slice::from_ref;
use table_rows::EventRow;

/// Puts an item at the end, if it is to be kept.
pub(crate) fn push_if<T: Copy>(kept: &mut Vec<T>, item: T, keeps: bool) -> Result<(), Memory>
    ensures { OnOk result (kept.new.items ≡ kept.old.items ++ cond keeps (item ∷ []) []) }
{
    if keeps {
        kept.push(item)?;
    }
    Ok(())
}

/// The events whose units lie in the ranges, each alone.
pub(crate) fn events_in<'a>(
    alloc: Global,
    ranges: &ViewRanges,
    events: &[&'a EventRow],
) -> Result<Vec<&'a [EventRow]>, Memory>
    ensures { IfOk result (λ kept. map (λ subject. subject.now) kept.items
        ≡ map alone (filter (is_placed_in ranges.now) (map (λ event. event.now) events.now))) }
{
    let mut kept: Vec<&'a [EventRow]> = Vec::new(alloc);
    for event in events {
        push_if(&mut kept, from_ref(*event), ranges.holds(event.order))?;
    }
    Ok(kept)
}

/// The places of the events whose units lie in the ranges.
pub(crate) fn places_in(
    alloc: Global,
    ranges: &ViewRanges,
    events: &[&EventRow],
) -> Result<Vec<usize>, Memory>
    ensures { IfOk result (λ own. own.items ≡ places_from 0 (is_placed_in ranges.now) (map (λ event. event.now) events.now)) }
{
    let mut own = Vec::new(alloc);
    for at in 0..events.len() {
        push_if(&mut own, at, ranges.holds(events[at].order))?;
    }
    Ok(own)
}

fn lies_in(ranges: &ViewRanges, subject: &[EventRow]) -> bool
    ensures { result ≡ first_is (is_placed_in ranges.now) subject.now }
{
    match subject.first() {
        Some(event) => ranges.holds(event.order),
        None => false,
    }
}

/// The enrollments whose units lie in the ranges.
pub(crate) fn enrollments_in<'a>(
    alloc: Global,
    ranges: &ViewRanges,
    enrollments: &[&'a [EventRow]],
) -> Result<Vec<&'a [EventRow]>, Memory>
    ensures { IfOk result (λ kept. map (λ subject. subject.now) kept.items
        ≡ filter (first_is (is_placed_in ranges.now)) (map (λ subject. subject.now) enrollments.now)) }
{
    let mut kept: Vec<&'a [EventRow]> = Vec::new(alloc);
    for enrollment in enrollments {
        push_if(&mut kept, *enrollment, lies_in(ranges, enrollment))?;
    }
    Ok(kept)
}
