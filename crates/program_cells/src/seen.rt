//! The events that a user sees.
ghost use Rattle.std.specs.Prelude.{◌≡◌, ◌&&◌, nat_eq, true, map, IfOk, IfSome};
ghost use Rattle.std.specs.List.{list_all};
ghost use Rattle.cell_values.specs.Held.{IsSeer};
ghost use Rattle.dh_sharing.specs.Ranges.{is_within};
ghost use Rattle.dh_sharing.specs.declared.access.Right.TheVariants as right;
ghost use Rattle.dh_metadata.specs.Users.{may_of};
ghost use Rattle.dh_metadata.specs.declared.kind.Kind.TheVariants as kind;
ghost use Rattle.program_cells.specs.Cells.{is_on_some};
ghost use Rattle.program_cells.specs.Kept.{is_seen_during, seen_during, AreDuring};
ghost use Rattle.program_cells.specs.Places.{ArePlaces, order_of};

use crate::days::{days_of, is_on_some};
use crate::placed::{PlacedEvents, lists_for, put};
use crate::under::push_if;
use cell_values::{CellPeriods, Seer, Source};
use dh_base::items::Items;
use dh_base::memory::Memory;
use dh_metadata::kind::Kind;
use dh_metadata::metadata::Metadata;
use dh_periods::Period;
use dh_sharing::access::Right;
use dh_sharing::ranges::ViewRanges;
use std::alloc::Global;
use table_rows::{EventRow, RowStore};

/// Whether the user may read the data of the program.
#[tactic(auto, using(cell_values::proofs::RightLemmas::may_not_past))]
fn reads_program(meta: &Metadata, seer: &Seer, program: u32) -> bool
    requires { IsSeer meta.now seer.now }
    ensures { result ≡ may_of meta.now seer.now.user right.DataRead kind.Program program }
{
    if meta.count(Kind::Program) <= program {
        return false;
    }
    meta.may(seer.user(), Right::DataRead, Kind::Program, program)
}

/// Whether the event is of the program, on a day of the periods.
fn is_due(program: u32, periods: &[Period], event: &EventRow) -> bool
    ensures { result ≡ (nat_eq event.now.program program && is_on_some periods.now event.now.day) }
{
    event.program == program && is_on_some(periods, &event.day)
}

/// Whether the number lies in the ranges. Those of most users are one, and it is looked at here.
fn is_within(ranges: &ViewRanges, order: u32) -> bool
    ensures { result ≡ is_within ranges.now order }
{
    let parts = ranges.parts();
    if parts.len() == 1 {
        parts[0].0 <= order && order < parts[0].1
    } else {
        ranges.holds(order)
    }
}

/// Whether the event is of the program, on a day of the periods, and seen. That the user may read the data of the program is asked once for
/// all events.
fn is_seen_during(
    meta: &Metadata,
    seer: &Seer,
    program: u32,
    periods: &[Period],
    event: &EventRow,
) -> bool
    requires seer { IsSeer meta.now seer.now }
    requires reads { may_of meta.now seer.now.user right.DataRead kind.Program program ≡ true }
    ensures { result ≡ is_seen_during meta.now seer.now.user program periods.now event.now }
{
    is_due(program, periods, event) && is_within(seer.views(), event.order)
}

/// Where the events of each of the first `count` units stand, if all of the events are of the program, on days of the periods, and seen. Both
/// are found in one pass, since what takes time is to reach each event.
fn places_if_seen(
    alloc: Global,
    meta: &Metadata,
    seer: &Seer,
    program: u32,
    periods: &[Period],
    events: &[&EventRow],
) -> Result<Option<Vec<Items<usize>>>, Memory>
    requires seer { IsSeer meta.now seer.now }
    requires reads { may_of meta.now seer.now.user right.DataRead kind.Program program ≡ true }
    ensures seen { IfOk result (λ all. IfSome all (λ _. list_all (is_seen_during meta.now seer.now.user program periods.now)
        (map (λ event. event.now) events.now) ≡ true)) }
    ensures places { IfOk result (λ all. IfSome all (λ places. ArePlaces order_of (map (λ event. event.now) events.now) places.items)) }
{
    let mut places = lists_for(alloc, events.len(), meta.count(Kind::OrganisationUnit))?;
    for at in 0..events.len() {
        let event = events[at];
        if !is_seen_during(meta, seer, program, periods, event) {
            return Ok(None);
        }
        put(&mut places, event, at)?;
    }
    Ok(Some(places))
}

fn picked<'a>(
    alloc: Global,
    meta: &Metadata,
    seer: &Seer,
    program: u32,
    periods: &[Period],
    events: &[&'a EventRow],
) -> Result<Vec<&'a EventRow>, Memory>
    requires seer { IsSeer meta.now seer.now }
    requires reads { may_of meta.now seer.now.user right.DataRead kind.Program program ≡ true }
    ensures { IfOk result (λ kept. map (λ event. event.now) kept.items
        ≡ seen_during meta.now seer.now.user program periods.now (map (λ event. event.now) events.now)) }
{
    let mut kept: Vec<&'a EventRow> = Vec::new(alloc);
    for event in events {
        let keeps = is_seen_during(meta, seer, program, periods, event);
        push_if(&mut kept, *event, keeps)?;
    }
    Ok(kept)
}

/// Those of the events that are of the program, on days of the periods, and seen. Mostly these are all, and then none is moved.
fn kept<'a>(
    alloc: Global,
    meta: &Metadata,
    seer: &Seer,
    program: u32,
    periods: &[Period],
    events: Vec<&'a EventRow>,
) -> Result<PlacedEvents<'a>, Memory>
    requires { IsSeer meta.now seer.now }
    ensures { IfOk result (λ kept. kept ≡ seen_during meta.now seer.now.user program periods.now (map (λ event. event.now) events.entry.items)) }
{
    if !reads_program(meta, seer, program) {
        return Ok(PlacedEvents::none(alloc));
    }
    match places_if_seen(alloc, meta, seer, program, periods, &events)? {
        Some(places) => Ok(PlacedEvents::at(events, places)),
        None => {
            let some = picked(alloc, meta, seer, program, periods, &events)?;
            PlacedEvents::of(alloc, some, meta.count(Kind::OrganisationUnit))
        }
    }
}

/// The events of the program on days of the periods that the user sees, by day and identifier: they serve for the cells of all units.
pub(crate) fn events_during<'a, S: RowStore>(
    alloc: Global,
    source: &Source<'a, S>,
    program: u32,
    periods: &CellPeriods,
) -> Result<PlacedEvents<'a>, Memory>
    requires { IsSeer source.now.meta.now source.now.seer.now }
    ensures { IfOk result (λ found. AreDuring source.now.meta.now source.now.seer.now.user program periods.now (S.events source.now.store.now) found) }
{
    let asked = periods.periods();
    let days = days_of(asked);
    let all = source
        .store
        .lend_events(alloc, program, days.from, days.to)?;
    kept(alloc, source.meta, source.seer, program, asked, all)
}
