//! The events of some days, among events by day and identifier.
ghost use Rattle.std.specs.Prelude.{◌≡◌, true, map, IfOk};
ghost use Rattle.table_rows.specs.Events.{event_cmp, events_of};
ghost use Rattle.table_rows.specs.Store.{rises};
ghost use Rattle.table_sums.specs.Bounds.{IsCut};
ghost use Rattle.table_sums.specs.Days.{is_before};

use dh_base::memory::Memory;
use std::alloc::Global;
use table_rows::{EventRow, EventsAsked, put_event};

// Whether an event occurred before the days or, with these, not after them.
fn is_before(event: &EventRow, asked: &EventsAsked, with_days: bool) -> bool
    ensures { result ≡ is_before asked.now with_days event.now }
{
    if with_days {
        event.day <= asked.to_day
    } else {
        event.day < asked.from_day
    }
}

// How many events did.
fn count_before(events: &[EventRow], asked: &EventsAsked, with_days: bool) -> usize
    requires { rises event_cmp events.now ≡ true }
    ensures { IsCut (is_before asked.now with_days) events.now result }
{
    events.partition_point(|event| is_before(event, asked, with_days))
}

/// The events that are asked for. No other event is looked at but those of these days, and a few by which these are found.
pub(crate) fn events_between<'a>(
    alloc: Global,
    events: &'a [EventRow],
    asked: &EventsAsked,
) -> Result<Vec<&'a EventRow>, Memory>
    requires { rises event_cmp events.now ≡ true }
    ensures { IfOk result (λ found. map (λ event. event.now) found.items ≡ events_of asked.now.program asked.now.from_day asked.now.to_day events.now) }
{
    let first = count_before(events, asked, false);
    let end = count_before(events, asked, true);
    let mut found = Vec::new(alloc);
    for place in first..end {
        put_event(&mut found, &events[place], asked)?;
    }
    Ok(found)
}
