//! Events that stores lend.
ghost use Rattle.std.specs.Prelude.{◌≡◌, map, IfOk};
ghost use Rattle.table_latest.specs.Latest.{is_event_touched, untouched};

use crate::latest::Latest;
use dh_base::memory::Memory;
use std::alloc::Global;
use std::marker::Model;
use table_rows::{EventRow, Ranked};

/// An event that a store lends. Contracts see the event itself.
#[derive(Drop)]
pub(crate) struct LentEvent<'a> {
    event: &'a EventRow,
}

impl<'a> Model for LentEvent<'a> {
    ghost use Rattle.table_rows.specs.declared.event.EventRow.{EventRow};

    ghost Value = { EventRow };

    ghost view = { λ lent. lent.event.now };
}

impl<'a> Ranked for LentEvent<'a> {
    ghost use Rattle.table_rows.specs.Events.{event_cmp};

    ghost rank = { event_cmp };

    fn stands_before(&self, other: &LentEvent<'a>) -> bool {
        self.event.stands_before(other.event)
    }
}

/// These events, to be put in order.
pub(crate) fn lent_of<'a>(alloc: Global, all: &[&'a EventRow]) -> Result<Vec<LentEvent<'a>>, Memory>
    ensures { IfOk result (λ list. list.items ≡ map (λ event. event.now) all.now) }
{
    let mut list: Vec<LentEvent<'a>> = Vec::new(alloc);
    for event in all {
        list.push(LentEvent { event: *event })?;
    }
    Ok(list)
}

/// Those of them that the latest part doesn't touch.
pub(crate) fn lent_untouched<'a>(
    alloc: Global,
    all: &[&'a EventRow],
    latest: &Latest,
) -> Result<Vec<LentEvent<'a>>, Memory>
    ensures { IfOk result (λ kept. kept.items ≡ untouched (is_event_touched latest.now.touched) (map (λ event. event.now) all.now)) }
{
    let mut kept: Vec<LentEvent<'a>> = Vec::new(alloc);
    for event in all {
        if !latest.touches_event(event) {
            kept.push(LentEvent { event: *event })?;
        }
    }
    Ok(kept)
}

/// The events of such a list, as they were lent.
pub(crate) fn lent_events<'a>(
    alloc: Global,
    list: &[LentEvent<'a>],
) -> Result<Vec<&'a EventRow>, Memory>
    ensures { IfOk result (λ events. map (λ event. event.now) events.items ≡ list.now) }
{
    let mut events: Vec<&'a EventRow> = Vec::new(alloc);
    for lent in list {
        events.push(lent.event)?;
    }
    Ok(events)
}
