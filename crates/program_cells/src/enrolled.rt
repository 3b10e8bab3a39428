//! The enrollments of a program that a user sees.
ghost use Rattle.std.specs.Prelude.{◌≡◌, IfOk, map};
ghost use Rattle.std.specs.List.{filter};
ghost use Rattle.cell_values.specs.Held.{IsSeer};
ghost use Rattle.cell_values.specs.Seen.{seen_events};
ghost use Rattle.program_cells.specs.Cells.{is_enrolled_on};
ghost use Rattle.program_cells.specs.Enrollments.{first_is, enrollments};
ghost use Rattle.program_cells.specs.Kept.{is_seen_enrolled, seen_enrolled};

use crate::days::is_enrolled_on;
use crate::grouping::{by_enrollment, together};
use cell_values::{Seer, Source};
use dh_base::items::Items;
use dh_base::limits::{FIRST_DAY, LAST_DAY};
use dh_base::memory::Memory;
use dh_metadata::metadata::Metadata;
use dh_periods::Period;
use std::alloc::Global;
use table_rows::{EventRow, RowStore};

/// Whether the event tells an enrollment in the program, and is seen.
#[tactic(auto, unfolding(crate::specs::Enrollments::is_enrolled_in, crate::specs::Kept::is_seen_enrolled))]
fn is_seen_enrolled(meta: &Metadata, seer: &Seer, program: u32, event: &EventRow) -> bool
    requires { IsSeer meta.now seer.now }
    ensures { result ≡ is_seen_enrolled meta.now seer.now.user program event.now }
{
    let tells = event.program == program && event.enrolled.is_some() && event.enrollment.is_some();
    tells && seer.sees_event(meta, event)
}

/// Copies of those of the events that tell an enrollment in the program, and are seen.
fn kept_enrolled(
    alloc: Global,
    meta: &Metadata,
    seer: &Seer,
    program: u32,
    events: &[&EventRow],
) -> Result<Vec<EventRow>, Memory>
    requires { IsSeer meta.now seer.now }
    ensures { IfOk result (λ kept. kept.items ≡ seen_enrolled meta.now seer.now.user program (map (λ event. event.now) events.now)) }
{
    let mut kept: Vec<EventRow> = Vec::new(alloc);
    for event in events {
        if is_seen_enrolled(meta, seer, program, event) {
            kept.push(event.copy(alloc)?)?;
        }
    }
    Ok(kept)
}

/// The enrollments of the program by the events of it that the user sees.
pub(crate) fn enrollments<S: RowStore>(
    alloc: Global,
    source: &Source<'_, S>,
    program: u32,
) -> Result<Items<Items<EventRow>>, Memory>
    requires { IsSeer source.now.meta.now source.now.seer.now }
    ensures { IfOk result (λ found. found
        ≡ enrollments program (seen_events source.now.meta.now source.now.seer.now.user (S.events source.now.store.now))) }
{
    let all = source
        .store
        .lend_events(alloc, program, FIRST_DAY, LAST_DAY)?;
    let kept = kept_enrolled(alloc, source.meta, source.seer, program, &all)?;
    let sorted = by_enrollment(kept)?;
    together(alloc, sorted)
}

fn began_on(periods: &[Period], subject: &[EventRow]) -> bool
    ensures { result ≡ first_is (is_enrolled_on periods.now) subject.now }
{
    match subject.first() {
        Some(event) => is_enrolled_on(periods, event),
        None => false,
    }
}

/// The enrollments that began in some of the periods.
pub(crate) fn enrolled_during<'a>(
    alloc: Global,
    periods: &[Period],
    enrollments: &'a [Items<EventRow>],
) -> Result<Vec<&'a [EventRow]>, Memory>
    ensures { IfOk result (λ kept. map (λ subject. subject.now) kept.items ≡ filter (first_is (is_enrolled_on periods.now)) enrollments.now) }
{
    let mut kept = Vec::new(alloc);
    for enrollment in enrollments {
        let subject = enrollment.as_slice();
        if began_on(periods, subject) {
            kept.push(subject)?;
        }
    }
    Ok(kept)
}
