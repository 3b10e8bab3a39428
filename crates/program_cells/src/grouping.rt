//! Events that tell one enrollment, together.
ghost use Rattle.std.specs.Prelude.{◌≡◌, ◌++◌, ◌∷◌, [], IfOk, OnOk};
ghost use Rattle.std.specs.List.Sorted.{IsStrictlySortedBy};
ghost use Rattle.program_cells.specs.Enrollments.{is_one_enrollment, first_is, joined, together};
ghost use Rattle.program_cells.specs.Order.{enrolled_cmp, in_order};
ghost use Rattle.table_rows.specs.Events.{event_cmp};
ghost use Rattle.program_cells.specs.Kept.{enrolled_key};

use dh_base::items::Items;
use dh_base::memory::Memory;
use dh_base::uid::Uid;
use std::alloc::Global;
use table_rows::EventRow;

/// What events are ordered by where those of one enrollment are to stand together: by the first, and then by what comes after it.
type EnrolledKey = (Option<i32>, (Option<Uid>, (i32, Uid)));

fn key_of(event: &EventRow) -> EnrolledKey
    ensures { result ≡ enrolled_key event.now }
{
    (event.enrolled, (event.enrollment, (event.day, event.id)))
}

/// The events by the day of the enrollment, the enrollment, and then by day and identifier, by which they stand now.
pub(crate) fn by_enrollment(events: Vec<EventRow>) -> Result<Vec<EventRow>, Memory>
    requires { IsStrictlySortedBy event_cmp events.items }
    ensures { IfOk result (λ sorted. sorted.items ≡ in_order enrolled_cmp events.items) }
{
    let mut sorted = events;
    sorted.sort_by_key(|event| key_of(event))?;
    Ok(sorted)
}

// Whether the event tells the enrollment of the subject.
#[tactic(auto, unfolding(crate::specs::Enrollments::is_one_enrollment))]
fn goes_on(subject: &[EventRow], event: &EventRow) -> bool
    ensures { result ≡ first_is (λ first. is_one_enrollment first event.now) subject.now }
{
    match subject.first() {
        Some(first) => first.enrolled == event.enrolled && first.enrollment == event.enrollment,
        None => false,
    }
}

fn extended(subject: Items<EventRow>, event: EventRow) -> Result<Items<EventRow>, Memory>
    ensures { IfOk result (λ more. more ≡ subject ++ event ∷ []) }
{
    let mut events = subject.items;
    events.push(event)?;
    Ok(Items::from(events))
}

fn begin(alloc: Global, subjects: &mut Vec<Items<EventRow>>, event: EventRow) -> Result<(), Memory>
    ensures { OnOk result (subjects.new.items ≡ subjects.old.items ++ (event ∷ []) ∷ []) }
{
    let mut events = Vec::new(alloc);
    events.push(event)?;
    subjects.push(Items::from(events))?;
    Ok(())
}

/// An event more: it joins the last subject if both tell one enrollment, and else begins a subject.
fn join(alloc: Global, subjects: &mut Vec<Items<EventRow>>, event: EventRow) -> Result<(), Memory>
    ensures { OnOk result (subjects.new.items ≡ joined subjects.old.items event) }
{
    let Some(last) = subjects.pop() else {
        return begin(alloc, subjects, event);
    };
    if goes_on(last.as_slice(), &event) {
        subjects.push(extended(last, event)?)?;
        return Ok(());
    }
    subjects.push(last)?;
    begin(alloc, subjects, event)
}

/// Events that stand next to each other and tell one enrollment, together.
pub(crate) fn together(
    alloc: Global,
    events: Vec<EventRow>,
) -> Result<Items<Items<EventRow>>, Memory>
    ensures { IfOk result (λ subjects. subjects ≡ together events.items) }
{
    let mut subjects = Vec::new(alloc);
    for event in events {
        join(alloc, &mut subjects, event)?;
    }
    Ok(Items::from(subjects))
}
