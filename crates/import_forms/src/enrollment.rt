//! Enrollments, with the events that stand in them.

ghost use Rattle.std.specs.Prelude.{◌≡◌, ◌++◌, [], IfOk, OnOk, map};
ghost use Rattle.std.specs.Option.{option_or};
ghost use Rattle.std.specs.List.{flat_map};
ghost use Rattle.json_read.specs.Views.{data_of};
ghost use Rattle.json_read.specs.Given.{Gives};
ghost use Rattle.import_forms.specs.Enrollments.{enrollment_of, whole_enrollment, enrollment_parts};

use crate::both::both;
use crate::event::BundleEvent;
use crate::lists::{Inner, all_inside, append, list_at};
use crate::pair::{Pair, attributes_of};
use crate::text::{four_texts_in, text_in};
use dh_base::items::Items;
use dh_base::memory::Memory;
use json::Value;
use json_read::fault::FormFault;
use json_read::form::{ReadJson, require_object};
use std::alloc::{AllocError, Global};

/// An enrollment, as it stands in the body.
#[derive(Drop)]
pub struct BundleEnrollment {
    pub id: Option<Items<u8>>,
    /// The tracked entity, that around it where it names none.
    pub entity: Option<Items<u8>>,
    pub program: Option<Items<u8>>,
    /// The organisation unit.
    pub unit: Option<Items<u8>>,
    pub enrolled: Option<Items<u8>>,
    pub occurred: Option<Items<u8>>,
    pub status: Option<Items<u8>>,
    /// Attributes of its entity.
    pub attributes: Items<Pair>,
}

/// An enrollment with the events that stand in it.
#[derive(Drop)]
pub struct EnrollmentForm {
    pub own: BundleEnrollment,
    pub events: Items<BundleEvent>,
}

// The enrollment without its attributes.
#[tactic(auto, unfolding(crate::specs::Enrollments::enrollment_of))]
fn enrollment_of(alloc: Global, value: &Value<'_>) -> Result<BundleEnrollment, AllocError>
    ensures { IfOk result (λ own. own ≡ enrollment_of [] (data_of value.now)) }
{
    let days = both(
        text_in(alloc, value, "enrolledAt"),
        text_in(alloc, value, "occurredAt"),
    );
    let (ids, (days, status)) = both(
        four_texts_in(
            alloc,
            value,
            "enrollment",
            "trackedEntity",
            "program",
            "orgUnit",
        ),
        both(days, text_in(alloc, value, "status")),
    )?;
    let ((id, entity), (program, unit)) = ids;
    let (enrolled, occurred) = days;
    Ok(BundleEnrollment {
        id,
        entity,
        program,
        unit,
        enrolled,
        occurred,
        status,
        attributes: Items::new(alloc),
    })
}

// The enrollment with its attributes.
#[tactic(auto, unfolding(crate::specs::Enrollments::whole_enrollment, crate::specs::Enrollments::enrollment_of))]
fn whole_enrollment(alloc: Global, value: &Value<'_>) -> Result<BundleEnrollment, FormFault>
    ensures { Gives (whole_enrollment (data_of value.now)) result }
{
    let attributes = attributes_of(alloc, value)?;
    let mut own = enrollment_of(alloc, value)?;
    own.attributes = attributes;
    Ok(own)
}

/// Fills in the text of the object around where there is none of its own.
pub(crate) fn fill_in(
    alloc: Global,
    own: &mut Option<Items<u8>>,
    around: &Option<Items<u8>>,
) -> Result<(), AllocError>
    ensures { OnOk result (own.new ≡ option_or own.old around.now) }
{
    if own.is_some() {
        return Ok(());
    }
    if let Some(text) = around {
        *own = Some(Items::from(text.as_slice().to_vec(alloc)?));
    }
    Ok(())
}

impl Inner for BundleEvent {
    ghost use Rattle.import_forms.specs.Enrollments.{in_enrollment};

    ghost inside = { in_enrollment };

    fn put_inside(
        alloc: Global,
        id: &Option<Items<u8>>,
        object: BundleEvent,
    ) -> Result<BundleEvent, AllocError> {
        let mut event = object;
        match fill_in(alloc, &mut event.enrollment, id) {
            Ok(()) => Ok(event),
            Err(fault) => {
                drop(event);
                Err(fault)
            }
        }
    }
}

// The events that stand in an enrollment, and the enrollment.
fn enrollment_parts(
    alloc: Global,
    value: &Value<'_>,
) -> Result<(Items<BundleEvent>, BundleEnrollment), FormFault>
    ensures { Gives (enrollment_parts (data_of value.now)) result }
{
    both(
        list_at(alloc, value, "events"),
        whole_enrollment(alloc, value),
    )
}

impl ReadJson for EnrollmentForm {
    ghost use Rattle.import_forms.specs.Enrollments.{enrollment_form};

    ghost form = { enrollment_form };

    #[tactic(auto, unfolding(crate::specs::Enrollments::enrollment_form))]
    fn read(alloc: Global, value: &Value<'_>) -> Result<EnrollmentForm, FormFault> {
        require_object(alloc, value)?;
        let (events, own) = enrollment_parts(alloc, value)?;
        match all_inside(alloc, &own.id, events) {
            Ok(events) => Ok(EnrollmentForm { own, events }),
            Err(_) => {
                drop(own);
                Err(FormFault::Memory)
            }
        }
    }
}

/// Puts enrollments at the end of a list, and the events that stand in them at the end of another.
pub(crate) fn put_enrollments(
    forms: Items<EnrollmentForm>,
    enrollments: &mut Items<BundleEnrollment>,
    events: &mut Items<BundleEvent>,
) -> Result<(), Memory>
    ensures own { OnOk result (enrollments.new ≡ enrollments.old ++ map (λ form. form.own) forms) }
    ensures events { OnOk result (events.new ≡ events.old ++ flat_map (λ form. form.events) forms) }
{
    for form in forms.items {
        let EnrollmentForm { own, events: inner } = form;
        enrollments.push(own)?;
        append(events, inner)?;
    }
    Ok(())
}
