//! How events are judged.

ghost use Rattle.std.specs.Prelude.{◌≡◌, ◌<◌, ◌∷◌, [], length, false, IfOk};
ghost use Rattle.std.specs.Option.{option_map_or};
ghost use Rattle.dh_metadata.specs.Linked.{IsBelow};
ghost use Rattle.dh_changes.specs.World.{facts};
ghost use Rattle.value_import.specs.Outcomes.{IsKnown};
ghost use Rattle.value_import.specs.Rules.{first_of};
ghost use Rattle.tracker_import.specs.Events as known;
ghost use Rattle.tracker_import.specs.Rules.{put};

use crate::asking::Asking;
use crate::dates::{day_in, is_no_day};
use crate::enrollments::program_id;
use crate::entities::{Standing, only, put, unit_id};
use crate::items::{id_in, object_named};
use crate::judged::Judged;
use crate::names::{EnrollmentPlace, EventNames};
use crate::pairs::{ItemKind, has_foreign, has_unfit, has_unknown, merged};
use crate::rights::right_condition;
use crate::standing::standing_condition;
use crate::statuses::event_status;
use dh_base::codes::Code;
use dh_base::memory::Memory;
use dh_base::uid::Uid;
use dh_changes::change::Write;
use dh_changes::tracker::Event;
use dh_metadata::kind::Kind;
use dh_metadata::metadata::Metadata;
use dh_metadata::names::ProgramType;
use import_forms::event::BundleEvent;
use import_forms::pair::Pair;
use std::alloc::Global;

#[tactic(auto, unfolding(crate::specs::Events::event_names))]
fn event_names(meta: &Metadata, asked: &BundleEvent) -> EventNames
    ensures value { result ≡ known.event_names meta.now asked.now }
    ensures program { IsBelow (length meta.now.programs) result.program }
    ensures stage { IsBelow (length meta.now.program_stages) result.stage }
    ensures unit { IsBelow (length meta.now.organisation_units) result.unit }
{
    EventNames {
        id: id_in(&asked.id),
        enrollment: id_in(&asked.enrollment),
        program: object_named(meta, Kind::Program, &asked.program),
        stage: object_named(meta, Kind::ProgramStage, &asked.stage),
        unit: object_named(meta, Kind::OrganisationUnit, &asked.unit),
    }
}

#[tactic(auto, unfolding(crate::specs::Events::event_name_conditions))]
fn name_condition(meta: &Metadata, names: &EventNames, pairs: &[Pair]) -> Option<Code>
    ensures { result ≡ first_of (known.event_name_conditions meta.now names.now pairs.now) }
{
    if names.id.is_none() {
        return Some(Code::T1);
    }
    if (names.program.is_none() || names.stage.is_none())
        || has_unknown(meta, ItemKind::Element, pairs)
    {
        return Some(Code::T2);
    }
    if names.unit.is_none() {
        return Some(Code::T3);
    }
    None
}

#[tactic(auto, unfolding(crate::specs::Events::is_registered))]
fn is_registered(meta: &Metadata, program: Option<u32>) -> bool
    requires { IsBelow (length meta.now.programs) program }
    ensures { result ≡ known.is_registered meta.now program }
{
    match program {
        Some(program) => match meta.program(program).program_type {
            ProgramType::WithRegistration => true,
            ProgramType::WithoutRegistration => false,
        },
        None => false,
    }
}

#[tactic(auto, unfolding(crate::specs::Events::is_stage_of))]
fn is_stage_of(meta: &Metadata, program: Option<u32>, stage: Option<u32>) -> bool
    requires { IsBelow (length meta.now.program_stages) stage }
    ensures { result ≡ known.is_stage_of meta.now program stage }
{
    match program {
        Some(program) => match stage {
            Some(stage) => meta.stage(stage).program == program,
            None => false,
        },
        None => false,
    }
}

#[tactic(auto, unfolding(crate::specs::Events::is_enrolled_in))]
fn is_enrolled(meta: &Metadata, program: Option<u32>, parent: Option<EnrollmentPlace>) -> bool
    requires { IsBelow (length meta.now.programs) program }
    ensures { result ≡ option_map_or (known.is_enrolled_in meta.now program) parent false }
{
    let Some(enrollment) = parent else {
        return false;
    };
    match program {
        Some(program) => enrollment.program == program_id(meta, program),
        None => false,
    }
}

#[tactic(auto, unfolding(crate::specs::Events::enrollment_conditions))]
fn enrollment_condition(
    meta: &Metadata,
    names: &EventNames,
    parent: Option<EnrollmentPlace>,
) -> Option<Code>
    requires program { IsBelow (length meta.now.programs) names.now.program }
    requires stage { IsBelow (length meta.now.program_stages) names.now.stage }
    ensures { result ≡ first_of (known.enrollment_conditions meta.now names.now parent) }
{
    let registered = is_registered(meta, names.program);
    if registered && parent.is_none() {
        return Some(Code::T4);
    }
    if !is_stage_of(meta, names.program, names.stage) {
        return Some(Code::T5);
    }
    if registered && !is_enrolled(meta, names.program, parent) {
        return Some(Code::T5);
    }
    None
}

fn has_occurred(status: u8) -> bool
    ensures { result ≡ known.has_occurred status }
{
    status < 3
}

#[tactic(auto, unfolding(crate::specs::Events::lacks_day))]
fn lacks_day(asked: &BundleEvent) -> bool
    ensures { result ≡ known.lacks_day asked.now }
{
    match event_status(&asked.status) {
        Some(status) => if has_occurred(status) {
            asked.occurred.is_none()
        } else {
            asked.scheduled.is_none()
        },
        None => false,
    }
}

#[tactic(auto, unfolding(crate::specs::Events::event_form_conditions))]
fn form_condition(asked: &BundleEvent) -> Option<Code>
    ensures { result ≡ first_of (known.event_form_conditions asked.now) }
{
    if event_status(&asked.status).is_none() {
        return Some(Code::T8);
    }
    if is_no_day(&asked.occurred) || is_no_day(&asked.scheduled) {
        return Some(Code::T9);
    }
    if lacks_day(asked) {
        return Some(Code::T10);
    }
    None
}

#[tactic(auto, unfolding(crate::specs::Events::stage_elements))]
fn stage_elements(meta: &Metadata, stage: Option<u32>) -> &[u32]
    requires { IsBelow (length meta.now.program_stages) stage }
    ensures { result.now ≡ known.stage_elements meta.now stage }
{
    match stage {
        Some(stage) => meta.stage(stage).program_stage_data_elements.as_slice(),
        None => &[],
    }
}

#[tactic(auto, unfolding(crate::specs::Events::element_conditions))]
fn element_condition(meta: &Metadata, stage: Option<u32>, pairs: &[Pair]) -> Option<Code>
    requires { IsBelow (length meta.now.program_stages) stage }
    ensures { result ≡ first_of (known.element_conditions meta.now stage pairs.now) }
{
    if has_unfit(meta, ItemKind::Element, pairs) {
        return Some(Code::T11);
    }
    if has_foreign(meta, ItemKind::Element, stage_elements(meta, stage), pairs) {
        return Some(Code::T12);
    }
    None
}

#[tactic(auto, unfolding(crate::specs::Events::event_conflict))]
fn event_conflict(
    asking: &Asking<'_>,
    standing: Standing,
    parent: Option<EnrollmentPlace>,
    names: &EventNames,
    asked: &BundleEvent,
) -> Option<Code>
    requires who { IsKnown asking.now.meta.now asking.now.who }
    requires program { IsBelow (length asking.now.meta.now.programs) names.now.program }
    requires stage { IsBelow (length asking.now.meta.now.program_stages) names.now.stage }
    requires unit { IsBelow (length asking.now.meta.now.organisation_units) names.now.unit }
    ensures { result ≡ known.event_conflict (facts asking.now.world.now) asking.now.meta.now asking.now.who asking.now.strategy
        standing.live standing.repeated parent names.now asked.now }
{
    let pairs = asked.values.as_slice();
    name_condition(asking.meta, names, pairs)
        .or(enrollment_condition(asking.meta, names, parent))
        .or(right_condition(asking, names.unit, Kind::Program, names.program))
        .or(form_condition(asked))
        .or(element_condition(asking.meta, names.stage, pairs))
        .or(standing_condition(asking.strategy, standing.live, standing.repeated))
}

#[tactic(auto, unfolding(crate::specs::Events::stage_id))]
fn stage_id(meta: &Metadata, stage: u32) -> Uid
    requires { stage < length meta.now.program_stages }
    ensures { result ≡ known.stage_id meta.now stage }
{
    meta.stage(stage).id
}

fn enrollment_in(meta: &Metadata, names: &EventNames) -> Option<Uid>
    requires { IsBelow (length meta.now.programs) names.now.program }
    ensures { result ≡ known.enrollment_in meta.now names.now }
{
    if is_registered(meta, names.program) {
        names.enrollment
    } else {
        None
    }
}

// The event as it is after the write.
#[tactic(auto, unfolding(crate::specs::Events::event_after))]
fn event_after(
    alloc: Global,
    meta: &Metadata,
    names: &EventNames,
    asked: &BundleEvent,
) -> Result<Option<Event>, Memory>
    requires program { IsBelow (length meta.now.programs) names.now.program }
    requires stage { IsBelow (length meta.now.program_stages) names.now.stage }
    requires unit { IsBelow (length meta.now.organisation_units) names.now.unit }
    ensures { IfOk result (λ after. after ≡ known.event_after meta.now names.now asked.now) }
{
    let Some(id) = names.id else {
        return Ok(None);
    };
    let Some(program) = names.program else {
        return Ok(None);
    };
    let Some(stage) = names.stage else {
        return Ok(None);
    };
    let Some(unit) = names.unit else {
        return Ok(None);
    };
    let Some(status) = event_status(&asked.status) else {
        return Ok(None);
    };
    Ok(Some(Event {
        id,
        enrollment: enrollment_in(meta, names),
        program: program_id(meta, program),
        stage: stage_id(meta, stage),
        unit: unit_id(meta, unit),
        status,
        occurred: day_in(&asked.occurred),
        scheduled: day_in(&asked.scheduled),
        values: merged(alloc, meta, &[], asked.values.as_slice())?,
    }))
}

fn accepted(alloc: Global, live: bool, after: Option<Event>) -> Result<Judged, Memory>
    ensures { IfOk result (λ judged. judged ≡ option_map_or (λ own. put live (Write.EventWritten own ∷ [])) after Judged.Nothing) }
{
    match after {
        Some(own) => {
            let written = Write::event(alloc, own)?;
            let writes = only(alloc, written)?;
            Ok(put(live, writes))
        }
        None => Ok(Judged::Nothing),
    }
}

/// What an event comes to that is to be written.
#[tactic(auto, unfolding(crate::specs::Events::judged_event))]
pub fn judge_event(
    alloc: Global,
    asking: &Asking<'_>,
    standing: Standing,
    parent: Option<EnrollmentPlace>,
    asked: &BundleEvent,
) -> Result<Judged, Memory>
    requires who { IsKnown asking.now.meta.now asking.now.who }
    ensures { IfOk result (λ judged. judged ≡ known.judged_event (facts asking.now.world.now) asking.now.meta.now asking.now.who
        asking.now.strategy standing.live standing.repeated parent asked.now) }
{
    let names = event_names(asking.meta, asked);
    match event_conflict(asking, standing, parent, &names, asked) {
        Some(code) => Ok(Judged::Refused(code)),
        None => {
            let after = event_after(alloc, asking.meta, &names, asked)?;
            accepted(alloc, standing.live, after)
        }
    }
}
