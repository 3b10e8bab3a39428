//! How enrollments are judged.

ghost use Rattle.std.specs.Prelude.{◌≡◌, ◌<◌, ◌∷◌, ◌++◌, length, IfOk, OnOk};
ghost use Rattle.std.specs.Option.{option_copied, option_map_or};
ghost use Rattle.dh_metadata.specs.Linked.{IsBelow};
ghost use Rattle.dh_changes.specs.World.{facts};
ghost use Rattle.value_import.specs.Outcomes.{IsKnown};
ghost use Rattle.value_import.specs.Rules.{first_of};
ghost use Rattle.tracker_import.specs.Enrollments as known;
ghost use Rattle.tracker_import.specs.Rules.{put};

use crate::asking::Asking;
use crate::dates::{day_in, is_no_day};
use crate::entities::{Standing, only, put, type_id, unit_id};
use crate::items::{id_in, object_named};
use crate::judged::Judged;
use crate::names::EnrollmentNames;
use crate::pairs::{ItemKind, has_foreign, has_unfit, has_unknown, merged};
use crate::rights::right_condition;
use crate::standing::standing_condition;
use crate::statuses::enrollment_status;
use dh_base::codes::Code;
use dh_base::items::Items;
use dh_base::memory::Memory;
use dh_base::uid::Uid;
use dh_changes::change::Write;
use dh_changes::tracker::{Enrollment, Entity};
use dh_metadata::kind::Kind;
use dh_metadata::metadata::Metadata;
use import_forms::enrollment::BundleEnrollment;
use import_forms::pair::Pair;
use std::alloc::Global;

#[tactic(auto, unfolding(crate::specs::Enrollments::enrollment_names))]
fn enrollment_names(meta: &Metadata, asked: &BundleEnrollment) -> EnrollmentNames
    ensures value { result ≡ known.enrollment_names meta.now asked.now }
    ensures program { IsBelow (length meta.now.programs) result.program }
    ensures unit { IsBelow (length meta.now.organisation_units) result.unit }
{
    EnrollmentNames {
        id: id_in(&asked.id),
        entity: id_in(&asked.entity),
        program: object_named(meta, Kind::Program, &asked.program),
        unit: object_named(meta, Kind::OrganisationUnit, &asked.unit),
    }
}

#[tactic(auto, unfolding(crate::specs::Enrollments::enrollment_name_conditions))]
fn name_condition(meta: &Metadata, names: &EnrollmentNames, pairs: &[Pair]) -> Option<Code>
    ensures { result ≡ first_of (known.enrollment_name_conditions meta.now names.now pairs.now) }
{
    if names.id.is_none() {
        return Some(Code::T1);
    }
    if names.program.is_none() || has_unknown(meta, ItemKind::Attribute, pairs) {
        return Some(Code::T2);
    }
    if names.unit.is_none() {
        return Some(Code::T3);
    }
    None
}

#[tactic(auto, unfolding(crate::specs::Enrollments::entity_conditions, crate::specs::Enrollments::is_of_type))]
fn entity_condition(meta: &Metadata, program: Option<u32>, parent: Option<&Entity>) -> Option<Code>
    requires { IsBelow (length meta.now.programs) program }
    ensures { result ≡ first_of (known.entity_conditions meta.now program (option_copied parent.entry)) }
{
    let Some(entity) = parent else {
        return Some(Code::T4);
    };
    let Some(program) = program else {
        return Some(Code::T5);
    };
    let Some(kind) = meta.program(program).tracked_entity_type else {
        return Some(Code::T5);
    };
    if entity.kind != type_id(meta, kind) {
        return Some(Code::T5);
    }
    None
}

#[tactic(auto, unfolding(crate::specs::Enrollments::enrollment_form_conditions))]
fn form_condition(asked: &BundleEnrollment) -> Option<Code>
    ensures { result ≡ first_of (known.enrollment_form_conditions asked.now) }
{
    if enrollment_status(&asked.status).is_none() {
        return Some(Code::T8);
    }
    if is_no_day(&asked.enrolled) || is_no_day(&asked.occurred) {
        return Some(Code::T9);
    }
    if asked.enrolled.is_none() {
        return Some(Code::T10);
    }
    None
}

#[tactic(auto, unfolding(crate::specs::Enrollments::program_attributes))]
fn program_attributes(meta: &Metadata, program: Option<u32>) -> &[u32]
    requires { IsBelow (length meta.now.programs) program }
    ensures { result.now ≡ known.program_attributes meta.now program }
{
    match program {
        Some(program) => meta
            .program(program)
            .program_tracked_entity_attributes
            .as_slice(),
        None => &[],
    }
}

#[tactic(auto, unfolding(crate::specs::Enrollments::attribute_conditions))]
fn attribute_condition(meta: &Metadata, program: Option<u32>, pairs: &[Pair]) -> Option<Code>
    requires { IsBelow (length meta.now.programs) program }
    ensures { result ≡ first_of (known.attribute_conditions meta.now program pairs.now) }
{
    if has_unfit(meta, ItemKind::Attribute, pairs) {
        return Some(Code::T11);
    }
    if has_foreign(
        meta,
        ItemKind::Attribute,
        program_attributes(meta, program),
        pairs,
    ) {
        return Some(Code::T12);
    }
    None
}

#[tactic(auto, unfolding(crate::specs::Enrollments::enrollment_conflict))]
fn enrollment_conflict(
    asking: &Asking<'_>,
    standing: Standing,
    parent: Option<&Entity>,
    names: &EnrollmentNames,
    asked: &BundleEnrollment,
) -> Option<Code>
    requires who { IsKnown asking.now.meta.now asking.now.who }
    requires program { IsBelow (length asking.now.meta.now.programs) names.now.program }
    requires unit { IsBelow (length asking.now.meta.now.organisation_units) names.now.unit }
    ensures { result ≡ known.enrollment_conflict (facts asking.now.world.now) asking.now.meta.now asking.now.who asking.now.strategy
        standing.live standing.repeated (option_copied parent.entry) names.now asked.now }
{
    let pairs = asked.attributes.as_slice();
    name_condition(asking.meta, names, pairs)
        .or(entity_condition(asking.meta, names.program, parent))
        .or(right_condition(asking, names.unit, Kind::Program, names.program))
        .or(form_condition(asked))
        .or(attribute_condition(asking.meta, names.program, pairs))
        .or(standing_condition(asking.strategy, standing.live, standing.repeated))
}

/// The identifier of a program.
#[tactic(auto, unfolding(crate::specs::Enrollments::program_id))]
pub fn program_id(meta: &Metadata, program: u32) -> Uid
    requires { program < length meta.now.programs }
    ensures { result ≡ known.program_id meta.now program }
{
    meta.program(program).id
}

// The enrollment as it is after the write.
#[tactic(auto, unfolding(crate::specs::Enrollments::enrollment_after))]
fn enrollment_after(
    meta: &Metadata,
    names: &EnrollmentNames,
    asked: &BundleEnrollment,
) -> Option<Enrollment>
    requires program { IsBelow (length meta.now.programs) names.now.program }
    requires unit { IsBelow (length meta.now.organisation_units) names.now.unit }
    ensures { result ≡ known.enrollment_after meta.now names.now asked.now }
{
    let id = names.id?;
    let entity = names.entity?;
    let program = names.program?;
    let unit = names.unit?;
    let status = enrollment_status(&asked.status)?;
    Some(Enrollment {
        id,
        entity,
        program: program_id(meta, program),
        unit: unit_id(meta, unit),
        status,
        enrolled: day_in(&asked.enrolled),
        occurred: day_in(&asked.occurred),
    })
}

// Puts the write of the entity after that of the enrollment, if it names attributes.
#[tactic(auto, unfolding(crate::specs::Enrollments::entity_writes))]
fn put_entity(
    alloc: Global,
    writes: &mut Items<Write>,
    meta: &Metadata,
    parent: Option<&Entity>,
    pairs: &[Pair],
) -> Result<(), Memory>
    ensures { OnOk result (writes.new ≡ writes.old ++ known.entity_writes meta.now (option_copied parent.entry) pairs.now) }
{
    if pairs.len() == 0 {
        return Ok(());
    }
    match parent {
        Some(entity) => {
            let after = Entity {
                id: entity.id,
                kind: entity.kind,
                unit: entity.unit,
                attributes: merged(alloc, meta, entity.attributes.as_slice(), pairs)?,
            };
            let written = Write::entity(alloc, after)?;
            writes.push(written)?;
            Ok(())
        }
        None => Ok(()),
    }
}

fn accepted(
    alloc: Global,
    meta: &Metadata,
    live: bool,
    parent: Option<&Entity>,
    after: Option<Enrollment>,
    pairs: &[Pair],
) -> Result<Judged, Memory>
    ensures { IfOk result (λ judged. judged ≡ option_map_or
        (λ own. put live (Write.EnrollmentWritten own ∷ known.entity_writes meta.now (option_copied parent.entry) pairs.now)) after Judged.Nothing) }
{
    match after {
        Some(own) => {
            let written = Write::enrollment(alloc, own)?;
            let mut writes = only(alloc, written)?;
            put_entity(alloc, &mut writes, meta, parent, pairs)?;
            Ok(put(live, writes))
        }
        None => Ok(Judged::Nothing),
    }
}

/// What an enrollment comes to that is to be written.
#[tactic(auto, unfolding(crate::specs::Enrollments::judged_enrollment))]
pub fn judge_enrollment(
    alloc: Global,
    asking: &Asking<'_>,
    standing: Standing,
    parent: Option<&Entity>,
    asked: &BundleEnrollment,
) -> Result<Judged, Memory>
    requires who { IsKnown asking.now.meta.now asking.now.who }
    ensures { IfOk result (λ judged. judged ≡ known.judged_enrollment (facts asking.now.world.now) asking.now.meta.now asking.now.who
        asking.now.strategy standing.live standing.repeated (option_copied parent.entry) asked.now) }
{
    let names = enrollment_names(asking.meta, asked);
    match enrollment_conflict(asking, standing, parent, &names, asked) {
        Some(code) => Ok(Judged::Refused(code)),
        None => {
            let after = enrollment_after(asking.meta, &names, asked);
            accepted(
                alloc,
                asking.meta,
                standing.live,
                parent,
                after,
                asked.attributes.as_slice(),
            )
        }
    }
}
