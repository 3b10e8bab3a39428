//! The rows of events.
ghost use Rattle.std.specs.Prelude.{◌≡◌, ◌<◌, length, IfOk, IfSome};
ghost use Rattle.std.specs.Option.{option_copied};
ghost use Rattle.std.specs.List.{filter_map};
ghost use Rattle.dh_changes.specs.World.{facts};
ghost use Rattle.table_build.specs.Events as known;

use crate::items::{Attributes, Elements, values_of};
use crate::lists::put_found;
use dh_base::items::Items;
use dh_base::memory::Memory;
use dh_base::uid::Uid;
use dh_changes::tracker::{Enrollment, Entity, Event};
use dh_changes::world::World;
use dh_metadata::kind::Kind;
use dh_metadata::metadata::Metadata;
use dh_records::access::tree_of;
use std::alloc::Global;
use std::collections::BTreeMap;
use table_rows::{EventRow, ItemValue};

/// The numbers of the objects that an event names.
#[derive(Clone, Copy)]
pub struct EventObjects {
    pub program: u32,
    pub stage: u32,
    pub unit: u32,
}

/// What events are ordered by, field by field.
#[derive(Clone, Copy, PartialEq, Eq, PartialOrd, Ord)]
pub struct EventPlace {
    /// The day on which it occurred.
    pub day: i32,
    pub id: Uid,
}

#[tactic(auto, unfolding(crate::specs::Events::place_of))]
pub(crate) fn place_of(world: &World, id: Uid) -> Option<EventPlace>
    ensures { result ≡ known.place_of (facts world.now) id }
{
    let event = world.event(id)?;
    let day = event.occurred?;
    Some(EventPlace { day, id })
}

/// The places of these events, by day and identifier: of those that are live and have a day of occurrence.
#[tactic(auto, unfolding(crate::specs::Events::places_of))]
pub(crate) fn places_of(
    alloc: Global,
    world: &World,
    ids: &[Uid],
) -> Result<Vec<EventPlace>, Memory>
    ensures { IfOk result (λ places. places.items ≡ known.places_of (facts world.now) ids.now) }
{
    let mut map = BTreeMap::new(alloc);
    for id in ids {
        if let Some(place) = place_of(world, *id) {
            map.insert(place, place)?;
        }
    }
    Ok(map.into_values().collect(alloc)?)
}

#[tactic(auto, unfolding(crate::specs::Events::objects_of))]
pub(crate) fn objects_of(meta: &Metadata, event: &Event) -> Option<EventObjects>
    ensures value { result ≡ known.objects_of meta.now event.now }
    ensures in_range { IfSome result (λ objects. objects.unit < length meta.now.organisation_units) }
{
    let program = meta.find(Kind::Program, event.program)?;
    let stage = meta.find(Kind::ProgramStage, event.stage)?;
    let unit = meta.find(Kind::OrganisationUnit, event.unit)?;
    Some(EventObjects {
        program,
        stage,
        unit,
    })
}

#[tactic(auto, unfolding(crate::specs::Events::enrollment_of))]
fn enrollment_of<'a>(world: &'a World, event: &Event) -> Option<&'a Enrollment>
    ensures { option_copied result ≡ known.enrollment_of (facts world.now) event.now }
{
    world.enrollment(event.enrollment?)
}

#[tactic(auto, unfolding(crate::specs::Events::entity_of))]
fn entity_of<'a>(world: &'a World, event: &Event) -> Option<&'a Entity>
    ensures { option_copied result ≡ known.entity_of (facts world.now) event.now }
{
    let enrollment = enrollment_of(world, event)?;
    world.entity(enrollment.entity)
}

#[tactic(auto, unfolding(crate::specs::Events::entity_id))]
fn entity_id(found: Option<&Entity>) -> Option<Uid>
    ensures { result ≡ known.entity_id (option_copied found.entry) }
{
    match found {
        Some(entity) => Some(entity.id),
        None => None,
    }
}

#[tactic(auto, unfolding(crate::specs::Events::enrolled_day))]
fn enrolled_day(found: Option<&Enrollment>) -> Option<i32>
    ensures { result ≡ known.enrolled_day (option_copied found.entry) }
{
    found?.enrolled
}

#[tactic(auto, unfolding(crate::specs::Events::entity_values, crate::specs::Items::attribute_values))]
fn entity_values(
    alloc: Global,
    meta: &Metadata,
    found: Option<&Entity>,
) -> Result<Items<(u32, ItemValue)>, Memory>
    ensures { IfOk result (λ values. values ≡ known.entity_values meta.now (option_copied found.entry)) }
{
    match found {
        Some(entity) => values_of::<Attributes>(alloc, meta, entity.attributes.as_slice()),
        None => Ok(Items::new(alloc)),
    }
}

#[tactic(auto, unfolding(crate::specs::Events::event_at, crate::specs::Events::event_with, crate::specs::Items::element_values))]
fn event_at(
    alloc: Global,
    meta: &Metadata,
    world: &World,
    place: EventPlace,
) -> Result<Option<EventRow>, Memory>
    ensures { IfOk result (λ row. row ≡ known.event_at meta.now (facts world.now) place) }
{
    let Some(event) = world.event(place.id) else {
        return Ok(None);
    };
    let Some(objects) = objects_of(meta, event) else {
        return Ok(None);
    };
    let entity = entity_of(world, event);
    let values = values_of::<Elements>(alloc, meta, event.values.as_slice())?;
    let attributes = entity_values(alloc, meta, entity)?;
    Ok(Some(EventRow {
        id: place.id,
        enrollment: event.enrollment,
        entity: entity_id(entity),
        program: objects.program,
        stage: objects.stage,
        order: tree_of(world, meta).order(objects.unit),
        day: place.day,
        enrolled: enrolled_day(enrollment_of(world, event)),
        values,
        attributes,
    }))
}

/// The rows of events at these places, in their order: of those that name objects that stand in the metadata.
pub(crate) fn rows_at(
    alloc: Global,
    meta: &Metadata,
    world: &World,
    places: &[EventPlace],
) -> Result<Vec<EventRow>, Memory>
    ensures { IfOk result (λ rows. rows.items ≡ filter_map (known.event_at meta.now (facts world.now)) places.now) }
{
    let mut rows = Vec::new(alloc);
    for place in places {
        let row = event_at(alloc, meta, world, *place)?;
        put_found(&mut rows, row)?;
    }
    Ok(rows)
}

/// The rows of these events, by day and identifier: of those that are live, have a day of occurrence
/// and name objects that stand in the metadata.
#[tactic(auto, unfolding(crate::specs::Events::events_of))]
pub fn events_of(
    alloc: Global,
    meta: &Metadata,
    world: &World,
    ids: &[Uid],
) -> Result<Vec<EventRow>, Memory>
    ensures { IfOk result (λ events. events.items ≡ known.events_of meta.now (facts world.now) ids.now) }
{
    let places = places_of(alloc, world, ids)?;
    rows_at(alloc, meta, world, &places)
}
