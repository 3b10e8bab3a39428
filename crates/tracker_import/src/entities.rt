//! How tracked entities are judged.

ghost use Rattle.std.specs.Prelude.{◌≡◌, ◌<◌, ◌∷◌, [], length, is_some, IfOk};
ghost use Rattle.std.specs.Option.{option_copied, option_map_or};
ghost use Rattle.dh_metadata.specs.Linked.{IsBelow};
ghost use Rattle.dh_changes.specs.World.{facts};
ghost use Rattle.value_import.specs.Outcomes.{IsKnown};
ghost use Rattle.value_import.specs.Rules.{first_of};
ghost use Rattle.value_import.specs.Values as values;
ghost use Rattle.tracker_import.specs.Entities as known;
ghost use Rattle.tracker_import.specs.Rules.{put};

use crate::asking::Asking;
use crate::items::{id_in, object_named};
use crate::judged::Judged;
use crate::names::EntityNames;
use crate::pairs::{ItemKind, has_unfit, has_unknown, merged};
use crate::rights::right_condition;
use crate::standing::standing_condition;
use dh_base::codes::Code;
use dh_base::items::Items;
use dh_base::memory::Memory;
use dh_base::uid::Uid;
use dh_changes::change::Write;
use dh_changes::tracker::Entity;
use dh_metadata::kind::Kind;
use dh_metadata::metadata::Metadata;
use import_forms::entity::BundleEntity;
use import_forms::pair::Pair;
use std::alloc::Global;

#[tactic(auto, unfolding(crate::specs::Entities::entity_names))]
fn entity_names(meta: &Metadata, asked: &BundleEntity) -> EntityNames
    ensures value { result ≡ known.entity_names meta.now asked.now }
    ensures kind { IsBelow (length meta.now.tracked_entity_types) result.kind }
    ensures unit { IsBelow (length meta.now.organisation_units) result.unit }
{
    EntityNames {
        id: id_in(&asked.id),
        kind: object_named(meta, Kind::TrackedEntityType, &asked.kind),
        unit: object_named(meta, Kind::OrganisationUnit, &asked.unit),
    }
}

#[tactic(auto, unfolding(crate::specs::Entities::entity_name_conditions))]
fn name_condition(meta: &Metadata, names: &EntityNames, pairs: &[Pair]) -> Option<Code>
    ensures { result ≡ first_of (known.entity_name_conditions meta.now names.now pairs.now) }
{
    if names.id.is_none() {
        return Some(Code::T1);
    }
    if names.kind.is_none() || has_unknown(meta, ItemKind::Attribute, pairs) {
        return Some(Code::T2);
    }
    if names.unit.is_none() {
        return Some(Code::T3);
    }
    None
}

/// Whether an object is there, and whether one of its identifier was judged before.
#[derive(Clone, Copy)]
pub struct Standing {
    pub live: bool,
    pub repeated: bool,
}

#[tactic(auto, unfolding(crate::specs::Entities::entity_conflict, crate::specs::Entities::entity_value_conditions))]
fn entity_conflict(
    asking: &Asking<'_>,
    standing: Standing,
    names: &EntityNames,
    pairs: &[Pair],
) -> Option<Code>
    requires who { IsKnown asking.now.meta.now asking.now.who }
    requires kind { IsBelow (length asking.now.meta.now.tracked_entity_types) names.now.kind }
    requires unit { IsBelow (length asking.now.meta.now.organisation_units) names.now.unit }
    ensures { result ≡ known.entity_conflict (facts asking.now.world.now) asking.now.meta.now asking.now.who asking.now.strategy
        standing.live standing.repeated names.now pairs.now }
{
    if let Some(code) = name_condition(asking.meta, names, pairs) {
        return Some(code);
    }
    if let Some(code) = right_condition(asking, names.unit, Kind::TrackedEntityType, names.kind) {
        return Some(code);
    }
    if has_unfit(asking.meta, ItemKind::Attribute, pairs) {
        return Some(Code::T11);
    }
    standing_condition(asking.strategy, standing.live, standing.repeated)
}

#[tactic(auto, unfolding(crate::specs::Entities::type_id))]
pub fn type_id(meta: &Metadata, kind: u32) -> Uid
    requires { kind < length meta.now.tracked_entity_types }
    ensures { result ≡ known.type_id meta.now kind }
{
    meta.entity_type(kind).id
}

#[tactic(auto, unfolding(value_import::specs::Values::unit_id))]
pub fn unit_id(meta: &Metadata, unit: u32) -> Uid
    requires { unit < length meta.now.organisation_units }
    ensures { result ≡ values.unit_id meta.now unit }
{
    meta.unit(unit).id
}

fn attributes_of(entity: Option<&Entity>) -> &[(Uid, Items<u8>)]
    ensures { result.now ≡ known.attributes_of (option_copied entity.entry) }
{
    match entity {
        Some(entity) => entity.attributes.as_slice(),
        None => &[],
    }
}

/// The entity as it is after the write.
#[tactic(auto, unfolding(crate::specs::Entities::entity_after))]
fn entity_after(
    alloc: Global,
    meta: &Metadata,
    before: Option<&Entity>,
    names: &EntityNames,
    pairs: &[Pair],
) -> Result<Option<Entity>, Memory>
    requires kind { IsBelow (length meta.now.tracked_entity_types) names.now.kind }
    requires unit { IsBelow (length meta.now.organisation_units) names.now.unit }
    ensures { IfOk result (λ after. after ≡ known.entity_after meta.now (option_copied before.entry) names.now pairs.now) }
{
    let Some(id) = names.id else {
        return Ok(None);
    };
    let Some(kind) = names.kind else {
        return Ok(None);
    };
    let Some(unit) = names.unit else {
        return Ok(None);
    };
    Ok(Some(Entity {
        id,
        kind: type_id(meta, kind),
        unit: unit_id(meta, unit),
        attributes: merged(alloc, meta, attributes_of(before), pairs)?,
    }))
}

/// A list of one write.
pub fn only(alloc: Global, write: Write) -> Result<Items<Write>, Memory>
    ensures { IfOk result (λ list. list ≡ write ∷ []) }
{
    let mut list = Items::new(alloc);
    list.push(write)?;
    Ok(list)
}

/// What an object without a conflict comes to, with these writes.
pub fn put(live: bool, writes: Items<Write>) -> Judged
    ensures { result ≡ put live writes }
{
    if live {
        Judged::Updated(writes)
    } else {
        Judged::Created(writes)
    }
}

fn accepted(
    alloc: Global,
    meta: &Metadata,
    before: Option<&Entity>,
    names: &EntityNames,
    pairs: &[Pair],
) -> Result<Judged, Memory>
    requires kind { IsBelow (length meta.now.tracked_entity_types) names.now.kind }
    requires unit { IsBelow (length meta.now.organisation_units) names.now.unit }
    ensures { IfOk result (λ judged. judged ≡ option_map_or (λ after. put (is_some (option_copied before.entry)) (Write.EntityWritten after ∷ []))
        (known.entity_after meta.now (option_copied before.entry) names.now pairs.now) Judged.Nothing) }
{
    match entity_after(alloc, meta, before, names, pairs)? {
        Some(after) => {
            let written = Write::entity(alloc, after)?;
            let writes = only(alloc, written)?;
            Ok(put(before.is_some(), writes))
        }
        None => Ok(Judged::Nothing),
    }
}

/// What an entity comes to that is to be written.
#[tactic(auto, unfolding(crate::specs::Entities::judged_entity))]
pub fn judge_entity(
    alloc: Global,
    asking: &Asking<'_>,
    before: Option<&Entity>,
    repeated: bool,
    asked: &BundleEntity,
) -> Result<Judged, Memory>
    requires who { IsKnown asking.now.meta.now asking.now.who }
    ensures { IfOk result (λ judged. judged ≡ known.judged_entity (facts asking.now.world.now) asking.now.meta.now asking.now.who asking.now.strategy
        (option_copied before.entry) repeated asked.now) }
{
    let names = entity_names(asking.meta, asked);
    let live = before.is_some();
    let pairs = asked.attributes.as_slice();
    match entity_conflict(asking, Standing { live, repeated }, &names, pairs) {
        Some(code) => Ok(Judged::Refused(code)),
        None => accepted(alloc, asking.meta, before, &names, pairs),
    }
}
