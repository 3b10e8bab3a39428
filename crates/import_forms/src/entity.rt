//! Tracked entities, with the enrollments that stand in them.

ghost use Rattle.std.specs.Prelude.{◌≡◌, ◌++◌, [], IfOk, OnOk, map};
ghost use Rattle.std.specs.List.{flat_map};
ghost use Rattle.json_read.specs.Views.{data_of};
ghost use Rattle.json_read.specs.Given.{Gives};
ghost use Rattle.import_forms.specs.Entities.{entity_of, whole_entity, entity_parts};

use crate::both::both;
use crate::enrollment::{EnrollmentForm, fill_in};
use crate::lists::{Inner, all_inside, append, list_at};
use crate::pair::{Pair, attributes_of};
use crate::text::text_in;
use dh_base::items::Items;
use dh_base::memory::Memory;
use json::Value;
use json_read::fault::FormFault;
use json_read::form::{ReadJson, require_object};
use std::alloc::{AllocError, Global};

/// A tracked entity, as it stands in the body.
#[derive(Drop)]
pub struct BundleEntity {
    pub id: Option<Items<u8>>,
    /// The tracked entity type.
    pub kind: Option<Items<u8>>,
    /// The organisation unit.
    pub unit: Option<Items<u8>>,
    pub attributes: Items<Pair>,
}

/// A tracked entity with the enrollments that stand in it.
#[derive(Drop)]
pub struct EntityForm {
    pub own: BundleEntity,
    pub enrollments: Items<EnrollmentForm>,
}

// The entity without its attributes.
#[tactic(auto, unfolding(crate::specs::Entities::entity_of))]
fn entity_of(alloc: Global, value: &Value<'_>) -> Result<BundleEntity, AllocError>
    ensures { IfOk result (λ own. own ≡ entity_of [] (data_of value.now)) }
{
    let ids = both(
        text_in(alloc, value, "trackedEntity"),
        text_in(alloc, value, "trackedEntityType"),
    );
    let ((id, kind), unit) = both(ids, text_in(alloc, value, "orgUnit"))?;
    Ok(BundleEntity {
        id,
        kind,
        unit,
        attributes: Items::new(alloc),
    })
}

// The entity with its attributes.
#[tactic(auto, unfolding(crate::specs::Entities::whole_entity, crate::specs::Entities::entity_of))]
fn whole_entity(alloc: Global, value: &Value<'_>) -> Result<BundleEntity, FormFault>
    ensures { Gives (whole_entity (data_of value.now)) result }
{
    let attributes = attributes_of(alloc, value)?;
    let mut own = entity_of(alloc, value)?;
    own.attributes = attributes;
    Ok(own)
}

impl Inner for EnrollmentForm {
    ghost use Rattle.import_forms.specs.Entities.{in_entity};

    ghost inside = { in_entity };

    fn put_inside(
        alloc: Global,
        id: &Option<Items<u8>>,
        object: EnrollmentForm,
    ) -> Result<EnrollmentForm, AllocError> {
        let mut form = object;
        match fill_in(alloc, &mut form.own.entity, id) {
            Ok(()) => Ok(form),
            Err(fault) => {
                drop(form);
                Err(fault)
            }
        }
    }
}

// The enrollments that stand in an entity, and the entity.
fn entity_parts(
    alloc: Global,
    value: &Value<'_>,
) -> Result<(Items<EnrollmentForm>, BundleEntity), FormFault>
    ensures { Gives (entity_parts (data_of value.now)) result }
{
    both(
        list_at(alloc, value, "enrollments"),
        whole_entity(alloc, value),
    )
}

impl ReadJson for EntityForm {
    ghost use Rattle.import_forms.specs.Entities.{entity_form};

    ghost form = { entity_form };

    #[tactic(auto, unfolding(crate::specs::Entities::entity_form))]
    fn read(alloc: Global, value: &Value<'_>) -> Result<EntityForm, FormFault> {
        require_object(alloc, value)?;
        let (enrollments, own) = entity_parts(alloc, value)?;
        match all_inside(alloc, &own.id, enrollments) {
            Ok(enrollments) => Ok(EntityForm { own, enrollments }),
            Err(_) => {
                drop(own);
                Err(FormFault::Memory)
            }
        }
    }
}

/// Puts entities at the end of a list, and the enrollments that stand in them at the end of another.
pub(crate) fn put_entities(
    forms: Items<EntityForm>,
    entities: &mut Items<BundleEntity>,
    enrollments: &mut Items<EnrollmentForm>,
) -> Result<(), Memory>
    ensures own { OnOk result (entities.new ≡ entities.old ++ map (λ form. form.own) forms) }
    ensures enrollments { OnOk result (enrollments.new ≡ enrollments.old ++ flat_map (λ form. form.enrollments) forms) }
{
    for form in forms.items {
        let EntityForm {
            own,
            enrollments: inner,
        } = form;
        entities.push(own)?;
        append(enrollments, inner)?;
    }
    Ok(())
}
