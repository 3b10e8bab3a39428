//! References to objects, and whole numbers.

ghost use Rattle.std.specs.Prelude.{codes};
ghost use Rattle.dh_metadata.specs.BuiltIn.{default_combo};
ghost use Rattle.meta_forms.specs.Fields.{reference_at, reference_or_at, optional_reference_at, whole_of};

use crate::entries::Entry;
use crate::part::Part;
use dh_base::uid::Uid;
use dh_metadata::built_in::default_combo;
use json::Value;
use json_read::fault::FormFault;
use json_read::form::{field, field_or, optional};
use json_read::look::integer;
use json_read::path::here;
use json_read::reference::Reference;
use std::alloc::Global;

/// A reference that has to be there.
#[derive(Drop)]
pub struct ReferenceAt<'a>(pub &'a str);

impl<'a> Part for ReferenceAt<'a> {
    type Read = Uid;

    ghost form = { λ field. reference_at field.0.now };

    #[tactic(auto, unfolding(crate::specs::Fields::reference_at))]
    fn read(&self, alloc: Global, value: &Value<'_>) -> Result<Uid, FormFault> {
        let found: Reference = field(alloc, value, self.0)?;
        Ok(found.id)
    }
}

/// The category combination of an object, by default the built-in one.
#[derive(Drop)]
pub struct ComboOrDefault {}

impl Part for ComboOrDefault {
    type Read = Uid;

    ghost form = { λ _. reference_or_at (codes "categoryCombo") default_combo };

    #[tactic(auto, unfolding(crate::specs::Fields::reference_or_at))]
    fn read(&self, alloc: Global, value: &Value<'_>) -> Result<Uid, FormFault> {
        let default = Reference {
            id: default_combo(),
        };
        let found: Reference = field_or(alloc, value, "categoryCombo", default)?;
        Ok(found.id)
    }
}

/// A reference that may be absent.
#[derive(Drop)]
pub struct OptionalReference<'a>(pub &'a str);

impl<'a> Part for OptionalReference<'a> {
    type Read = Option<Uid>;

    ghost form = { λ field. optional_reference_at field.0.now };

    #[tactic(auto, unfolding(crate::specs::Fields::optional_reference_at))]
    fn read(&self, alloc: Global, value: &Value<'_>) -> Result<Option<Uid>, FormFault> {
        let found: Option<Reference> = optional(alloc, value, self.0)?;
        match found {
            Some(reference) => Ok(Some(reference.id)),
            None => Ok(None),
        }
    }
}

impl Entry for Reference {
    type Held = Uid;

    ghost held = { λ reference. reference.id };

    fn into_held(self) -> Uid {
        self.id
    }
}

/// A whole number from the first to the second.
#[derive(Drop)]
pub struct Whole(pub i64, pub i64);

impl Part for Whole {
    type Read = i64;

    ghost form = { λ bounds. whole_of bounds.0 bounds.1 };

    #[tactic(auto, unfolding(crate::specs::Fields::whole_within))]
    fn read(&self, alloc: Global, value: &Value<'_>) -> Result<i64, FormFault> {
        if let Some(number) = integer(value) {
            if self.0 <= number && number <= self.1 {
                return Ok(number);
            }
        }
        Err(here(alloc))
    }
}
