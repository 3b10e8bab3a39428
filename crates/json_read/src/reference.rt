//! A reference to another object, as JSON writes it.

ghost use Rattle.json_read.specs.Given.{Gives};

use crate::fault::FormFault;
use crate::form::{ReadJson, field, require_object};
use dh_base::uid::Uid;
use json::Value;
use std::alloc::Global;

/// A reference to another object, as `{"id":"OuCountry01"}`.
#[derive(Drop)]
pub struct Reference {
    pub id: Uid,
}

impl ReadJson for Reference {
    ghost use Rattle.json_read.specs.Reference.{reference_of};

    ghost form = { reference_of };

    fn read(alloc: Global, value: &Value<'_>) -> Result<Reference, FormFault> {
        require_object(alloc, value)?;
        Ok(Reference {
            id: field(alloc, value, "id")?,
        })
    }
}
