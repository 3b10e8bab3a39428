//! What is read of a value: its fields one after the other, each under its key and in its form.

ghost use Rattle.std.specs.Prelude.{ℕ, List, Result};
ghost use Rattle.serde_json.specs.Data.{Data};
ghost use Rattle.json_read.specs.Views.{data_of};
ghost use Rattle.json_read.specs.Forms.{field_of, field_or_of, optional_of};
ghost use Rattle.json_read.specs.Given.{Gives};
ghost use Rattle.meta_forms.specs.Both.{◌⊗◌};

use json::Value;
use json_read::fault::FormFault;
use json_read::form::ReadJson;
use json_read::look::member;
use json_read::path::{at_key, seen_from};
use std::alloc::Global;
use std::marker::PhantomData;

/// Something that is read of a value.
pub trait Part {
    /// It as it is read.
    type Read;

    /// What it stands for, or the path of the first fault in it.
    ghost form: { Self → Data → Result Self.Read (List ℕ) };

    /// Reads it.
    fn read(&self, alloc: Global, value: &Value<'_>) -> Result<Self::Read, FormFault>
        ensures { Gives (form self.now (data_of value.now)) result };
}

/// One after the other, up to the first that has a fault. A caller that reads several so holds nothing
/// while it may have to return early.
impl<A: Part, B: Part> Part for (A, B)
where
    A::Read: Drop,
{
    type Read = (A::Read, B::Read);

    ghost form = { λ pair json. A.form pair.0 json ⊗ B.form pair.1 json };

    fn read(&self, alloc: Global, value: &Value<'_>) -> Result<(A::Read, B::Read), FormFault> {
        let first = self.0.read(alloc, value)?;
        let second = self.1.read(alloc, value)?;
        Ok((first, second))
    }
}

/// The value itself, in the form of its type.
#[derive(Drop)]
pub struct Json<T>(pub PhantomData<T>);

impl<T: ReadJson> Part for Json<T> {
    type Read = T;

    ghost form = { λ _. T.form };

    fn read(&self, alloc: Global, value: &Value<'_>) -> Result<T, FormFault> {
        T::read(alloc, value)
    }
}

/// A field that has to be there.
#[derive(Drop)]
pub struct Field<'a, F>(pub &'a str, pub F);

impl<'a, F: Part> Part for Field<'a, F> {
    type Read = F::Read;

    ghost form = { λ field. field_of field.0.now (F.form field.1) };

    fn read(&self, alloc: Global, value: &Value<'_>) -> Result<F::Read, FormFault> {
        match member(value, self.0) {
            Some(found) => match self.1.read(alloc, found) {
                Ok(read) => Ok(read),
                Err(fault) => Err(seen_from(alloc, self.0.as_bytes(), fault)),
            },
            None => Err(at_key(alloc, self.0)),
        }
    }
}

/// A field that has a default.
#[derive(Drop)]
pub struct FieldOr<'a, F, T>(pub &'a str, pub F, pub T);

impl<'a, F: Part> Part for FieldOr<'a, F, F::Read>
where
    F::Read: Copy,
{
    type Read = F::Read;

    ghost form = { λ field. field_or_of field.0.now (F.form field.1) field.2 };

    fn read(&self, alloc: Global, value: &Value<'_>) -> Result<F::Read, FormFault> {
        match member(value, self.0) {
            Some(found) => match self.1.read(alloc, found) {
                Ok(read) => Ok(read),
                Err(fault) => Err(seen_from(alloc, self.0.as_bytes(), fault)),
            },
            None => Ok(self.2),
        }
    }
}

/// A field that may be absent.
#[derive(Drop)]
pub struct OptionalField<'a, F>(pub &'a str, pub F);

impl<'a, F: Part> Part for OptionalField<'a, F> {
    type Read = Option<F::Read>;

    ghost form = { λ field. optional_of field.0.now (F.form field.1) };

    fn read(&self, alloc: Global, value: &Value<'_>) -> Result<Option<F::Read>, FormFault> {
        match member(value, self.0) {
            Some(found) => match self.1.read(alloc, found) {
                Ok(read) => Ok(Some(read)),
                Err(fault) => Err(seen_from(alloc, self.0.as_bytes(), fault)),
            },
            None => Ok(None),
        }
    }
}
