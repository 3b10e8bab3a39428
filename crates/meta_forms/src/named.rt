//! Fields whose texts are names of a table.

ghost use Rattle.std.specs.Prelude.{◌≡◌, ℕ, List, Option};
ghost use Rattle.meta_forms.specs.Fields.{name_of_table, name_or_other};

use crate::part::Part;
use dh_base::plain::{AggType, Strategy};
use dh_metadata::names::{
    AnalyticsType, Operator, ProgramType, ValueType, aggregation_named, analytics_type_named,
    operator_named, program_type_named, strategy_named, value_type_named,
};
use dh_periods::PeriodType;
use dh_sharing::access::Access;
use json::Value;
use json_read::fault::FormFault;
use json_read::look::text;
use json_read::path::here;
use std::alloc::Global;
use std::marker::PhantomData;

/// A value that a file writes as a name of a table.
pub trait Named: Sized + Drop {
    /// The value of that name, where the table has it.
    ghost meaning: { List ℕ → Option Self };

    /// The value of that name, or `None` where the table has no such name.
    fn of_name(name: &[u8]) -> Option<Self>
        ensures { result ≡ meaning name.now };
}

impl Named for ValueType {
    ghost use Rattle.dh_metadata.specs.Names.{value_type_named};

    ghost meaning = { value_type_named };

    fn of_name(name: &[u8]) -> Option<ValueType> {
        value_type_named(name)
    }
}

impl Named for AggType {
    ghost use Rattle.dh_metadata.specs.Names.{aggregation_named};

    ghost meaning = { aggregation_named };

    fn of_name(name: &[u8]) -> Option<AggType> {
        aggregation_named(name)
    }
}

impl Named for Strategy {
    ghost use Rattle.dh_metadata.specs.Names.{strategy_named};

    ghost meaning = { strategy_named };

    fn of_name(name: &[u8]) -> Option<Strategy> {
        strategy_named(name)
    }
}

impl Named for Operator {
    ghost use Rattle.dh_metadata.specs.Names.{operator_named};

    ghost meaning = { operator_named };

    fn of_name(name: &[u8]) -> Option<Operator> {
        operator_named(name)
    }
}

impl Named for ProgramType {
    ghost use Rattle.dh_metadata.specs.Names.{program_type_named};

    ghost meaning = { program_type_named };

    fn of_name(name: &[u8]) -> Option<ProgramType> {
        program_type_named(name)
    }
}

impl Named for AnalyticsType {
    ghost use Rattle.dh_metadata.specs.Names.{analytics_type_named};

    ghost meaning = { analytics_type_named };

    fn of_name(name: &[u8]) -> Option<AnalyticsType> {
        analytics_type_named(name)
    }
}

impl Named for PeriodType {
    ghost use Rattle.dh_periods.specs.Types.{type_named};

    ghost meaning = { type_named };

    fn of_name(name: &[u8]) -> Option<PeriodType> {
        PeriodType::parse(name)
    }
}

impl Named for Access {
    ghost use Rattle.dh_sharing.specs.Access.{access_of};

    ghost meaning = { access_of };

    fn of_name(name: &[u8]) -> Option<Access> {
        Access::parse(name)
    }
}

/// A text that is a name of a table.
#[derive(Drop)]
pub struct Name<T>(pub PhantomData<T>);

impl<T: Named> Part for Name<T> {
    type Read = T;

    ghost form = { λ _. name_of_table T.meaning };

    fn read(&self, alloc: Global, value: &Value<'_>) -> Result<T, FormFault> {
        if let Some(name) = text(value) {
            if let Some(found) = T::of_name(name.as_bytes()) {
                return Ok(found);
            }
        }
        Err(here(alloc))
    }
}

/// A text that is a name of a table; one that the table doesn't have means this.
#[derive(Drop)]
pub struct NameOr<T>(pub T);

impl<T: Named + Copy> Part for NameOr<T> {
    type Read = T;

    ghost form = { λ name. name_or_other T.meaning name.0 };

    fn read(&self, alloc: Global, value: &Value<'_>) -> Result<T, FormFault> {
        match text(value) {
            Some(name) => match T::of_name(name.as_bytes()) {
                Some(found) => Ok(found),
                None => Ok(self.0),
            },
            None => Err(here(alloc)),
        }
    }
}
