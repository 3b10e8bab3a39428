//! Program indicators in the form that is evaluated.

use crate::code::Postfix;
use dh_base::items::Items;
use dh_base::memory::Memory;
use dh_base::plain::AggType;

/// A program indicator, with a number for each object that it names.
#[derive(Drop)]
pub struct PiCode {
    /// The number of the program.
    pub program: u32,
    pub value: PiValue,
    /// One entry for each item of the value's postfix form.
    pub value_items: Items<PiItem>,
    /// The filter, if there is one.
    pub filter: Option<Postfix>,
    /// One entry for each item of the filter's postfix form.
    pub filter_items: Items<PiItem>,
    /// How the values of the events are made into one.
    pub aggregation: AggType,
}

/// What a program indicator takes of each event.
#[derive(Drop)]
pub enum PiValue {
    Formula(Postfix),
    /// The number of different events.
    Events,
    /// The number of different enrollments.
    Enrollments,
    /// The number of different tracked entities.
    Entities,
}

/// An item of a program indicator.
#[derive(Clone, Copy)]
pub enum PiItem {
    /// A constant in millionths.
    Constant(i64),
    /// A data element of a program stage.
    Element { stage: u32, element: u32 },
    /// A tracked entity attribute.
    Attribute(u32),
    EventDate,
    EnrollmentDate,
    /// What no event has, as an item that names no object.
    Nothing,
}

/// Why a program indicator has no value.
#[derive(Clone, Copy)]
pub enum PiFault {
    /// A number on the way is too wide to be computed.
    Wide,
    Memory,
}

impl From<Memory> for PiFault {
    ghost use Rattle.std.specs.Prelude.{◌≡◌};
    ghost use Rattle.expr_eval.specs.declared.indicator.PiFault.TheVariants as faults;

    ghost from_gives = { λ _ fault. fault ≡ faults.Memory };

    fn from(_error: Memory) -> PiFault {
        PiFault::Memory
    }
}
