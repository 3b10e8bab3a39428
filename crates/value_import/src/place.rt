//! Where data values and completions belong.

use dh_periods::Period;

/// An organisation unit, a period, a data set for periods of its type, and an option combination of
/// the set's category combination, each object by its number.
#[derive(Clone, Copy)]
pub struct Place {
    pub unit: u32,
    pub period: Period,
    pub set: u32,
    /// The attribute option combination.
    pub attribute: u32,
}

/// A data element with an option combination of its category combination, and where they stand.
#[derive(Clone, Copy)]
pub struct ValuePlace {
    pub element: u32,
    /// The category option combination.
    pub combo: u32,
    pub at: Place,
}

/// What the texts of a data value name. An object that isn't there is `None`.
#[derive(Clone, Copy)]
pub struct ValueNames {
    pub element: Option<u32>,
    pub unit: Option<u32>,
    pub period: Option<Period>,
    /// Whether there is a data set to which the value may belong, whatever the period.
    pub has_candidate: bool,
    pub set: Option<u32>,
    pub combo: Option<u32>,
    pub attribute: Option<u32>,
}

/// What the texts of a completion name. An object that isn't there is `None`.
#[derive(Clone, Copy)]
pub struct RegNames {
    pub unit: Option<u32>,
    pub period: Option<Period>,
    /// Whether there is the data set, whatever the period.
    pub is_set: bool,
    pub set: Option<u32>,
    pub attribute: Option<u32>,
}
