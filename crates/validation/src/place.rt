//! What is checked.

use dh_periods::Period;

/// What is checked: the data of a data set, for a period and at a unit. The data set and the unit
/// are told by number.
#[derive(Clone, Copy)]
pub struct Place {
    pub set: u32,
    pub period: Period,
    pub unit: u32,
}
