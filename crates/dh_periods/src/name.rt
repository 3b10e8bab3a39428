//! What the text of a period says.
use crate::kind::PeriodType;

/// What the text of a period says: its type, the year, and which of that year's periods it is.
#[derive(Clone, Copy, PartialEq, Eq, PartialOrd, Ord, Hash)]
pub struct PeriodName {
    pub kind: PeriodType,
    /// The year that is written, of a week the year of its Thursday.
    pub year: u16,
    /// The number in the year, from 1; of a day its month.
    pub number: u8,
    /// The day of the month, from 1; of every other type 1.
    pub day: u8,
}
