//! Periods of a health reporting system: days, weeks, months and longer, each written as a short text.
#![tactic(auto)]

mod dates;
mod days;
mod kind;
mod moment;
mod name;
mod period;
mod places;
mod print;
mod read;
mod windows;

pub use dates::civil;
pub use kind::PeriodType;
pub use moment::day_of;
pub use name::PeriodName;
pub use period::{Period, containing};
pub use windows::relative;
