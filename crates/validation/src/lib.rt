//! Checks of data against the validation rules: which rules the data of a data set, at a unit and
//! for a period, violate over the records that a user sees, and the body that tells it.
#![tactic(auto)]

mod asked;
mod body_text;
mod checks;
mod judge;
mod known;
mod order;
mod outcome;
mod place;
mod sides;
mod spot;

pub use body_text::body;
pub use checks::{CheckFault, run};
pub use outcome::Violation;
pub use place::Place;
