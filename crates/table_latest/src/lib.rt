//! A latest part of the tables: the keys that changes touched, with what they hold now; and tables under such a part as one
//! store of rows. Which keys changes touch is said where a latest part is built.
#![tactic(auto)]

mod gaps;
mod groups;
mod held;
mod kept;
mod latest;
mod lent;
mod merged;
mod overlay;
mod places;
mod replaced;
mod search;

pub use latest::{Latest, TouchedKeys};
pub use overlay::Overlay;
pub use places::{RegPlace, RowPlace, place_of, reg_place_of};
