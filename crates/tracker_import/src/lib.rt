//! The verdict on tracker bundles: each object is judged by the rules of its kind, and by what holds after the log and the writes
//! accepted before it.
#![tactic(auto)]

pub mod asking;
mod batch;
mod dates;
mod deletes;
pub mod enrollments;
pub mod entities;
pub mod events;
pub mod items;
pub mod judged;
pub mod names;
mod object;
pub mod pairs;
pub mod places;
pub mod rights;
pub mod standing;
mod statuses;
pub mod verdict;
