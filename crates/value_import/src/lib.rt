//! The verdict on data value sets and on completions.
#![tactic(auto)]

mod asking;
mod batch;
mod completion;
pub mod dates;
mod effect;
mod judge;
pub mod judged;
mod names;
pub mod place;
pub mod rights;
mod rules;
pub mod strategy;
mod value;
pub mod verdict;
