//! The rows, registrations and events that a list of changes leaves, as tables by year.
#![tactic(auto)]

pub mod by_year;
pub mod events;
mod in_year;
mod items;
mod left;
pub mod lists;
pub mod named;
mod others;
mod placed;
pub mod reading;
pub mod regs;
pub mod slots;
pub mod values;
mod world;
mod years;
