//! The engine that threads share: one lock, under which the machine stands where one legal history leaves it, two words beside it (how
//! many entries the history has, and the number that was given out last), and the workers that build an update's years outside of it.
//!
//! What a call did is said by its caller's pass: the history as the call left it, and the caller's own entries in it. The history is
//! data of proofs alone: who holds the lock has the one seat that knows it whole, and each caller has a token. Each worker takes the
//! next year from a shared list until none is left; a year whose building found no memory has no part.
#![tactic(auto)]

mod builds;
mod gate;
mod laws;
mod locked;
mod names;
mod notes;
pub mod seat_steps;
mod shared;
mod steps;
pub mod table;
pub mod views;
mod work;

pub use builds::build_all;
pub use gate::{Gate, Meeting, OpenGate};
pub use laws::{
    looks_are_current, looks_show_the_last_swap, published_never_falls, unseen_changes_nothing,
    updates_stay_begun,
};
pub use names::{Item, Naming};
pub use shared::{Callers, Opened, Pass, Shared, open};
pub use table::{FirstToken, HistoryTable, LockSeat, Token};
pub use views::{EntryName, Recorded};
pub use work::{Builder, build_each};
