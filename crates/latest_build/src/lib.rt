//! The latest part of a log: of the keys that changes touch, what each holds after them. Tables of the first changes under it
//! stand for the whole log.
#![tactic(auto)]

mod after;
mod approvals;
mod build;
mod decided;
mod found;
mod held;
mod named;
mod over;
mod touched;
mod tracker;

pub use after::build_latest;
pub use build::latest_of;
pub use named::{NamedKeys, keys_touched};
pub use over::tables_over;
pub use touched::LogKeys;
