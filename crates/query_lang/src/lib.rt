//! Queries: their text as plain data, what their items name for a user, and the units that they choose, or the first refusal. Nothing
//! here asks for values.
#![tactic(auto)]

mod cells;
pub mod choice;
pub mod dimension;
pub mod fault;
pub mod form;
pub mod item;
mod kin;
mod named;
mod once;
pub mod part;
mod parts;
mod period;
mod plain;
mod query;
mod set;
pub mod text;
mod units;
pub mod view;

pub use named::Found;
pub use plain::{Axis, Dx, DxKind, Query, QueryFault};
pub use query::{MOST_CELLS, read_query};
