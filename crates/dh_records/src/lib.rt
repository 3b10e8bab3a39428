//! Rules over what the record log holds and the metadata.
#![tactic(auto)]

pub mod access;
pub mod approved;
pub mod number;
pub mod value;

pub use dh_changes::change::{Change, Write};
pub use dh_changes::keys::{ApprovalKey, RegKey, ValueKey};
pub use dh_changes::outcome::{BodyFault, Conflict, ImportStrategy, Verdict, Who};
pub use dh_changes::said::ApprovalState;
pub use dh_changes::tracker::{Enrollment, Entity, Event};
pub use dh_changes::world::World;
