//! The machine: the log, the tables that stand for its first changes, and the updates that make new tables; and what a request to
//! change comes to: its writes and the report on them, or its refusal.
#![tactic(auto)]

mod approval;
mod bring;
mod engine;
mod in_memory;
mod kinds;
mod laws;
pub mod machine;
mod maker;
mod report;
pub mod request;
mod request_laws;
mod served;
mod summary;
mod swaps;
mod tables;
mod text;
mod updates;

pub use engine::Engine;
pub use in_memory::{Unkept, engine_in_memory, load, tables_of_all};
pub use kinds::judge;
pub use laws::{
    histories_are_in_order, published_never_falls, published_was_swapped, tickets_tell_updates,
};
pub use machine::{ChangeFault, Cut, CutFault, LookFault, Report, Staged, Standing, View};
pub use maker::maker_of;
pub use request::{ChangeRequest, JudgeFault, Judged};
pub use request_laws::report_statuses;
pub use table_build::reading::Reading;
pub use tables::{Tables, build_year, read_changes};
