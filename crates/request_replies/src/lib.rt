//! The machine's replies to requests: the call that a request stands for is made of the engine, and its answer is
//! told. A session without a store, over the bytes of a metadata file and a source of requests.
#![tactic(auto)]

pub mod change;
pub mod check;
mod laws;
mod over_file;
pub mod query;
pub mod replier;
mod serving;
pub mod texts;
pub mod update;

pub use laws::replies_keep;
pub use over_file::{SessionEnd, refusal_line, refuse_long, session_over};
pub use replier::Replier;
