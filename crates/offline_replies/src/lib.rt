//! What the program writes without a server or a session: the reply to a query over a bundle, which is a metadata file with data values,
//! and the report on sample data, which is how many records and changes a number of drawn values leaves, and their total.
#![tactic(auto)]

pub mod bundle;
mod load;
mod named;
pub mod samples;

pub use bundle::bytes::{reply_to_bytes, reply_to_long};
pub use bundle::reply::{Ending, Reply};
pub use samples::generated;
