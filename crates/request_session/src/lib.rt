//! Replies of HTTP/1.1 (RFC 9112) and the loop that sends them: it reads the requests of a source one after another, lets a machine
//! answer each, and writes the replies in order, each before it reads on.
//!
//! It serves a source and a sink, or one link that is both and may show the order. Requests that are refused by the wire get their
//! reply here, and so does a lack of memory, by a reply that takes none. The bodies of errors and of updates of the tables are here,
//! those of reports on imports and of answers to queries aren't.
#![tactic(auto)]

mod buffer;
mod ended;
mod errors;
mod fixed;
mod head_bytes;
pub mod heads;
mod laws;
mod machine;
mod members;
mod peer;
mod phrase;
mod reply;
mod response;
mod send;
mod session;
mod texts;
mod turn;
mod updates;

pub use ended::Ended;
pub use errors::error_body;
pub use fixed::{memory_body, plain_body};
pub use head_bytes::Head;
pub use laws::{refusals_are_of_the_wire, runs_carry_over, sessions_agree};
pub use machine::Machine;
pub use members::{with_number, with_text, with_value};
pub use reply::Reply;
pub use response::response_value;
pub use session::{serve_link, serve_requests};
pub use texts::whole_reply;
pub use updates::{UpdateBody, update_body};
