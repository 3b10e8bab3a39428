//! Replies to requests over one engine that several callers share, and a server over it. The server reads a metadata file, listens, and
//! answers the links that come by several workers at the same time, each link for a caller of its own: what a reply did to the history is
//! said by the caller's pass. What the server came to is said of the listener: how many links it accepted, and that each of them was
//! answered and given back. What a listener, a link, a request's text or the engine is, stands below.
#![tactic(auto)]

mod answer;
mod change;
mod look;
mod over_file;
mod pass_lender;
mod replier;
mod serving;
mod setup;
mod system;
mod update;
mod updating;
mod workers;

pub use over_file::{Finished, ServeEnd, refuse_long, serve_over};
pub use serving::serve_connection;
pub use setup::{Setup, open_over};
pub use system::System;
pub use workers::serve_opened;
