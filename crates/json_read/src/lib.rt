//! JSON data over the text that it was read from, and records from it: a tree that borrows its texts. What it means is the data
//! that `serde_json` reads, so definitions over that data hold for both.
#![tactic(auto)]

pub mod fault;
pub mod form;
pub mod look;
pub mod number;
pub mod path;
pub mod read;
pub mod reference;
