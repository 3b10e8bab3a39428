//! Changes of the record log and their writes, with the keys and tracker objects that these name; and what a log of them holds: a
//! live index over the last write of each key. No bytes, no metadata.
#![tactic(auto)]

pub mod apart;
pub mod change;
mod children;
mod hanging;
mod held;
pub mod index;
pub mod keys;
pub mod outcome;
pub mod said;
pub mod text;
pub mod tracker;
pub mod world;
