//! The references of metadata objects: each is looked up among the identifiers of its kind, and the
//! first that names no object is reported with its path in the file.
#![tactic(auto)]

mod built_in;
mod copies;
mod entries;
pub mod fault;
mod fields;
pub mod link;
mod link_each;
mod objects;
mod path;
mod sharing;
mod tokens;
mod unknown;
