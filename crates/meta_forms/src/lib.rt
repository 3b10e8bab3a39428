//! Reading what a metadata file says from JSON data: the records of all its objects, or the path of the
//! first place that isn't in the form of the file.
#![tactic(auto)]

mod aggregate;
mod entries;
mod entry;
mod field;
mod formulas;
mod named;
mod object;
mod part;
pub mod parts;
mod people;
mod sharing;
mod structure;
mod tracking;
