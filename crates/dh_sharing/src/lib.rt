//! Sharing of metadata objects: access strings, the rule by which a user has a right to an object,
//! and the ranges of units that a user may view.
#![tactic(auto)]

pub mod access;
pub mod ranges;
pub mod rule;
