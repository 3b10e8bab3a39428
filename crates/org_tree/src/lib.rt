//! The tree of organisation units: who is under whom, the levels, and the walk that numbers the
//! units so that a unit and all under it stand in one interval.
#![tactic(auto)]

pub mod check;
pub mod checks;
pub mod families;
pub mod fault;
pub mod kin;
pub mod levels;
pub mod own_ids;
pub mod rows;
pub mod spans;
pub mod tree;
pub mod walk;
