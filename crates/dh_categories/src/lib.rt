//! Category option combinations: each is one option of each category of its category combination.
#![tactic(auto)]

pub mod combos;
pub mod fault;
pub mod fits;
pub mod single;
