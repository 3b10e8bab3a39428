//! What metadata has to keep beside its references: rules between objects, limits on their number, and expressions that are read and
//! name objects which are there.
#![tactic(auto)]

pub mod all;
mod both;
pub mod combos;
pub mod days;
pub mod expr_fault;
pub mod fault;
pub mod held;
pub mod indicators;
mod item;
pub mod levels;
pub mod limits;
pub mod names;
pub mod object;
pub mod overrides;
pub mod program_indicators;
pub mod read;
pub mod rules;
pub mod stages;
pub mod tree;
pub mod waiting;
pub mod workflows;
