//! Expressions from texts and as texts, by the grammar.
#![tactic(auto)]

mod parsing;
mod printing;

pub use parsing::{parse, parse_sorted};
pub use printing::print;
