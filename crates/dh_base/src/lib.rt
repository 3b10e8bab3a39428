// What every layer stands on: lists, identifiers, numbers, codes and the plain types that several
// crates name.
#![tactic(auto)]

pub mod codes;
pub mod decimal;
pub mod frac;
pub mod items;
pub mod limits;
pub mod memory;
pub mod plain;
pub mod print;
pub mod uid;
