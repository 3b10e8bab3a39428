//! The answer to a query: a row for each cell that has a value, in the analytics body, with heads of
//! columns and names.
#![tactic(auto)]

mod arithmetic;
mod asked;
mod asking;
mod body;
mod body_rows;
mod both;
mod cells;
mod heads;
mod members;
mod names;
mod parts;
mod plans;
mod rows;
mod sides;
mod texts;
mod whole;

pub use asked::can_answer;
pub use whole::{AnswerFault, answer};
