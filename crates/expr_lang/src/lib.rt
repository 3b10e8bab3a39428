//! The expression language of indicators, validation rules, predictors and program indicators.
#![tactic(auto)]

mod build;
mod days;
mod expected;
mod expr;
mod fault;
mod item;
mod parsing;
mod printing;
mod quick;
mod reading;
mod stack;
mod survey;
mod token;
mod tree;
mod words;

pub use days::DayItems;
pub use expr::Expr;
pub use fault::ExprFault;
pub use parsing::{parse, parse_sorted};
pub use printing::print;
pub use stack::Stack;
pub use tree::{Binary, Branch, Item, Leaf, Place, Sort, Unary, branch_at};
