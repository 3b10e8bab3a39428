//! Evaluation of expressions, from a postfix form over one stack.
#![tactic(auto)]

mod arithmetic;
mod code;
mod compiling;
mod evaluation;
mod indicator;
mod value;

pub use code::Postfix;
pub use compiling::compile;
pub use evaluation::{eval, only_item};
pub use indicator::{PiCode, PiFault, PiItem, PiValue};
pub use value::Value;
