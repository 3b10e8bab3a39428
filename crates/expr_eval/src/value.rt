//! Values of expressions.

use dh_base::frac::Frac;

/// The value of an expression.
#[derive(Clone, Copy)]
pub enum Value {
    Number(Frac),
    Truth(bool),
    /// An item is missing that has to be there.
    Missing,
    /// A number on the way is too wide to be computed.
    Wide,
    /// A divisor on the way is 0.
    ByZero,
}

/// A value on the stack.
#[derive(Clone, Copy)]
pub enum Cell {
    Number(Frac),
    Truth(bool),
}
