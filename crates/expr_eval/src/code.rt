//! Expressions in postfix form.

use dh_base::frac::Frac;
use expr_lang::{Binary, Unary};

/// One instruction over a stack. A skip says how many of the next instructions are passed.
#[derive(Clone, Copy)]
pub enum Instr {
    /// Puts a number on top.
    Number(Frac),
    /// Puts the entry of an item on top, or 0 where it is missing.
    Load(usize),
    /// Puts the entry of a day on top, and stops where it is missing.
    LoadDay(usize),
    /// Puts on top whether an item is there.
    Present(usize),
    /// Puts on top whether an item is missing.
    Absent(usize),
    /// Puts a truth on top.
    Truth(bool),
    /// Puts a number in the place of the topmost.
    PreferNumber(Frac),
    /// Puts the entry of an item in the place of the topmost, unless it is missing.
    Prefer(usize),
    /// An operator of the topmost.
    Unary(Unary),
    /// An operator of the two topmost.
    Binary(Binary),
    /// The greatest of so many topmost.
    Greatest(usize),
    /// The least of so many topmost.
    Least(usize),
    /// Takes a truth off, and passes instructions where it is false.
    SkipUnless(usize),
    /// Passes instructions.
    GoOn(usize),
    /// Takes a truth off; where it is false, puts it back and passes instructions.
    And(usize),
    /// Takes a truth off; where it is true, puts it back and passes instructions.
    Or(usize),
}

/// An expression in postfix form, for a list of items that it numbers.
#[derive(Drop)]
pub struct Postfix {
    pub(crate) code: Vec<Instr>,
    /// The plain items, which can be missing.
    pub(crate) plain: Vec<usize>,
}
