//! What comes of a rule.

use dh_base::frac::Frac;

/// A rule that is violated, by number, with the values of its sides. A side that is missing has
/// none.
#[derive(Clone, Copy)]
pub struct Violation {
    pub rule: u32,
    pub left: Option<Frac>,
    pub right: Option<Frac>,
}

/// What comes of a rule.
#[derive(Clone, Copy)]
pub enum Outcome {
    /// A side or the comparison is too wide to be computed.
    Wide,
    /// The rule is kept, or isn't asked.
    Kept,
    Violated(Violation),
}
