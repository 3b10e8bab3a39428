//! What the seats of the table know, and what an entry tells.
ghost use Rattle.std.specs.Prelude.{ℕ, List, Option, []};

use std::collections::LinkedList;
use std::marker::Brand;

/// Whose seat it is: a token's that was taken in, a caller's token, or the lock's.
pub enum Role {
    Spent,
    Caller,
    Lock,
}

/// What a caller who is gone knew last: a beginning of the history.
pub struct Known<E> {
    pub caller: u64,
    pub list: LinkedList<E>,
}

/// What a token knew that was taken in: a beginning of the history, and the greatest number that it was told. The first caller's knew how
/// many callers there were, and who was gone.
pub struct Old<E> {
    pub list: LinkedList<E>,
    pub told: u64,
    pub count: u64,
    pub gone: LinkedList<Known<E>>,
}

/// What a seat knows. No value of it is made.
pub struct View<E> {
    pub role: Role,
    pub list: LinkedList<E>,
    pub told: u64,
    pub caller: u64,
    pub count: u64,
    pub taken: Option<u64>,
    pub old: Option<Old<E>>,
    pub gone: LinkedList<Known<E>>,
}

/// An entry of a history: its caller, and the number that it names, if it names one.
pub trait Recorded {
    ghost caller: { Self → ℕ };

    ghost named: { Self → Option ℕ };
}

/// Names the entry that a stamp adds.
pub trait EntryName<E> {
    ghost added: { List E };
}

impl<E> EntryName<E> for Brand {
    ghost added = { [] };
}
