//! The rule of the two words, and what each step on them tells.
ghost use Rattle.shared_engine.specs.Rule.{IsKept};
ghost use Rattle.shared_engine.specs.Steps.{opening, Stamped, Told, Met, Asked, with_caller, new_token, with_nobody, token_back, with_token, with_gone, spent};

use crate::views::{EntryName, Recorded, View};
use atomic_table::{Join, Play, Split, TableRule};
use std::marker::PhantomData;

/// The rule.
pub struct Law<E> {
    entries: PhantomData<E>,
}

impl<E: Recorded> TableRule<(), View<E>, ()> for Law<E> {
    ghost holds = { λ key. IsKept E.caller E.named };

    ghost first = { λ key. opening };
}

/// An entry is added.
pub struct Stamps<N> {
    name: PhantomData<N>,
}

impl<E, N: EntryName<E>> Play<(), View<E>> for Stamps<N> {
    ghost then = { Stamped N.added };
}

/// A number is told.
pub struct Tells;

impl<E> Play<(), View<E>> for Tells {
    ghost then = { Told };
}

/// The lock's seat looks at the first word.
pub struct Meets;

impl<E: Recorded> Play<(), View<E>> for Meets {
    ghost then = { Met E.caller E.named };
}

/// A token looks at the second word.
pub struct Asks;

impl<E> Play<(), View<E>> for Asks {
    ghost then = { Asked };
}

/// A new caller's token is split off.
pub struct Adds;

impl<E> Split<View<E>> for Adds {
    ghost left = { with_caller };

    ghost right = { new_token };
}

/// The token of the caller who is taken in is split off again.
pub struct Returns;

impl<E> Split<View<E>> for Returns {
    ghost left = { with_nobody };

    ghost right = { token_back };
}

/// A token is taken back for good, while the first caller is taken in.
pub struct Forgets;

impl<E> Join<View<E>> for Forgets {
    ghost both = { with_gone };

    ghost spent = { spent };
}

/// A token is taken in.
pub struct Takes;

impl<E> Join<View<E>> for Takes {
    ghost both = { with_token };

    ghost spent = { spent };
}
