//! What an entry of the history is, and the name that ties the engine under the lock to the words beside it.
use crate::Recorded;
use std::marker::{Brand, Model};

/// An entry of the history, as contracts see it. No value of it is made.
pub struct Item {}

impl Model for Item {
    ghost use Rattle.shared_engine.specs.Entries.{Entry, no_entry};

    ghost Value = { Entry };

    ghost view = { λ _. no_entry };
}

impl Recorded for Item {
    ghost use Rattle.shared_engine.specs.Entries.{caller_of, named_of};

    ghost caller = { caller_of };

    ghost named = { named_of };
}

/// Names one system: its words, its metadata and limits, and the keeper's count of faults when it began.
pub trait Naming {
    ghost use Rattle.shared_engine.specs.Histories.{Made};

    ghost made: { Made };
}

impl Naming for Brand {
    ghost use Rattle.shared_engine.specs.Histories.{nothing_made};

    ghost made = { nothing_made };
}
