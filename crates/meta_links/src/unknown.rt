//! The first unknown reference that was met.
ghost use Rattle.std.specs.Prelude.{◌≡◌, None, Some, is_some};

use dh_base::items::Items;
use dh_base::uid::Uid;
use std::marker::Model;

/// The first unknown reference that was met, if one was: its identifier and its path in the file.
#[derive(Drop)]
pub struct Unknown {
    pub first: Option<(Uid, Items<u8>)>,
}

impl Model for Unknown {
    ghost use Rattle.std.specs.Prelude.{ℕ, List, Option};

    ghost Value = { Option (List ℕ × List ℕ) };

    ghost view = { λ unknown. unknown.first };
}

impl Unknown {
    /// None was met yet.
    pub fn new() -> Unknown
        ensures { result ≡ None }
    {
        Unknown { first: None }
    }

    /// Whether one was met.
    pub fn is_met(&self) -> bool
        ensures { result ≡ is_some self.now }
    {
        self.first.is_some()
    }

    /// Takes it as the first one.
    pub fn meet(&mut self, uid: Uid, path: Vec<u8>)
        ensures { self.new ≡ Some (uid, path.items) }
    {
        self.first = Some((uid, Items::from(path)));
    }

    /// What was met.
    pub fn into_first(self) -> Option<(Uid, Items<u8>)>
        ensures { result ≡ self }
    {
        self.first
    }
}
