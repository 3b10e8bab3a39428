//! The bytes of a head.
ghost use Rattle.std.specs.Prelude.{◌≡◌, ◌≤◌, take};

use std::marker::Model;

/// The head of a reply, as its bytes.
#[derive(Drop)]
pub struct Head {
    bytes: [u8; 256],
    len: usize,
}

impl Model for Head {
    ghost use Rattle.std.specs.Prelude.{List, ℕ, take, ◌≤◌};

    ghost Value = { List ℕ };

    ghost view = { λ h. take h.len h.bytes };

    ghost invariant = { λ h. h.len ≤ 256 };
}

impl Head {
    pub(crate) fn of(bytes: [u8; 256], len: usize) -> Head
        requires { len ≤ 256 }
        ensures { result ≡ take len bytes }
    {
        Head { bytes, len }
    }

    /// The bytes of the head, with the empty line that ends it.
    pub fn bytes(&self) -> &[u8]
        ensures { result.now ≡ self.now }
    {
        &self.bytes[..self.len]
    }
}
