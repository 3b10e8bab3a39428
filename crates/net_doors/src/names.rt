//! What one call began with, as a name that the type of the locked value carries.
ghost use Rattle.std.specs.Prelude.{ℕ, None, false, ⊤};
ghost use Rattle.net_doors.specs.Doors.{Shown};

use std::marker::Brand;
use std::sync::ledger::Ledger;

/// Names one call: what the listener showed when it began, how links are served with what was handed out, and how many are wanted.
pub trait Opening<N, P>: Ledger {
    ghost began: { Shown N };

    ghost serves: { N → P → N × P → Type 0 };

    ghost most: { ℕ };
}

impl<N, P> Opening<N, P> for Brand {
    ghost began = { record { accepted = 0; closed = false; back = None; faults = 0 } };

    ghost serves = { λ _ _ _. ⊤ };

    ghost most = { 0 };
}
