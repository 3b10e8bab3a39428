//! Who hands out a pass for each link of a server, and takes it back once the link is answered.
use dh_outside::Keeper;
use net_doors::Lender;
use shared_engine::{Callers, Naming, Pass, Shared};
use std::marker::Model;
use std::sync::Wait;

/// Knows how many passes were handed out, and what is known of each that came back. Contracts see what the first caller knows.
#[derive(Drop)]
pub(crate) struct PassLender<'a, J: Naming, K: Keeper, R: Wait> {
    pub(crate) shared: &'a Shared<J, K>,
    pub(crate) rt: &'a R,
    pub(crate) callers: Callers<J>,
}

impl<'a, J: Naming, K: Keeper, R: Wait> Model for PassLender<'a, J, K, R> {
    ghost use Rattle.shared_engine.specs.Entries.{Entry};
    ghost use Rattle.shared_engine.specs.Views.{FirstView};

    ghost Value = { FirstView Entry };

    ghost view = { λ lender. lender.callers };
}

impl<'a, J: Naming, K: Keeper, R: Wait> Lender<Pass<J>> for PassLender<'a, J, K, R> {
    ghost use Rattle.std.specs.Prelude.{◌≡◌, ◌+◌, [], map};
    ghost use Rattle.shared_engine.specs.Entries.{caller_of};
    ghost use Rattle.shared_engine.specs.Histories.{IsLegal};
    ghost use Rattle.shared_engine.specs.Views.{known_of, own};

    ghost holds = { λ lender given back. (lender.count ≡ given + 1) × (lender.gone ≡ map known_of back) };

    ghost starts = { λ pass. (own caller_of pass.caller pass.list ≡ []) × IsLegal J.made pass.list };

    fn hand_out(&mut self) -> Pass<J> {
        self.shared.pass(self.rt, &mut self.callers)
    }

    fn take_back(&mut self, left: Pass<J>) {
        self.shared.take_back(self.rt, &mut self.callers, left)
    }
}
