//! How an update is made for what answers requests. It is handed in as a closure, since the impl of a machine can't ask that what it
//! stands on be shared among threads.
ghost use denote.Ref.{MutBor};
ghost use Rattle.std.specs.Prelude.{◌≡◌, ℕ, Result};
ghost use Rattle.dh_base.specs.declared.plain.CutKind.{CutKind as Kind};
ghost use Rattle.engine.specs.declared.machine.CutFault.{CutFault as Fault};
ghost use Rattle.shared_server.specs.Replies.{UpdateCall};

use dh_base::plain::CutKind;
use engine::CutFault;
use shared_engine::{Naming, Pass};
use std::marker::{Model, PhantomData};

/// What makes an update for the caller of a pass.
pub(crate) trait Updates<P> {
    /// It may be asked for one of this kind.
    ghost may: { Self → Kind → Type 0 };

    /// What it does to the pass, by its answer.
    ghost says: { Self → P → Kind → Result ℕ Fault → P → Type 0 };

    fn update(&self, pass: &mut P, kind: CutKind) -> Result<u64, CutFault>
        requires { may self.now kind }
        ensures { says self.now pass.old kind result pass.new };
}

/// A closure that makes an update.
#[derive(Drop)]
pub(crate) struct ByCall<F> {
    pub(crate) run: F,
}

impl<P, F: Fn(&mut P, CutKind) -> Result<u64, CutFault>> Updates<P> for ByCall<F> {
    ghost may = { λ by kind. (pass : MutBor P) → F.pre by.run pass kind };

    ghost says = { λ by old kind answer new. (pass : MutBor P) × (left : MutBor P) × F.post by.run pass kind answer left × (pass.now ≡ old)
        × (left.now ≡ new) };

    fn update(&self, pass: &mut P, kind: CutKind) -> Result<u64, CutFault> {
        (self.run)(pass, kind)
    }
}

/// What makes updates of the system of this name. Contracts see that it is there, and its type what its updates are.
#[derive(Drop)]
pub(crate) struct Updating<J: Naming, U: Updates<Pass<J>> + Drop> {
    updates: U,
    of: PhantomData<J>,
}

impl<J: Naming, U: Updates<Pass<J>> + Drop> Model for Updating<J, U> {
    ghost use Rattle.std.specs.Prelude.{ℕ, Result};
    ghost use Rattle.dh_base.specs.declared.plain.CutKind.{CutKind as Kind};
    ghost use Rattle.engine.specs.declared.machine.CutFault.{CutFault as Fault};
    ghost use Rattle.shared_server.specs.Replies.{UpdateCall};

    ghost Value = { ℕ };

    ghost view = { λ _. 0 };

    ghost invariant = { λ updating. ((kind : Kind) → U.may updating.updates kind) × ((kind : Kind) (old : _) (answer : Result ℕ Fault) (new : _)
        → U.says updating.updates old kind answer new → UpdateCall J.made old kind answer new) };
}

impl<J: Naming, U: Updates<Pass<J>> + Drop> Updating<J, U> {
    /// By what makes an update.
    pub(crate) fn by(updates: U) -> Self
        requires may { (kind : Kind) → U.may updates kind }
        requires says { (kind : Kind) (old : _) (answer : Result ℕ Fault) (new : _)
            → U.says updates old kind answer new → UpdateCall J.made old kind answer new }
    {
        Updating {
            updates,
            of: PhantomData,
        }
    }

    /// Makes an update.
    pub(crate) fn update(&self, pass: &mut Pass<J>, kind: CutKind) -> Result<u64, CutFault>
        ensures { UpdateCall J.made pass.old kind result pass.new }
    {
        self.updates.update(pass, kind)
    }
}
