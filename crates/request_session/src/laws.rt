//! What follows from the definition of a session alone.
ghost use Rattle.std.specs.Prelude.{◌≡◌, ℕ, Bool, List, Option, true, ⊤};
ghost use Rattle.dh_base.specs.declared.codes.Code.{Code};
ghost use Rattle.http_wire.specs.Next.{refused, IsNext};
ghost use Rattle.request_session.specs.Along.{Carries};
ghost use Rattle.request_session.specs.Codes.{is_wire_code};
ghost use Rattle.request_session.specs.Session.{Session, Ran, RanOver, is_decided};
ghost use Rattle.request_session.specs.declared.ended.Ended.{Ended};

use crate::machine::Machine;

/// Two sessions over the same bytes that no fault and no lack of memory ends have the same requests
/// and the same end.
pub fn sessions_agree<M: Machine>()
    ensures { (most : ℕ) → (bytes text text' : List ℕ) → (old new old' new' : M) → (how how' : Ended) → (first : Session M.step most bytes ⊤ old new how text)
        → (second : Session M.step most bytes ⊤ old' new' how' text') → is_decided how ≡ true → is_decided how' ≡ true
        → (first.requests ≡ second.requests) × (how ≡ how') }
{}

/// What isn't a request is refused by one of the wire's own codes.
pub fn refusals_are_of_the_wire()
    ensures { (bytes : List ℕ) → (code : Code) → IsNext bytes (refused code) → is_wire_code code ≡ true }
{}

/// A run of one machine is a run of another one along a function of its states, where each step is
/// one. `known` is what is known of the states.
pub fn runs_carry_over<M: Machine, N: Machine>()
    ensures ran { (f : M → N) → (known : M → Bool) → Carries f (λ m. known m ≡ true) M.step N.step → (most : ℕ)
        → (left left' written written' : Option (List ℕ)) → (old new : M) → (how : Ended) → known old ≡ true
        → Ran M.step most left left' written written' old new how → Ran N.step most left left' written written' (f old) (f new) how × (known new ≡ true) }
    ensures over { (f : M → N) → (known : M → Bool) → Carries f (λ m. known m ≡ true) M.step N.step → (most : ℕ) → (bytes : List ℕ)
        → (written written' : Option (List ℕ)) → (old new : M) → (how : Ended) → known old ≡ true → RanOver M.step most bytes written written' old new how
        → (RanOver N.step most bytes written written' (f old) (f new) how) × (known new ≡ true) }
{}
