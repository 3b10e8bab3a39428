//! What follows from the definition of the machine alone.
ghost use Rattle.std.specs.Prelude.{◌≡◌, ◌≤◌, true, ℕ, List, Some, take};
ghost use Rattle.dh_base.specs.declared.plain.CutKind.{CutKind};
ghost use Rattle.dh_metadata.specs.declared.held.Records.{Records};
ghost use Rattle.change_log.specs.declared.limits.Limits.{Limits};
ghost use Rattle.engine.specs.declared.machine.Staged.{Staged};
ghost use Rattle.engine.specs.Machine.{State, Act, staged_of, is_begun, kind_of, number_of};
ghost use Rattle.engine.specs.Histories.{IsLegal, IsInOrder, after, last_swap};

/// After every legal history no more is published than there is, and the updates that are begun
/// stand for no more than there is.
pub fn histories_are_in_order()
    ensures { (meta : Records) → (limits : Limits) → (acts : List Act) → IsLegal meta limits acts → IsInOrder limits (after meta acts) }
{}

/// What is published is the number that the last swap answered, or 0.
pub fn published_was_swapped()
    ensures { (meta : Records) → (limits : Limits) → (acts : List Act) → IsLegal meta limits acts → (after meta acts).published ≡ last_swap 0 acts }
{}

/// What is published never falls along a legal history.
pub fn published_never_falls()
    ensures { (meta : Records) → (limits : Limits) → (acts : List Act) → (first later : ℕ) → IsLegal meta limits acts → first ≤ later
        → (after meta (take first acts)).published ≤ (after meta (take later acts)).published }
{}

/// In a state in order a ticket tells its update: the kind and the number.
pub fn tickets_tell_updates()
    ensures begun { (state : State) → (kind : CutKind) → (update : Staged) → staged_of state kind ≡ Some update → is_begun state update.ticket ≡ true }
    ensures kind { (limits : Limits) → (state : State) → (kind : CutKind) → (update : Staged) → IsInOrder limits state → staged_of state kind ≡ Some update
        → kind_of state update.ticket ≡ kind }
    ensures number { (limits : Limits) → (state : State) → (kind : CutKind) → (update : Staged) → IsInOrder limits state → staged_of state kind ≡ Some update
        → number_of state update.ticket ≡ update.number }
{}
