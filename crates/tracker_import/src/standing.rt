//! Conditions against what there is.

ghost use Rattle.std.specs.Prelude.{◌≡◌};
ghost use Rattle.value_import.specs.Rules.{first_of};
ghost use Rattle.tracker_import.specs.Rules as rules;

use dh_base::codes::Code;
use dh_changes::outcome::ImportStrategy;
use value_import::strategy::{is_delete_all, is_misplaced};

/// The first condition on the strategy and on objects judged before that holds.
#[tactic(auto, unfolding(crate::specs::Rules::standing_conditions))]
pub fn standing_condition(strategy: ImportStrategy, live: bool, repeated: bool) -> Option<Code>
    ensures { result ≡ first_of (rules.standing_conditions strategy live repeated) }
{
    if is_misplaced(strategy, is_delete_all(strategy), live) {
        return Some(Code::T13);
    }
    if repeated {
        return Some(Code::T14);
    }
    None
}
