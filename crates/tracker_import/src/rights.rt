//! Where who asks may write, and what.

ghost use Rattle.std.specs.Prelude.{◌≡◌, ◌<◌, true, length};
ghost use Rattle.dh_metadata.specs.Linked.{IsBelow};
ghost use Rattle.dh_metadata.specs.Objects.{count_of, is_shared};
ghost use Rattle.dh_changes.specs.World.{facts};
ghost use Rattle.value_import.specs.Outcomes.{IsKnown};
ghost use Rattle.value_import.specs.Rules.{first_of};
ghost use Rattle.tracker_import.specs.Rules as rules;

use crate::asking::Asking;
use dh_base::codes::Code;
use dh_changes::outcome::Who;
use dh_metadata::kind::Kind;
use dh_records::access::may;
use dh_sharing::access::Right;
use value_import::rights::is_captured;

/// The first condition on who may write where that holds.
#[tactic(auto, unfolding(crate::specs::Rules::right_conditions, crate::specs::Rules::is_outside, crate::specs::Rules::is_barred))]
pub fn right_condition(
    asking: &Asking<'_>,
    unit: Option<u32>,
    kind: Kind,
    owner: Option<u32>,
) -> Option<Code>
    requires who { IsKnown asking.now.meta.now asking.now.who }
    requires unit { IsBelow (length asking.now.meta.now.organisation_units) unit }
    requires shared { is_shared kind ≡ true }
    requires owner { IsBelow (count_of asking.now.meta.now kind) owner }
    ensures { result ≡ first_of (rules.right_conditions (facts asking.now.world.now) asking.now.meta.now asking.now.who unit kind owner) }
{
    let Who::User(user) = asking.who else {
        return None;
    };
    let Some(unit) = unit else {
        return Some(Code::T6);
    };
    if !is_captured(asking.world, asking.meta, unit, user) {
        return Some(Code::T6);
    }
    let Some(owner) = owner else {
        return Some(Code::T7);
    };
    let right = Right::DataWrite;
    if !may(asking.world, asking.meta, user, right, kind, owner) {
        return Some(Code::T7);
    }
    None
}
