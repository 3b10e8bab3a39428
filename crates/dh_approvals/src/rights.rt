//! Who may approve and accept, and where.

ghost use Rattle.std.specs.Prelude.{◌≡◌, ◌<◌, ◌==◌, ◌&&◌, not, length};
ghost use Rattle.std.specs.List.{list_any};
ghost use Rattle.org_tree.specs.Units.{is_under};
ghost use Rattle.dh_metadata.specs.Linked.{AreBelow};
ghost use Rattle.dh_changes.specs.World.{facts};
ghost use Rattle.dh_approvals.specs.Rights as known;

use crate::act::Verb;
use dh_changes::world::World;
use dh_metadata::metadata::Metadata;
use dh_records::access::tree_of;
use org_tree::tree::Tree;

fn is_lower(tree: &Tree, captures: &[u32], unit: u32) -> bool
    requires unit { unit < length tree.now }
    requires captures { AreBelow (length tree.now) captures.now }
    ensures { result ≡ known.is_lower tree.now captures.now unit }
{
    for capture in captures {
        if tree.is_under(unit, *capture) && *capture != unit {
            return true;
        }
    }
    false
}

#[tactic(auto, unfolding(crate::specs::Rights::may_approve, crate::specs::Rights::approve_own, crate::specs::Rights::approve_lower))]
fn may_approve(world: &World, meta: &Metadata, user: u32, unit: u32) -> bool
    requires user { user < length meta.now.users }
    requires unit { unit < length meta.now.organisation_units }
    ensures { result ≡ known.may_approve (facts world.now) meta.now user unit }
{
    let captures = meta.user(user).organisation_units.as_slice();
    (captures.contains(&unit) && meta.has_authority(user, b"F_APPROVE_DATA"))
        || (is_lower(tree_of(world, meta), captures, unit)
            && meta.has_authority(user, b"F_APPROVE_DATA_LOWER_LEVELS"))
}

#[tactic(auto, unfolding(crate::specs::Rights::may_accept, crate::specs::Rights::accept_lower))]
fn may_accept(world: &World, meta: &Metadata, user: u32, unit: u32) -> bool
    requires user { user < length meta.now.users }
    requires unit { unit < length meta.now.organisation_units }
    ensures { result ≡ known.may_accept (facts world.now) meta.now user unit }
{
    let captures = meta.user(user).organisation_units.as_slice();
    is_lower(tree_of(world, meta), captures, unit)
        && meta.has_authority(user, b"F_ACCEPT_DATA_LOWER_LEVELS")
}

/// Whether the user may do this at the unit.
#[tactic(auto, unfolding(crate::specs::Rights::has_right))]
pub fn has_right(world: &World, meta: &Metadata, user: u32, unit: u32, verb: Verb) -> bool
    requires user { user < length meta.now.users }
    requires unit { unit < length meta.now.organisation_units }
    ensures { result ≡ known.has_right (facts world.now) meta.now user unit verb }
{
    match verb {
        Verb::Approve => may_approve(world, meta, user, unit),
        Verb::Unapprove => may_approve(world, meta, user, unit),
        Verb::Accept => may_accept(world, meta, user, unit),
        Verb::Unaccept => may_accept(world, meta, user, unit),
    }
}
