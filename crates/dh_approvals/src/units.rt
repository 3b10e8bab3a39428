//! The states of a unit's approval and of those above it.

ghost use Rattle.std.specs.Prelude.{◌≡◌, ◌<◌, length, option_and_then, slice_get};
ghost use Rattle.dh_changes.specs.World.{facts};
ghost use Rattle.dh_metadata.specs.Linked.{IsBelow};
ghost use Rattle.dh_records.specs.Approved.{counts};
ghost use Rattle.dh_approvals.specs.Units as known;

use crate::search::Asking;
use dh_base::uid::Uid;
use dh_changes::keys::ApprovalKey;
use dh_changes::said::ApprovalState;
use dh_changes::world::World;
use dh_metadata::metadata::Metadata;
use dh_records::access::tree_of;
use dh_records::approved::Scope;

/// The identifier of a unit.
pub fn id_of(meta: &Metadata, unit: u32) -> Uid
    requires { unit < length meta.now.organisation_units }
    ensures { result ≡ known.id_of meta.now unit }
{
    meta.unit(unit).id
}

/// How far the approval of a unit has come.
pub fn state_at(world: &World, meta: &Metadata, scope: &Scope, unit: u32) -> ApprovalState
    requires { unit < length meta.now.organisation_units }
    ensures { result ≡ known.state_at (facts world.now) meta.now scope.now unit }
{
    world.approval(&ApprovalKey {
        workflow: scope.workflow,
        period: scope.period,
        unit: id_of(meta, unit),
        attribute: scope.attribute,
    })
}

fn counts(state: ApprovalState) -> bool
    ensures { result ≡ counts state }
{
    match state {
        ApprovalState::None => false,
        ApprovalState::Approved => true,
        ApprovalState::Accepted => true,
    }
}

// The unit's ancestor at the level of a position, if it is approved.
fn approved_at(asking: &Asking<'_>, levels: &[u8], unit: u32, position: u8) -> Option<u32>
    requires { unit < length asking.now.meta.now.organisation_units }
    ensures value { result
        ≡ option_and_then (known.approved_ancestor (facts asking.now.world.now) asking.now.meta.now asking.now.scope unit) (slice_get levels.now position) }
    ensures in_range { IsBelow (length asking.now.meta.now.organisation_units) result }
{
    let level = *levels.get(position as usize)?;
    let above = tree_of(asking.world, asking.meta).ancestor_at(unit, level)?;
    if above < asking.meta.tree().count()
        && counts(state_at(asking.world, asking.meta, &asking.scope, above))
    {
        Some(above)
    } else {
        None
    }
}

/// The nearest approved ancestor at a position below this one.
pub fn nearest_above(asking: &Asking<'_>, levels: &[u8], unit: u32, position: u8) -> Option<u32>
    requires { unit < length asking.now.meta.now.organisation_units }
    ensures value { result ≡ known.nearest_above (facts asking.now.world.now) asking.now.meta.now asking.now.scope levels.now unit position }
    ensures in_range { IsBelow (length asking.now.meta.now.organisation_units) result }
{
    let mut left = position;
    while 0 < left {
        left -= 1;
        if let Some(above) = approved_at(asking, levels, unit, left) {
            return Some(above);
        }
    }
    None
}
