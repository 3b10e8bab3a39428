//! Up to which position values are approved.
ghost use Rattle.std.specs.Prelude.{◌≡◌, ◌<◌, ◌≤◌, length};
ghost use Rattle.dh_changes.specs.World.{facts};
ghost use Rattle.dh_records.specs.Approved as known;

use crate::access::tree_of;
use dh_base::uid::Uid;
use dh_changes::keys::{ApprovalKey, ValueKey};
use dh_changes::said::ApprovalState;
use dh_changes::world::World;
use dh_metadata::kind::Kind;
use dh_metadata::metadata::Metadata;
use dh_periods::{Period, containing};

/// What an approval is of, beside its unit.
#[derive(Clone, Copy)]
pub struct Scope {
    pub workflow: Uid,
    /// A period of the workflow's type.
    pub period: Period,
    /// The attribute option combination.
    pub attribute: Uid,
}

/// The position up to which the value of a key is approved. A key names objects that stand in the
/// metadata: where its element or its unit isn't there, there is no position.
#[tactic(auto, unfolding(crate::specs::Approved::approved_at))]
pub fn approved_at(world: &World, meta: &Metadata, key: &ValueKey) -> Option<u8>
    ensures { result ≡ known.approved_at (facts world.now) meta.now key.now }
{
    let element = meta.find(Kind::DataElement, key.element)?;
    let unit = meta.find(Kind::OrganisationUnit, key.unit)?;
    approved_position_of(world, meta, element, unit, key.period, key.attribute)
}

/// The position up to which the values of an element at a unit are approved in this period and
/// attribute option combination: the least at whose level the unit's ancestor is approved or
/// accepted. `None` where there is no workflow, no period of its type around this one, or no such
/// position.
#[tactic(auto, unfolding(crate::specs::Approved::approved_of, crate::specs::Approved::approved_in))]
pub fn approved_position_of(
    world: &World,
    meta: &Metadata,
    element: u32,
    unit: u32,
    period: Period,
    attribute: Uid,
) -> Option<u8>
    requires element { element < length meta.now.data_elements }
    requires unit { unit < length meta.now.organisation_units }
    ensures { result ≡ known.approved_of (facts world.now) meta.now element unit period attribute }
{
    let workflow = meta.workflow_of(element)?;
    approved_in(world, meta, workflow, unit, period, attribute)
}

#[tactic(auto, unfolding(crate::specs::Approved::approved_in))]
fn approved_in(
    world: &World,
    meta: &Metadata,
    workflow: u32,
    unit: u32,
    period: Period,
    attribute: Uid,
) -> Option<u8>
    requires workflow { workflow < length meta.now.data_approval_workflows }
    requires unit { unit < length meta.now.organisation_units }
    ensures { result ≡ known.approved_in (facts world.now) meta.now workflow unit period attribute }
{
    let found = meta.workflow(workflow);
    let period = containing(found.period_type, period.first(), period.last())?;
    let scope = Scope {
        workflow: found.id,
        period,
        attribute,
    };
    least_position(world, meta, unit, meta.positions(workflow), &scope)
}

fn least_position(
    world: &World,
    meta: &Metadata,
    unit: u32,
    levels: &[u8],
    scope: &Scope,
) -> Option<u8>
    requires unit { unit < length meta.now.organisation_units }
    requires few { length levels.now ≤ 8 }
    ensures { result ≡ known.least_position (facts world.now) meta.now unit scope.now levels.now }
{
    let mut at = 0u8;
    for level in levels {
        if is_approved_at(world, meta, unit, *level, scope) {
            return Some(at);
        }
        at += 1;
    }
    None
}

fn is_approved_at(world: &World, meta: &Metadata, unit: u32, level: u8, scope: &Scope) -> bool
    requires { unit < length meta.now.organisation_units }
    ensures { result ≡ known.is_approved_at (facts world.now) meta.now unit scope.now level }
{
    match tree_of(world, meta).ancestor_at(unit, level) {
        Some(ancestor) => is_approved_as(world, meta, ancestor, scope),
        None => false,
    }
}

fn is_approved_as(world: &World, meta: &Metadata, unit: u32, scope: &Scope) -> bool
    ensures { result ≡ known.is_approved_as (facts world.now) meta.now scope.now unit }
{
    if unit < meta.tree().count() {
        is_approved(world, meta.unit(unit).id, scope)
    } else {
        false
    }
}

fn is_approved(world: &World, id: Uid, scope: &Scope) -> bool
    ensures { result ≡ known.is_approved (facts world.now) scope.now id }
{
    let key = ApprovalKey {
        workflow: scope.workflow,
        period: scope.period,
        unit: id,
        attribute: scope.attribute,
    };
    match world.approval(&key) {
        ApprovalState::None => false,
        ApprovalState::Approved => true,
        ApprovalState::Accepted => true,
    }
}
