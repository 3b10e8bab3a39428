//! What comes of an act on an approval.

ghost use Rattle.std.specs.Prelude.{◌≡◌, ◌<◌, length};
ghost use Rattle.dh_changes.specs.World.{facts};
ghost use Rattle.dh_metadata.specs.Linked.{IsBelow};
ghost use Rattle.dh_approvals.specs.Decisions as known;

use crate::act::{ApprovalAct, ApprovalFault, Verb};
use crate::rights::has_right;
use crate::search::{Asking, Sought, Wanted, first_sought};
use crate::units::{id_of, nearest_above};
use dh_changes::change::Write;
use dh_changes::said::ApprovalState;
use dh_changes::world::World;
use dh_metadata::kind::Kind;
use dh_metadata::metadata::Metadata;
use dh_records::approved::Scope;

// The first reporting unit under this one, at the next position, in such a state.
fn below(asking: &Asking<'_>, position: u8, unit: u32, wanted: Wanted) -> Option<u32>
    requires workflow { asking.now.workflow < length asking.now.meta.now.data_approval_workflows }
    requires unit { unit < length asking.now.meta.now.organisation_units }
    ensures value { result ≡ known.below (facts asking.now.world.now) asking.now.meta.now asking.now.scope asking.now.workflow position unit wanted }
    ensures in_range { IsBelow (length asking.now.meta.now.organisation_units) result }
{
    let levels = asking.meta.positions(asking.workflow);
    let level = *levels.get(position as usize + 1)?;
    first_sought(
        asking,
        Sought {
            wanted,
            unit,
            level,
        },
    )
}

// What the unit's approval depends on isn't approved, or waits to be accepted where acceptance is required.
fn not_approvable(asking: &Asking<'_>, position: u8, unit: u32) -> Option<ApprovalFault>
    requires workflow { asking.now.workflow < length asking.now.meta.now.data_approval_workflows }
    requires unit { unit < length asking.now.meta.now.organisation_units }
    ensures { result ≡ known.not_approvable (facts asking.now.world.now) asking.now.meta.now asking.now.scope asking.now.workflow position unit }
{
    if let Some(found) = below(asking, position, unit, Wanted::Open) {
        return Some(ApprovalFault::NotReady {
            unit: id_of(asking.meta, found),
        });
    }
    if !asking.meta.acceptance_required() {
        return None;
    }
    let found = below(asking, position, unit, Wanted::Waiting)?;
    Some(ApprovalFault::NotAccepted {
        unit: id_of(asking.meta, found),
    })
}

fn approved_above(asking: &Asking<'_>, position: u8, unit: u32) -> Option<ApprovalFault>
    requires workflow { asking.now.workflow < length asking.now.meta.now.data_approval_workflows }
    requires unit { unit < length asking.now.meta.now.organisation_units }
    ensures { result ≡ known.approved_above (facts asking.now.world.now) asking.now.meta.now asking.now.scope asking.now.workflow position unit }
{
    let levels = asking.meta.positions(asking.workflow);
    let found = nearest_above(asking, levels, unit, position)?;
    Some(ApprovalFault::ApprovedAbove {
        unit: id_of(asking.meta, found),
    })
}

// An ancestor's approval stands before the state of the key.
fn above_or(
    asking: &Asking<'_>,
    position: u8,
    unit: u32,
    fault: ApprovalFault,
) -> Option<ApprovalFault>
    requires workflow { asking.now.workflow < length asking.now.meta.now.data_approval_workflows }
    requires unit { unit < length asking.now.meta.now.organisation_units }
    ensures { result ≡ known.above_or (facts asking.now.world.now) asking.now.meta.now asking.now.scope asking.now.workflow position unit fault }
{
    match approved_above(asking, position, unit) {
        Some(found) => Some(found),
        None => Some(fault),
    }
}

fn refused_in(
    asking: &Asking<'_>,
    act: &ApprovalAct,
    unit: u32,
    state: ApprovalState,
) -> Option<ApprovalFault>
    requires workflow { asking.now.workflow < length asking.now.meta.now.data_approval_workflows }
    requires unit { unit < length asking.now.meta.now.organisation_units }
    ensures { result ≡ known.refused_in (facts asking.now.world.now) asking.now.meta.now asking.now.scope asking.now.workflow act.now unit act.now.verb state }
{
    match (act.verb, state) {
        (Verb::Approve, ApprovalState::None) => not_approvable(asking, act.position, unit),
        (Verb::Approve, _) => Some(ApprovalFault::AlreadyApproved),
        (_, ApprovalState::None) => Some(ApprovalFault::NotApproved),
        (Verb::Accept, ApprovalState::Accepted) => {
            above_or(asking, act.position, unit, ApprovalFault::AlreadyApproved)
        }
        (Verb::Unaccept, ApprovalState::Approved) => above_or(
            asking,
            act.position,
            unit,
            ApprovalFault::NotAccepted { unit: act.key.unit },
        ),
        _ => approved_above(asking, act.position, unit),
    }
}

// Of a user, in the workflow and at the unit of these numbers.
#[tactic(auto, unfolding(crate::specs::Decisions::refused_at))]
fn refused_at(
    world: &World,
    meta: &Metadata,
    user: u32,
    act: &ApprovalAct,
    workflow: u32,
    unit: u32,
) -> Option<ApprovalFault>
    requires user { user < length meta.now.users }
    requires workflow { workflow < length meta.now.data_approval_workflows }
    requires unit { unit < length meta.now.organisation_units }
    ensures { result ≡ known.refused_at (facts world.now) meta.now user act.now workflow unit }
{
    if !has_right(world, meta, user, unit, act.verb) {
        return Some(ApprovalFault::NoRight);
    }
    let asking = Asking {
        world,
        meta,
        workflow,
        scope: Scope {
            workflow: act.key.workflow,
            period: act.key.period,
            attribute: act.key.attribute,
        },
    };
    refused_in(&asking, act, unit, world.approval(&act.key))
}

fn refused(world: &World, meta: &Metadata, user: u32, act: &ApprovalAct) -> Option<ApprovalFault>
    requires { user < length meta.now.users }
    ensures { result ≡ known.refused (facts world.now) meta.now user act.now }
{
    let Some(workflow) = meta.find(Kind::Workflow, act.key.workflow) else {
        return Some(ApprovalFault::NoRight);
    };
    let Some(unit) = meta.find(Kind::OrganisationUnit, act.key.unit) else {
        return Some(ApprovalFault::NoRight);
    };
    refused_at(world, meta, user, act, workflow, unit)
}

/// The write that the act of this user comes to, or the first reason why it is refused. Takes no memory.
#[tactic(auto, unfolding(crate::specs::Decisions::decided))]
pub fn decide(
    world: &World,
    meta: &Metadata,
    who: u32,
    act: &ApprovalAct,
) -> Result<Write, ApprovalFault>
    requires { who < length meta.now.users }
    ensures { result ≡ known.decided (facts world.now) meta.now who act.now }
{
    if let Some(fault) = refused(world, meta, who, act) {
        return Err(fault);
    }
    match act.verb {
        Verb::Approve => Ok(Write::Approve(act.key)),
        Verb::Unapprove => Ok(Write::Unapprove(act.key)),
        Verb::Accept => Ok(Write::Accept(act.key)),
        Verb::Unaccept => Ok(Write::Unaccept(act.key)),
    }
}
