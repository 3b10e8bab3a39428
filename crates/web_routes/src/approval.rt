//! Parameters that name an approval.
ghost use Rattle.std.specs.Prelude.{◌≡◌, ◌<◌, ◌≤◌, ◌==◌, codes, length, IfSome, IfOk};
ghost use Rattle.std.specs.List.{position_from};
ghost use Rattle.dh_metadata.specs.declared.kind.Kind.TheVariants.{Workflow};
ghost use Rattle.dh_metadata.specs.Objects.{count_of};
ghost use Rattle.dh_metadata.specs.BuiltIn.{default_option_combo};
ghost use Rattle.dh_base.specs.Memory.{Answers};
ghost use Rattle.web_routes.specs.Given.{cause_of};
ghost use Rattle.web_routes.specs.Parameters.{value_of, parameter};
ghost use Rattle.web_routes.specs.Approvals.{named, period_for, position_of, unit_for, attribute_for, needed, act_of};

use crate::fault::{RouteFault, found, refused};
use crate::pairs::value_of;
use dh_approvals::{ApprovalAct, Verb};
use dh_base::codes::Code;
use dh_base::items::Items;
use dh_base::uid::Uid;
use dh_changes::keys::ApprovalKey;
use dh_metadata::built_in::default_option_combo;
use dh_metadata::kind::Kind;
use dh_metadata::metadata::Metadata;
use dh_periods::Period;
use std::alloc::Global;

// The object of a kind that the text names: its number and its identifier.
#[tactic(auto, unfolding(crate::specs::Approvals::named))]
fn named(meta: &Metadata, kind: Kind, text: &[u8]) -> Option<(u32, Uid)>
    ensures value { result ≡ named meta.now kind text.now }
    ensures in_range { IfSome result (λ found. found.0 < count_of meta.now kind) }
{
    let id = Uid::parse(text)?;
    let number = meta.find(kind, id)?;
    Some((number, id))
}

fn place_of(levels: &[u8], own: u8) -> Option<u8>
    requires { length levels.now ≤ 8 }
    ensures { result ≡ position_from (λ level. level == own) 0 levels.now }
{
    let mut at = 0u8;
    for level in levels {
        if *level == own {
            return Some(at);
        }
        at += 1;
    }
    None
}

#[tactic(auto, unfolding(crate::specs::Approvals::position_of))]
fn position_of(meta: &Metadata, workflow: u32, unit: u32) -> Option<u8>
    requires workflow { workflow < length meta.now.data_approval_workflows }
    requires unit { unit < length meta.now.organisation_units }
    ensures { result ≡ position_of meta.now workflow unit }
{
    place_of(meta.positions(workflow), meta.tree().level(unit))
}

/// The unit that the text names, if it is at a level of the workflow: its identifier and the position of that level.
#[tactic(auto, unfolding(crate::specs::Approvals::unit_for))]
fn unit_for(meta: &Metadata, workflow: u32, text: &[u8]) -> Option<(Uid, u8)>
    requires { workflow < length meta.now.data_approval_workflows }
    ensures { result ≡ unit_for meta.now workflow text.now }
{
    let (unit, id) = named(meta, Kind::OrganisationUnit, text)?;
    let at = position_of(meta, workflow, unit)?;
    Some((id, at))
}

fn workflow_in(
    alloc: Global,
    meta: &Metadata,
    pairs: &[(Items<u8>, Items<u8>)],
) -> Result<(u32, Uid), RouteFault>
    ensures value { Answers cause_of (needed (codes "wf") (named meta.now Workflow) (value_of (codes "wf") pairs.now)) result }
    ensures in_range { IfOk result (λ found. found.0 < length meta.now.data_approval_workflows) }
{
    match value_of(pairs, b"wf") {
        Some(text) => found(alloc, Code::F21, b"wf", named(meta, Kind::Workflow, text)),
        None => Err(refused(alloc, Code::F21, b"wf")),
    }
}

#[tactic(auto, unfolding(crate::specs::Approvals::period_for))]
fn period_in(
    alloc: Global,
    meta: &Metadata,
    workflow: u32,
    pairs: &[(Items<u8>, Items<u8>)],
) -> Result<Period, RouteFault>
    requires { workflow < length meta.now.data_approval_workflows }
    ensures { Answers cause_of (needed (codes "pe") (period_for meta.now workflow) (value_of (codes "pe") pairs.now)) result }
{
    if let Some(text) = value_of(pairs, b"pe") {
        if let Some(period) = Period::parse(text) {
            if meta.workflow(workflow).period_type == period.kind() {
                return Ok(period);
            }
        }
    }
    Err(refused(alloc, Code::F21, b"pe"))
}

fn unit_in(
    alloc: Global,
    meta: &Metadata,
    workflow: u32,
    pairs: &[(Items<u8>, Items<u8>)],
) -> Result<(Uid, u8), RouteFault>
    requires { workflow < length meta.now.data_approval_workflows }
    ensures { Answers cause_of (needed (codes "ou") (unit_for meta.now workflow) (value_of (codes "ou") pairs.now)) result }
{
    match value_of(pairs, b"ou") {
        Some(text) => found(alloc, Code::F21, b"ou", unit_for(meta, workflow, text)),
        None => Err(refused(alloc, Code::F21, b"ou")),
    }
}

#[tactic(auto, unfolding(crate::specs::Approvals::attribute_for))]
fn attribute_in(
    alloc: Global,
    meta: &Metadata,
    pairs: &[(Items<u8>, Items<u8>)],
) -> Result<Uid, RouteFault>
    ensures { Answers cause_of (parameter (codes "aoc") (attribute_for meta.now) default_option_combo (value_of (codes "aoc") pairs.now)) result }
{
    let Some(text) = value_of(pairs, b"aoc") else {
        return Ok(default_option_combo());
    };
    match named(meta, Kind::CategoryOptionCombo, text) {
        Some((_, id)) => Ok(id),
        None => Err(refused(alloc, Code::F21, b"aoc")),
    }
}

/// The act on an approval that the parameters name.
#[tactic(auto, unfolding(crate::specs::Approvals::act_of))]
pub(crate) fn act_of(
    alloc: Global,
    meta: &Metadata,
    verb: Verb,
    pairs: &[(Items<u8>, Items<u8>)],
) -> Result<ApprovalAct, RouteFault>
    ensures { Answers cause_of (act_of meta.now verb pairs.now) result }
{
    let (workflow, id) = workflow_in(alloc, meta, pairs)?;
    let period = period_in(alloc, meta, workflow, pairs)?;
    let (unit, position) = unit_in(alloc, meta, workflow, pairs)?;
    let attribute = attribute_in(alloc, meta, pairs)?;
    let key = ApprovalKey {
        workflow: id,
        period,
        unit,
        attribute,
    };
    Ok(ApprovalAct {
        verb,
        key,
        position,
    })
}
