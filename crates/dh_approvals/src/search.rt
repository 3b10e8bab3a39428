//! Which units report in a workflow, and the first of those that wait.

ghost use Rattle.std.specs.Prelude.{◌≡◌, ◌<◌, ◌&&◌, is_some, length};
ghost use Rattle.org_tree.specs.Count.{first_below};
ghost use Rattle.org_tree.specs.Units.{is_under};
ghost use Rattle.dh_metadata.specs.Sets.{is_assigned};
ghost use Rattle.dh_changes.specs.World.{facts};
ghost use Rattle.dh_metadata.specs.Linked.{IsBelow};
ghost use Rattle.dh_records.specs.Access as log;
ghost use Rattle.dh_approvals.specs.Units as units;

use crate::units::state_at;
use dh_changes::said::ApprovalState;
use dh_changes::world::World;
use dh_metadata::kind::Kind;
use dh_metadata::metadata::Metadata;
use dh_records::access::tree_of;
use dh_records::approved::Scope;
use org_tree::tree::Tree;

/// Which states of an approval are looked for.
#[derive(Clone, Copy)]
pub enum Wanted {
    /// Neither approved nor accepted.
    Open,
    /// Approved, and not accepted.
    Waiting,
}

/// What a search goes over: the log, the metadata, a workflow, and what an approval in it is of.
#[derive(Clone, Copy)]
pub struct Asking<'a> {
    pub world: &'a World,
    pub meta: &'a Metadata,
    pub workflow: u32,
    pub scope: Scope,
}

/// The units that are looked for: in these states, of a level, under a unit.
#[derive(Clone, Copy)]
pub struct Sought {
    pub wanted: Wanted,
    pub unit: u32,
    pub level: u8,
}

// Whether the unit is assigned to a data set, which belongs to the workflow.
fn is_assigned_by(meta: &Metadata, workflow: u32, unit: u32, set: u32) -> bool
    requires { set < length meta.now.data_sets }
    ensures { result ≡ (units.uses meta.now workflow set && is_assigned meta.now set unit) }
{
    match meta.data_set(set).workflow {
        Some(own) => own == workflow && meta.is_assigned(set, unit),
        None => false,
    }
}

// Whether the unit is assigned to a data set of the workflow.
#[tactic(auto, using(crate::proofs::SearchLemmas::numbers))]
fn is_assigned_in(meta: &Metadata, workflow: u32, unit: u32) -> bool
    ensures { result ≡ units.is_assigned_in meta.now workflow unit }
{
    for set in 0..meta.count(Kind::DataSet) {
        if is_assigned_by(meta, workflow, unit, set) {
            return true;
        }
    }
    false
}

// The units under one stand side by side in the order of the tree.
#[tactic(auto, using(crate::proofs::SearchLemmas::walks))]
fn has_assigned_under(meta: &Metadata, tree: &Tree, workflow: u32, unit: u32) -> bool
    requires { unit < length tree.now }
    ensures { result ≡ is_some (first_below (λ x. is_under tree.now x unit && units.is_assigned_in meta.now workflow x) (length tree.now)) }
{
    let (first, end) = tree.interval(unit);
    let count = tree.count();
    for order in first..end.min(count) {
        if is_assigned_in(meta, workflow, tree.unit_at(order)) {
            return true;
        }
    }
    false
}

fn is_wanted(wanted: Wanted, state: ApprovalState) -> bool
    ensures { result ≡ units.is_wanted wanted state }
{
    match (wanted, state) {
        (Wanted::Open, ApprovalState::None) => true,
        (Wanted::Waiting, ApprovalState::Approved) => true,
        _ => false,
    }
}

#[tactic(auto, unfolding(crate::specs::Units::is_reporting))]
fn is_sought(asking: &Asking<'_>, tree: &Tree, sought: Sought, unit: u32) -> bool
    requires unit { unit < length asking.now.meta.now.organisation_units }
    requires above { sought.unit < length asking.now.meta.now.organisation_units }
    requires tree { tree.now ≡ log.tree (facts asking.now.world.now) asking.now.meta.now }
    requires numbers { length tree.now ≡ length asking.now.meta.now.organisation_units }
    ensures { result ≡ units.is_sought (facts asking.now.world.now) asking.now.meta.now asking.now.scope asking.now.workflow sought unit }
{
    tree.is_under(unit, sought.unit)
        && tree.level(unit) == sought.level
        && is_wanted(
            sought.wanted,
            state_at(asking.world, asking.meta, &asking.scope, unit),
        )
        && has_assigned_under(asking.meta, tree, asking.workflow, unit)
}

/// The first unit, in the order of the tree, that is sought.
#[tactic(auto, using(crate::proofs::SearchLemmas::searches), unfolding(crate::specs::Units::first_sought))]
pub fn first_sought(asking: &Asking<'_>, sought: Sought) -> Option<u32>
    requires { sought.unit < length asking.now.meta.now.organisation_units }
    ensures value { result ≡ units.first_sought (facts asking.now.world.now) asking.now.meta.now asking.now.scope asking.now.workflow sought }
    ensures in_range { IsBelow (length asking.now.meta.now.organisation_units) result }
{
    let tree = tree_of(asking.world, asking.meta);
    for order in 0..tree.count() {
        let unit = tree.unit_at(order);
        if is_sought(asking, tree, sought, unit) {
            return Some(unit);
        }
    }
    None
}
