//! The approval workflow of each data element.

ghost use Rattle.std.specs.Prelude.{◌≡◌, ◌^◌, ◌<◌, length, map, IfOk};
ghost use Rattle.org_tree.specs.Count.{first_below};
ghost use Rattle.dh_base.specs.Memory.{Finds};
ghost use Rattle.meta_rules.specs.Faults.{rule_cause};
ghost use Rattle.meta_rules.specs.Seen.{met, one_seen, several_at, TakesEntries, TakesSet, HaveSeen};
ghost use Rattle.dh_metadata.specs.Workflows.{AreWorkflows};
ghost use Rattle.meta_rules.specs.Workflows.{torn_fault, workflow_broken};

use crate::fault::{BrokenRule, RuleError, RuleFault};
use crate::item::item_at;
use dh_metadata::records::{DataSet, Element};
use std::alloc::{AllocError, Global};

/// The workflows that the data sets with an element name, as far as they were seen.
#[derive(Clone, Copy)]
pub enum Seen {
    Nothing,
    One(u32),
    Several,
}

fn with(seen: Seen, workflow: u32) -> Seen
    ensures { result ≡ met seen workflow }
{
    match seen {
        Seen::Nothing => Seen::One(workflow),
        Seen::One(other) => {
            if other == workflow {
                Seen::One(other)
            } else {
                Seen::Several
            }
        }
        Seen::Several => Seen::Several,
    }
}

/// Takes in that these elements are in a data set of the workflow.
fn take_entries(seen: &mut Vec<Seen>, elements: &[u32], workflow: u32)
    ensures { TakesEntries seen.old.items seen.new.items elements.now workflow }
{
    for element in elements {
        let place = *element as usize;
        if place < seen.len() {
            seen[place] = with(seen[place], workflow);
        }
    }
}

fn take_set(seen: &mut Vec<Seen>, set: &DataSet)
    ensures { TakesSet seen.old.items seen.new.items set.now }
{
    if let Some(workflow) = set.workflow {
        take_entries(seen, set.data_set_elements.as_slice(), workflow);
    }
}

fn seen_in(alloc: Global, count: usize, sets: &[DataSet]) -> Result<Vec<Seen>, AllocError>
    ensures { IfOk result (λ seen. HaveSeen sets.now count seen.items) }
{
    let mut seen = vec![in alloc; Seen::Nothing; count]?;
    for set in sets {
        take_set(&mut seen, set);
    }
    Ok(seen)
}

fn is_several(seen: &[Seen], place: u32) -> bool
    requires { place < length seen.now }
    ensures { result ≡ several_at seen.now place }
{
    match seen[place as usize] {
        Seen::Nothing => false,
        Seen::One(_) => false,
        Seen::Several => true,
    }
}

#[tactic(auto, using(org_tree::proofs::CountLemmas::searches))]
fn first_torn(seen: &[Seen]) -> Option<u32>
    requires { length seen.now < 2 ^ 32 }
    ensures { result ≡ first_below (several_at seen.now) (length seen.now) }
{
    for place in 0..seen.len() as u32 {
        if is_several(seen, place) {
            return Some(place);
        }
    }
    None
}

fn one(seen: Seen) -> Option<u32>
    ensures { result ≡ one_seen seen }
{
    match seen {
        Seen::Nothing => None,
        Seen::One(workflow) => Some(workflow),
        Seen::Several => None,
    }
}

fn listed(alloc: Global, seen: &[Seen]) -> Result<Vec<Option<u32>>, AllocError>
    ensures { IfOk result (λ list. list.items ≡ map one_seen seen.now) }
{
    seen.iter().map(|each| one(*each)).collect(alloc)
}

fn torn(elements: &[Element], place: u32) -> RuleFault
    ensures { result ≡ torn_fault elements.now place }
{
    let uid = match item_at(elements, place as usize) {
        Some(element) => Some(element.id),
        None => None,
    };
    RuleFault {
        uid,
        which: BrokenRule::Workflow,
    }
}

/// The workflow of each element: the one that the data sets with it name. The elements are fewer than
/// 2^32, and a data set names an element by its place among them.
#[tactic(auto, unfolding(crate::specs::Workflows::workflow_broken))]
pub fn workflows_of(
    alloc: Global,
    elements: &[Element],
    sets: &[DataSet],
) -> Result<Vec<Option<u32>>, RuleError>
    requires { length elements.now < 2 ^ 32 }
    ensures { Finds rule_cause (workflow_broken elements.now sets.now) (λ list. AreWorkflows sets.now (length elements.now) list.items) result }
{
    let seen = seen_in(alloc, elements.len(), sets)?;
    match first_torn(&seen) {
        Some(place) => Err(RuleError::Broken(torn(elements, place))),
        None => Ok(listed(alloc, &seen)?),
    }
}
