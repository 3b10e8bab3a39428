ghost use Rattle.std.specs.Prelude.{◌≡◌, ◌⊎◌, ◌^◌, ◌<◌, true, length, Some, option_and_then, IfOk, IfErr, MatchOption};
ghost use Rattle.org_tree.specs.Count.{first_below};
ghost use Rattle.org_tree.specs.Faults.{is_too_deep, never_ends, depth_fault};
ghost use Rattle.org_tree.specs.Levels.{HasLevel, AreLevels, jump, leads_on, StaysInside, Climbs, IsTwice};
ghost use Rattle.org_tree.specs.Units.{HasParents};
ghost use Rattle.org_tree.specs.declared.fault.TreeFault.TheVariants as fault;

use crate::fault::TreeFault;
use crate::rows::parent;
use dh_base::memory::Memory;
use dh_base::uid::Uid;
use std::alloc::Global;

/// The number of levels that a tree may have.
pub const MOST_LEVELS: u8 = 12;

/// The unit's level, or `None` where it is below the twelfth.
#[tactic(auto, using(crate::proofs::ClimbLemmas::climbs))]
pub fn level_at(units: &[(Uid, Option<u32>)], unit: u32) -> Option<u8>
    requires parents { HasParents units.now }
    requires in_range { unit < length units.now }
    ensures { MatchOption result (is_too_deep units.now unit ≡ true) (λ level. HasLevel units.now unit level) }
{
    let mut at = unit;
    for above in 0..12u8 {
        match parent(units, at) {
            None => return Some(above + 1),
            Some(next) => at = next,
        }
    }
    None
}

/// The level of each unit.
pub fn levels(alloc: Global, units: &[(Uid, Option<u32>)]) -> Result<Vec<u8>, TreeFault>
    requires parents { HasParents units.now }
    requires few { length units.now < 2 ^ 32 }
    ensures levels { IfOk result (λ levels. AreLevels units.now levels.items) }
    ensures fault { IfErr result (λ e. (e ≡ fault.Memory) ⊎ (depth_fault units.now ≡ Some e)) }
{
    let mut levels = Vec::with_capacity(alloc, units.len())?;
    for unit in 0..units.len() as u32 {
        match level_at(units, unit) {
            Some(level) => levels.push(level)?,
            None => return Err(fault_of_depth(alloc, units, unit)),
        }
    }
    Ok(levels)
}

/// What is wrong with a unit below the twelfth level, where it is the first one: a loop goes first.
fn fault_of_depth(alloc: Global, units: &[(Uid, Option<u32>)], unit: u32) -> TreeFault
    requires parents { HasParents units.now }
    requires few { length units.now < 2 ^ 32 }
    requires first { first_below (is_too_deep units.now) (length units.now) ≡ Some unit }
    ensures { (result ≡ fault.Memory) ⊎ (depth_fault units.now ≡ Some result) }
{
    match first_endless(alloc, units) {
        Err(_) => TreeFault::Memory,
        Ok(Some(node)) => TreeFault::Loop { node },
        Ok(None) => TreeFault::TooDeep { node: unit },
    }
}

/// The first unit whose parents never reach a root. It goes up by steps that double in length.
fn first_endless(alloc: Global, units: &[(Uid, Option<u32>)]) -> Result<Option<u32>, Memory>
    requires parents { HasParents units.now }
    requires few { length units.now < 2 ^ 32 }
    ensures { IfOk result (λ found. found ≡ first_below (never_ends units.now) (length units.now)) }
{
    let mut jumps = single_steps(alloc, units)?;
    let mut steps: u64 = 1;
    while steps < units.len() as u64 {
        jumps = twice(alloc, &jumps)?;
        steps *= 2;
    }
    Ok(first_leading_on(&jumps))
}

/// The parent of each unit.
fn single_steps(alloc: Global, units: &[(Uid, Option<u32>)]) -> Result<Vec<Option<u32>>, Memory>
    requires few { length units.now < 2 ^ 32 }
    ensures { IfOk result (λ jumps. Climbs units.now 1 jumps.items) }
{
    let mut jumps = Vec::with_capacity(alloc, units.len())?;
    for unit in 0..units.len() as u32 {
        jumps.push(parent(units, unit))?;
    }
    Ok(jumps)
}

/// Two jumps at once.
fn twice(alloc: Global, jumps: &[Option<u32>]) -> Result<Vec<Option<u32>>, Memory>
    requires inside { StaysInside jumps.now }
    requires few { length jumps.now < 2 ^ 32 }
    ensures { IfOk result (λ double. IsTwice jumps.now double.items) }
{
    let mut double = Vec::with_capacity(alloc, jumps.len())?;
    for from in 0..jumps.len() as u32 {
        double.push(two_jumps(jumps, from))?;
    }
    Ok(double)
}

fn two_jumps(jumps: &[Option<u32>], from: u32) -> Option<u32>
    requires inside { StaysInside jumps.now }
    requires in_range { from < length jumps.now }
    ensures { result ≡ option_and_then (λ p. jump jumps.now p) (jump jumps.now from) }
{
    match one_jump(jumps, from) {
        None => None,
        Some(next) => one_jump(jumps, next),
    }
}

#[tactic(auto, using(crate::proofs::RowLemmas::jump_reads))]
fn one_jump(jumps: &[Option<u32>], from: u32) -> Option<u32>
    requires { from < length jumps.now }
    ensures { result ≡ jump jumps.now from }
{
    jumps[from as usize]
}

fn is_on(jumps: &[Option<u32>], from: u32) -> bool
    requires { from < length jumps.now }
    ensures { result ≡ leads_on jumps.now from }
{
    one_jump(jumps, from).is_some()
}

/// The first place from which a jump leads somewhere.
#[tactic(auto, using(crate::proofs::CountLemmas::searches))]
fn first_leading_on(jumps: &[Option<u32>]) -> Option<u32>
    requires { length jumps.now < 2 ^ 32 }
    ensures { result ≡ first_below (leads_on jumps.now) (length jumps.now) }
{
    for from in 0..jumps.len() as u32 {
        if is_on(jumps, from) {
            return Some(from);
        }
    }
    None
}
