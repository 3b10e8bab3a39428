ghost use Rattle.std.specs.Prelude.{◌≡◌, ◌^◌, ◌<◌, length};
ghost use Rattle.org_tree.specs.Count.{first_below};
ghost use Rattle.org_tree.specs.Faults.{has_bad_parent, is_root, is_second_root, shape_fault};

use crate::fault::TreeFault;
use crate::rows::parent;
use dh_base::uid::Uid;

/// What is wrong with the parents' places or with the roots.
pub fn fault_of_shape(units: &[(Uid, Option<u32>)]) -> Option<TreeFault>
    requires { length units.now < 2 ^ 32 }
    ensures { result ≡ shape_fault units.now }
{
    match first_bad_parent(units) {
        Some(node) => Some(TreeFault::NoParent { node }),
        None => match first_root(units) {
            None => Some(TreeFault::NoRoot),
            Some(_) => match second_root(units) {
                None => None,
                Some(second) => Some(TreeFault::TwoRoots { second }),
            },
        },
    }
}

fn leads_out(units: &[(Uid, Option<u32>)], unit: u32) -> bool
    requires { unit < length units.now }
    ensures { result ≡ has_bad_parent units.now unit }
{
    match parent(units, unit) {
        None => false,
        Some(above) => above as usize >= units.len(),
    }
}

fn is_top(units: &[(Uid, Option<u32>)], unit: u32) -> bool
    requires { unit < length units.now }
    ensures { result ≡ is_root units.now unit }
{
    parent(units, unit).is_none()
}

/// The first unit whose parent is no unit of the list.
#[tactic(auto, using(crate::proofs::CountLemmas::searches))]
fn first_bad_parent(units: &[(Uid, Option<u32>)]) -> Option<u32>
    requires { length units.now < 2 ^ 32 }
    ensures { result ≡ first_below (has_bad_parent units.now) (length units.now) }
{
    for i in 0..units.len() as u32 {
        if leads_out(units, i) {
            return Some(i);
        }
    }
    None
}

/// The first unit without a parent.
#[tactic(auto, using(crate::proofs::CountLemmas::searches))]
fn first_root(units: &[(Uid, Option<u32>)]) -> Option<u32>
    requires { length units.now < 2 ^ 32 }
    ensures { result ≡ first_below (is_root units.now) (length units.now) }
{
    for i in 0..units.len() as u32 {
        if is_top(units, i) {
            return Some(i);
        }
    }
    None
}

/// The second unit without a parent.
#[tactic(auto, using(crate::proofs::CountLemmas::searches))]
fn second_root(units: &[(Uid, Option<u32>)]) -> Option<u32>
    requires { length units.now < 2 ^ 32 }
    ensures { result ≡ first_below (is_second_root units.now) (length units.now) }
{
    let mut has_root = false;
    for i in 0..units.len() as u32 {
        let top = is_top(units, i);
        if top && has_root {
            return Some(i);
        }
        has_root = has_root || top;
    }
    None
}
