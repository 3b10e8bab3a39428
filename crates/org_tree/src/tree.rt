ghost use Rattle.std.specs.Prelude.{◌≡◌, ◌⊎◌, ◌↔◌, ◌+◌, ◌^◌, ◌<◌, ◌≤◌, ◌==◌, ◌||◌, false, None, Some, length, IfOk, IfErr, OnOk};
ghost use Rattle.std.specs.Option.{option_map_or};
ghost use Rattle.org_tree.specs.Faults.{tree_fault, NeverReaches};
ghost use Rattle.org_tree.specs.Families.{AreChildren};
ghost use Rattle.org_tree.specs.Laws.{IsBehindParent, IsBehindElders, HasInterval};
ghost use Rattle.org_tree.specs.Levels.{AreLevels};
ghost use Rattle.org_tree.specs.Units.{IsTree, HasOwnIds, HasParents, parent_of, is_under, climb, level_of, ancestor_of, order_of, size_of};
ghost use Rattle.org_tree.specs.declared.fault.TreeFault.TheVariants as fault;

use crate::check::check;
use crate::families::families;
use crate::fault::TreeFault;
use crate::rows::parent;
use crate::spans::spans;
use crate::walk::{orders, sizes, walk};
use dh_base::uid::Uid;
use std::alloc::{AllocError, Global};
use std::marker::Model;

/// The tree of the organisation units. A unit is named by its place in the list that the tree was
/// built of, and contracts see the tree as that list: the UID and the parent's place of each unit.
///
/// The walk through the tree meets a parent before its children, and children by the bytes of their
/// UIDs. It numbers the units from 0, so that a unit and all under it stand in one interval.
#[derive(Drop)]
pub struct Tree {
    units: Vec<(Uid, Option<u32>)>,
    levels: Vec<u8>,
    orders: Vec<u32>,
    sizes: Vec<u32>,
    walk: Vec<u32>,
    kin: Vec<u32>,
    spans: Vec<(u32, u32)>,
}

impl Model for Tree {
    ghost use Rattle.std.specs.Prelude.{List, ℕ, Option};

    ghost Value = { List (List ℕ × Option ℕ) };

    ghost use Rattle.org_tree.specs.Held.{units_of, IsHeld};

    ghost view = { units_of };

    ghost invariant = { IsHeld };
}

impl Tree {
    /// Builds the tree. The units are fewer than 2^32, and no two have one UID.
    pub fn build(alloc: Global, units: &[(Uid, Option<u32>)]) -> Result<Tree, TreeFault>
        requires few { length units.now < 2 ^ 32 }
        requires own_ids { HasOwnIds units.now }
        ensures units { IfOk result (λ tree. tree ≡ units.now) }
        ensures tree { OnOk result (IsTree units.now) }
        ensures none { OnOk result (tree_fault units.now ≡ None) }
        // a fault other than a lack of memory comes exactly where it is the first that the units have
        ensures fault { IfErr result (λ e. (e ≡ fault.Memory) ⊎ (tree_fault units.now ≡ Some e)) }
        // the unit of a loop has a parent however far one goes up
        ensures loop_node { IfErr result (λ e. NeverReaches units.now e) }
    {
        let levels = check(alloc, units)?;
        Ok(filled(alloc, units, levels)?)
    }

    /// The number of units.
    pub fn count(&self) -> u32
        ensures count { result ≡ length self.now }
        ensures tree { IsTree self.now }
    {
        self.units.len() as u32
    }

    /// The unit's level; the root's is 1.
    pub fn level(&self, unit: u32) -> u8
        requires { unit < length self.now }
        ensures level { result ≡ level_of self.now unit }
        ensures rule { result ≡ option_map_or (λ p. level_of self.now p + 1) (parent_of self.now unit) 1 }
    {
        self.levels[unit as usize]
    }

    /// The unit's place in the walk, counted from 0.
    pub fn order(&self, unit: u32) -> u32
        requires { unit < length self.now }
        ensures order { result ≡ order_of self.now unit }
        ensures in_range { result < length self.now }
        ensures behind_parent { IsBehindParent self.now unit }
        ensures behind_elders { IsBehindElders self.now unit }
    {
        self.orders[unit as usize]
    }

    /// The unit at a place of the walk.
    pub fn unit_at(&self, order: u32) -> u32
        requires { order < length self.now }
        ensures unit { order_of self.now result ≡ order }
        ensures in_range { result < length self.now }
    {
        self.walk[order as usize]
    }

    /// The places in the walk of the unit and all under it, the end not counted.
    pub fn interval(&self, unit: u32) -> (u32, u32)
        requires { unit < length self.now }
        ensures first { result.0 ≡ order_of self.now unit }
        ensures end { result.1 ≡ order_of self.now unit + size_of self.now unit }
        ensures members { HasInterval self.now unit result.0 result.1 }
    {
        let order = self.orders[unit as usize];
        (order, order + self.sizes[unit as usize])
    }

    /// Whether unit x is under unit y. A unit is under itself.
    pub fn is_under(&self, x: u32, y: u32) -> bool
        requires x_in { x < length self.now }
        requires y_in { y < length self.now }
        ensures under { result ≡ is_under self.now x y }
        // x is y, or x has a parent and that parent is under y
        ensures rule { result ≡ ((x == y) || option_map_or (λ p. is_under self.now p y) (parent_of self.now x) false) }
    {
        let order = self.orders[x as usize];
        let first = self.orders[y as usize];
        first <= order && order < first + self.sizes[y as usize]
    }

    /// The unit above this one that has the level; a unit counts as its own. `None` where the level
    /// is past the unit's, and at level 0, which no unit has.
    pub fn ancestor_at(&self, unit: u32, level: u8) -> Option<u32>
        requires { unit < length self.now }
        ensures { result ≡ ancestor_of self.now unit level }
    {
        let from = self.levels[unit as usize];
        if level > from {
            return None;
        }
        raised(&self.units, unit, from - level)
    }

    /// The unit's children, ascending by the bytes of their UIDs.
    pub fn children(&self, unit: u32) -> &[u32]
        requires { unit < length self.now }
        ensures { AreChildren self.now unit result.now }
    {
        let span = self.spans[unit as usize];
        &self.kin[span.0 as usize..span.1 as usize]
    }
}

/// Works out all that a tree keeps.
fn filled(alloc: Global, units: &[(Uid, Option<u32>)], levels: Vec<u8>) -> Result<Tree, AllocError>
    requires tree { IsTree units.now }
    requires levels { AreLevels units.now levels.items }
    ensures { IfOk result (λ tree. tree ≡ units.now) }
{
    let kin = families(alloc, units, &levels)?;
    let sizes = sizes(alloc, units)?;
    let orders = orders(alloc, units, &kin, &sizes)?;
    let walk = walk(alloc, units, &orders)?;
    let spans = spans(alloc, units, &kin)?;
    let units = Vec::from_slice(alloc, units)?;
    Ok(Tree {
        units,
        levels,
        orders,
        sizes,
        walk,
        kin,
        spans,
    })
}

/// The unit so many steps above, or `None` where the parents end before.
#[tactic(auto, using(crate::proofs::ClimbLemmas::climbs))]
fn raised(units: &[(Uid, Option<u32>)], unit: u32, steps: u8) -> Option<u32>
    requires parents { HasParents units.now }
    requires in_range { unit < length units.now }
    ensures { result ≡ climb steps units.now unit }
{
    let mut at = unit;
    for _ in 0..steps {
        match parent(units, at) {
            None => return None,
            Some(above) => at = above,
        }
    }
    Some(at)
}
