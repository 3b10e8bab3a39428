//! The units that all items choose together.
ghost use Rattle.std.specs.Prelude.{◌≡◌, ◌<◌, ◌==◌, ◌||◌, filter, length, IfOk};
ghost use Rattle.org_tree.specs.Units.{level_of};
ghost use Rattle.std.specs.List.{list_any, list_all};
ghost use Rattle.query_lang.specs.Walk.{Knows, AreIn, has, walk_of};
ghost use Rattle.query_lang.specs.View.{Covers};
ghost use Rattle.query_lang.specs.Parts.{is_group, is_narrowing};
ghost use Rattle.query_lang.specs.Choice.{bounds_of, is_chosen, narrowed_units, chosen_units};

use crate::part::Part;
use crate::parts::{levels_of, parts_units};
use crate::set::{once, push_if, set_of};
use crate::view::{is_covered, ranges_under};
use dh_base::memory::Memory;
use dh_sharing::ranges::ViewRanges;
use org_tree::tree::Tree;
use std::alloc::Global;
use std::collections::HashSet;

fn names_group(parts: &[Part]) -> bool
    ensures { result ≡ list_any is_group parts.now }
{
    for part in parts {
        if part.is_group() {
            return true;
        }
    }
    false
}

fn names_narrowing(parts: &[Part]) -> bool
    ensures { result ≡ list_any is_narrowing parts.now }
{
    for part in parts {
        if part.is_narrowing() {
            return true;
        }
    }
    false
}

fn only_narrows(parts: &[Part]) -> bool
    ensures { result ≡ list_all is_narrowing parts.now }
{
    for part in parts {
        if !part.is_narrowing() {
            return false;
        }
    }
    true
}

#[tactic(auto, unfolding(crate::specs::Choice::bounds_of), using(crate::proofs::RangeLemmas::parts_in))]
fn bounds_of(alloc: Global, tree: &Tree, views: &[u32], parts: &[Part]) -> Result<Vec<u32>, Memory>
    requires { AreIn (length tree.now) views.now }
    ensures units { IfOk result (λ units. units.items ≡ bounds_of tree.now views.now parts.now) }
    ensures in_range { IfOk result (λ units. AreIn (length tree.now) units.items) }
{
    if only_narrows(parts) {
        return Ok(Vec::from_slice(alloc, views)?);
    }
    parts_units(alloc, tree, views, parts)
}

/// Which units are left: those under a bound, at a level if one is named, in a group if one is named.
#[derive(Clone, Copy)]
struct Narrowing<'a> {
    bounds: &'a [u32],
    levels: &'a [u8],
    /// Whether a group is named.
    grouped: bool,
    members: &'a [u32],
}

#[tactic(auto, unfolding(crate::specs::Choice::is_chosen), using(crate::proofs::SetLemmas::contained))]
fn is_chosen(
    tree: &Tree,
    narrowing: &Narrowing<'_>,
    ranges: &ViewRanges,
    seen: &HashSet<u32>,
    unit: u32,
) -> bool
    requires covers { Covers tree.now narrowing.now.bounds.now ranges.now }
    requires seen { Knows seen.now narrowing.now.members.now }
    requires unit { unit < length tree.now }
    ensures { result ≡ is_chosen tree.now narrowing.now.bounds.now narrowing.now.levels.now narrowing.now.grouped narrowing.now.members.now unit }
{
    is_covered(tree, ranges, narrowing.bounds, unit)
        && (narrowing.levels.len() == 0 || narrowing.levels.contains(&tree.level(unit)))
        && (!narrowing.grouped || seen.contains(&unit))
}

#[tactic(auto, unfolding(crate::specs::Walk::walk_of))]
fn chosen_among(alloc: Global, tree: &Tree, narrowing: &Narrowing<'_>) -> Result<Vec<u32>, Memory>
    requires { AreIn (length tree.now) narrowing.now.bounds.now }
    ensures { IfOk result (λ units. units.items ≡ filter
        (is_chosen tree.now narrowing.now.bounds.now narrowing.now.levels.now narrowing.now.grouped narrowing.now.members.now)
        (walk_of tree.now)) }
{
    let ranges = ranges_under(alloc, tree, narrowing.bounds)?;
    let seen = set_of(alloc, narrowing.members)?;
    let mut found = Vec::new(alloc);
    for order in 0..tree.count() {
        let unit = tree.unit_at(order);
        let passes = is_chosen(tree, narrowing, &ranges, &seen, unit);
        push_if(&mut found, unit, passes)?;
    }
    Ok(found)
}

#[tactic(auto, unfolding(crate::specs::Choice::narrowed_units))]
fn narrowed_units(
    alloc: Global,
    tree: &Tree,
    views: &[u32],
    members: &[u32],
    parts: &[Part],
) -> Result<Vec<u32>, Memory>
    requires { AreIn (length tree.now) views.now }
    ensures { IfOk result (λ units. units.items ≡ narrowed_units tree.now views.now members.now parts.now) }
{
    let bounds = bounds_of(alloc, tree, views, parts)?;
    let levels = levels_of(alloc, parts)?;
    let narrowing = Narrowing {
        bounds: &bounds,
        levels: &levels,
        grouped: names_group(parts),
        members,
    };
    chosen_among(alloc, tree, &narrowing)
}

/// The units of a query, where the groups that it names have these members.
#[tactic(auto, unfolding(crate::specs::Choice::chosen_units, crate::specs::Choice::listed_units))]
pub fn chosen_units(
    alloc: Global,
    tree: &Tree,
    views: &[u32],
    members: &[u32],
    parts: &[Part],
) -> Result<Vec<u32>, Memory>
    requires { AreIn (length tree.now) views.now }
    ensures { IfOk result (λ units. units.items ≡ chosen_units tree.now views.now members.now parts.now) }
{
    if names_narrowing(parts) {
        narrowed_units(alloc, tree, views, members, parts)
    } else {
        let all = parts_units(alloc, tree, views, parts)?;
        once(alloc, &all)
    }
}
