//! The expression with given nodes, in one pass over them.

ghost use Rattle.std.specs.Prelude.{◌≡◌, ◌↔◌, slice_get, slice_index, Some, None, OnOk, IfOk, IfSome, IfNone, IsTrue, Contains};
ghost use Rattle.expr_lang.specs.Branches.{shape_in};
ghost use Rattle.expr_lang.specs.Build.{built};
ghost use Rattle.expr_lang.specs.Items.{occurrences, ListsOne, Lists};
ghost use Rattle.expr_lang.specs.Making.{mark_of, top_waiting, under_waiting, with_branch, with_unary, with_binary, with_choice, new_making, IsMaking, IsNext};
ghost use Rattle.expr_lang.specs.Making.{IsNextLeaf, IsListed};
ghost use Rattle.expr_lang.specs.Stored.{syntax_of};
ghost use Rattle.expr_lang.specs.Survey.{survey_of};

use crate::days::DayItems;
use crate::expr::Expr;
use crate::reading::{Node, Spot};
use crate::stack::Stack;
use crate::survey::{Known, binary_known, if_known, leaf_at, leaf_known, nothing, unary_known};
use crate::tree::{Binary, Branch, Item, Leaf, Unary};
use dh_base::items::Items;
use dh_base::memory::Memory;
use dh_base::uid::Uid;
use std::alloc::Global;

/// Room for as many operands that wait as most expressions have.
const MOST_WAITING: usize = 16;

/// A whole operand that waits for its operator.
#[derive(Clone, Copy)]
pub struct Waiting {
    pub known: Known,
    pub node: usize,
}

/// What was made of the nodes so far.
#[derive(Drop)]
pub struct Making {
    /// The first one stands for an operand that is missing, which is 0.
    pub branches: Items<Branch>,
    pub items: Items<Item>,
    pub places: Items<usize>,
    pub stack: Stack<Waiting>,
}

fn take(stack: &mut Stack<Waiting>) -> Waiting
    ensures top { result ≡ top_waiting stack.old }
    ensures rest { stack.new ≡ under_waiting stack.old }
{
    match stack.pop() {
        Some(waiting) => waiting,
        None => Waiting {
            known: nothing(),
            node: 0,
        },
    }
}

/// Stands in each caller, which then writes the node where it lies.
#[inline(always)]
fn put(making: &mut Making, known: Known, branch: Branch) -> Result<(), Memory>
    ensures { OnOk result (making.new ≡ with_branch known branch making.old) }
{
    let node = making.branches.len();
    making.branches.push(branch)?;
    making.stack.push(Waiting { known, node })
}

fn put_unary(making: &mut Making, at: usize, unary: Unary) -> Result<(), Memory>
    ensures { OnOk result (making.new ≡ with_unary at unary making.old) }
{
    let operand = take(&mut making.stack);
    let known = unary_known(at, unary, operand.known);
    put(making, known, Branch::Unary(unary, operand.node))
}

fn put_binary(making: &mut Making, at: usize, binary: Binary) -> Result<(), Memory>
    ensures { OnOk result (making.new ≡ with_binary at binary making.old) }
{
    let right = take(&mut making.stack);
    let left = take(&mut making.stack);
    let known = binary_known(at, binary, left.known, right.known);
    put(making, known, Branch::Binary(binary, left.node, right.node))
}

fn put_choice(making: &mut Making, at: usize) -> Result<(), Memory>
    ensures { OnOk result (making.new ≡ with_choice at making.old) }
{
    let other = take(&mut making.stack);
    let one = take(&mut making.stack);
    let test = take(&mut making.stack);
    let known = if_known(at, test.known, one.known, other.known);
    put(making, known, Branch::If(test.node, one.node, other.node))
}

fn last_byte(uid: Uid) -> u8
    ensures { result ≡ slice_index uid 10 }
{
    let bytes = uid.bytes();
    bytes[10]
}

/// The last byte of an identifier of the item. Identifiers that were counted up differ there alone.
fn mark(item: &Item) -> u8
    ensures { result ≡ mark_of item.now }
{
    match item {
        Item::Element {
            element,
            combo: _,
            attribute: _,
        } => last_byte(*element),
        Item::StageElement { stage: _, element } => last_byte(*element),
        Item::Constant(uid) => last_byte(*uid),
        _ => 0,
    }
}

/// Most items that differ are told apart by one byte.
fn is_same(one: &Item, other: &Item, own: u8) -> bool
    requires { own ≡ mark_of other.now }
    ensures { IsTrue result ↔ (one.now ≡ other.now) }
{
    mark(one) == own && one == other
}

/// The place of an item in a list.
fn place_of(items: &[Item], item: &Item) -> Option<usize>
    ensures found { IfSome result (λ k. slice_get items.now k ≡ Some item.now) }
    ensures none { IfNone result (¬ Contains items.now item.now) }
{
    let own = mark(item);
    for n in 0..items.len() {
        if is_same(&items[n], item, own) {
            return Some(n);
        }
    }
    None
}

/// The place of an item among those so far. One that isn't there is put at the end.
#[inline(always)]
fn list(
    items: &mut Items<Item>,
    places: &mut Items<usize>,
    item: &Item,
    at: usize,
) -> Result<usize, Memory>
    ensures found { IfOk result (λ k. slice_get items.new k ≡ Some item.now) }
    ensures listed { OnOk result (ListsOne (Some item.now) at items.old places.old items.new places.new) }
{
    if let Some(place) = place_of(items.as_slice(), item) {
        return Ok(place);
    }
    let place = items.len();
    items.push(*item)?;
    places.push(at)?;
    Ok(place)
}

/// The node that an operand is.
fn branch_of(
    items: &mut Items<Item>,
    places: &mut Items<usize>,
    leaf: &Leaf,
    at: usize,
) -> Result<Branch, Memory>
    ensures { IfOk result (λ branch. IsListed leaf.now at items.old places.old items.new places.new branch) }
{
    match leaf {
        Leaf::Number(number) => Ok(Branch::Number(*number)),
        Leaf::Item(item) => Ok(Branch::Item(list(items, places, item, at)?)),
        Leaf::Day(item) => Ok(Branch::Day(list(items, places, item, at)?)),
    }
}

fn put_leaf(making: &mut Making, at: usize, leaf: &Leaf) -> Result<(), Memory>
    requires { IsMaking making.old }
    ensures { OnOk result (IsNextLeaf at leaf.now making.old making.new) }
{
    let known = leaf_known(at, leaf);
    let branch = branch_of(&mut making.items, &mut making.places, leaf, at)?;
    put(making, known, branch)
}

fn advance(making: &mut Making, text: &[u8], days: &DayItems, spot: Spot) -> Result<(), Memory>
    requires { IsMaking making.old }
    ensures { OnOk result (IsNext text.now days.now spot.at spot.node making.old making.new) }
{
    match spot.node {
        Node::Unary(unary) => put_unary(making, spot.at, unary),
        Node::Binary(binary) => put_binary(making, spot.at, binary),
        Node::If => put_choice(making, spot.at),
        _ => {
            let leaf = leaf_at(text, days, spot.at, spot.node);
            put_leaf(making, spot.at, &leaf)
        }
    }
}

/// Nothing yet, with room for so many nodes. Of the nodes of operators with two operands hardly more than half are items.
fn begin(alloc: Global, count: usize) -> Result<Making, Memory>
    ensures { IfOk result (λ making. making ≡ new_making) }
{
    let mut branches = Vec::with_capacity(alloc, count.saturating_add(1))?;
    branches.push(Branch::Number(0))?;
    let operands = count / 2 + 1;
    Ok(Making {
        branches: Items::from(branches),
        items: Items::from(Vec::with_capacity(alloc, operands)?),
        places: Items::from(Vec::with_capacity(alloc, operands)?),
        stack: Stack::with_room(alloc, MOST_WAITING)?,
    })
}

/// What was made is whole once all nodes were met.
fn finish(mut making: Making) -> (Known, Expr)
    requires { IsMaking making }
    ensures known { result.0 ≡ (top_waiting making.stack).known }
    ensures tree { result.1.tree ≡ syntax_of (shape_in making.items making.branches (top_waiting making.stack).node) }
    ensures items { result.1.items ≡ making.items }
    ensures places { result.1.places ≡ making.places }
{
    let whole = take(&mut making.stack);
    let expr = Expr::new(making.branches, making.items, making.places);
    (whole.known, expr)
}

/// The expression with these nodes, each of which stands after its operands, and what is known of it.
pub fn build(
    alloc: Global,
    text: &[u8],
    days: &DayItems,
    nodes: &[Spot],
) -> Result<(Known, Expr), Memory>
    ensures known { IfOk result (λ made. made.0 ≡ survey_of text.now days.now nodes.now) }
    ensures tree { IfOk result (λ made. made.1.tree ≡ syntax_of (built text.now days.now nodes.now)) }
    ensures items { IfOk result (λ made. Lists (occurrences text.now days.now nodes.now) made.1.items made.1.places) }
{
    let mut making = begin(alloc, nodes.len())?;
    for spot in nodes {
        advance(&mut making, text, days, *spot)?;
    }
    Ok(finish(making))
}
