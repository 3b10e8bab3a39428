//! The depth and the sorts of an operand, from those of its parts.

ghost use Rattle.std.specs.Prelude.{◌≡◌};
ghost use Rattle.expr_lang.specs.Leaves.{leaf_of_node};
ghost use Rattle.expr_lang.specs.Survey.{same_sort, taken_by_of, given_by_of, taken_by_two, given_by_two, first_of_two, edge_of};
ghost use Rattle.expr_lang.specs.Survey.{one_deeper, edge_if_taken, leaf_known_of, unary_known_of, deeper_of, binary_known_of, if_known_of};
ghost use Rattle.expr_lang.specs.Survey.{nothing_known, misfit_of};

use crate::days::DayItems;
use crate::item::{item_of, leaf_of};
use crate::reading::{Node, rest};
use crate::tree::{Binary, Leaf, Sort, Unary};

/// What is known of a whole operand.
#[derive(Clone, Copy)]
pub struct Known {
    pub depth: u64,
    pub sort: Sort,
    /// The place of its call, operator, item or number.
    pub at: usize,
    /// Whether it is a number that is written out.
    pub literal: bool,
    /// The first place inside of it whose sorts don't fit.
    pub misfit: Option<usize>,
}

fn is_same(a: Sort, b: Sort) -> bool
    ensures { result ≡ same_sort a b }
{
    match (a, b) {
        (Sort::Number, Sort::Number) => true,
        (Sort::Truth, Sort::Truth) => true,
        (Sort::Day, Sort::Day) => true,
        _ => false,
    }
}

/// The operand of a node that stands at a place of the text.
pub fn leaf_at(text: &[u8], days: &DayItems, at: usize, node: Node) -> Leaf
    ensures { result ≡ leaf_of_node text.now days.now at node }
{
    match node {
        Node::Number(number) => Leaf::Number(number),
        Node::Item(form) => match item_of(form, rest(text, at)) {
            Some(item) => leaf_of(item, days),
            None => Leaf::Number(0),
        },
        _ => Leaf::Number(0),
    }
}

/// The sort that an operator takes, where it isn't any, and the one that it gives.
fn sorts_of(unary: Unary) -> (Option<Sort>, Sort)
    ensures taken { result.0 ≡ taken_by_of unary }
    ensures given { result.1 ≡ given_by_of unary }
{
    match unary {
        Unary::Not => (Some(Sort::Truth), Sort::Truth),
        Unary::IsNull | Unary::IsNotNull | Unary::HasValue => (None, Sort::Truth),
        _ => (Some(Sort::Number), Sort::Number),
    }
}

fn sorts_of_binary(binary: Binary) -> (Sort, Sort)
    ensures taken { result.0 ≡ taken_by_two binary }
    ensures given { result.1 ≡ given_by_two binary }
{
    match binary {
        Binary::Or | Binary::And => (Sort::Truth, Sort::Truth),
        Binary::Equal
        | Binary::NotEqual
        | Binary::Less
        | Binary::AtMost
        | Binary::Greater
        | Binary::AtLeast => (Sort::Number, Sort::Truth),
        Binary::DaysBetween => (Sort::Day, Sort::Number),
        _ => (Sort::Number, Sort::Number),
    }
}

fn first(a: Option<usize>, b: Option<usize>) -> Option<usize>
    ensures { result ≡ first_of_two a b }
{
    match (a, b) {
        (Some(x), Some(y)) => Some(x.min(y)),
        (Some(x), None) => Some(x),
        (None, other) => other,
    }
}

/// The first place that doesn't fit where an operand is taken at a sort.
fn edge(at: usize, taken: Sort, operand: Known) -> Option<usize>
    ensures { result ≡ edge_of at taken operand }
{
    if is_same(operand.sort, taken) {
        None
    } else if operand.literal {
        Some(at)
    } else {
        Some(at.min(operand.at))
    }
}

fn edge_at(at: usize, taken: Option<Sort>, operand: Known) -> Option<usize>
    ensures { result ≡ edge_if_taken at taken operand }
{
    match taken {
        Some(sort) => edge(at, sort, operand),
        None => None,
    }
}

pub fn leaf_known(at: usize, leaf: &Leaf) -> Known
    ensures { result ≡ leaf_known_of at leaf.now }
{
    let (sort, literal) = match leaf {
        Leaf::Number(_) => (Sort::Number, true),
        Leaf::Item(_) => (Sort::Number, false),
        Leaf::Day(_) => (Sort::Day, false),
    };
    Known {
        depth: 1,
        sort,
        at,
        literal,
        misfit: None,
    }
}

/// One level deeper, counting up to 513.
fn deepened(depth: u64) -> u64
    ensures { result ≡ one_deeper depth }
{
    if depth < 513 { depth + 1 } else { depth }
}

pub fn unary_known(at: usize, unary: Unary, operand: Known) -> Known
    ensures { result ≡ unary_known_of at unary operand }
{
    let (taken, given) = sorts_of(unary);
    Known {
        depth: deepened(operand.depth),
        sort: given,
        at,
        literal: false,
        misfit: first(edge_at(at, taken, operand), operand.misfit),
    }
}

fn deeper(binary: Binary, depth: u64) -> u64
    ensures { result ≡ deeper_of binary depth }
{
    match binary {
        Binary::Comma => depth,
        _ => deepened(depth),
    }
}

pub fn binary_known(at: usize, binary: Binary, left: Known, right: Known) -> Known
    ensures { result ≡ binary_known_of at binary left right }
{
    let (taken, given) = sorts_of_binary(binary);
    let edges = first(edge(at, taken, left), edge(at, taken, right));
    Known {
        depth: deeper(binary, left.depth.max(right.depth)),
        sort: given,
        at,
        literal: false,
        misfit: first(edges, first(left.misfit, right.misfit)),
    }
}

pub fn if_known(at: usize, test: Known, one: Known, other: Known) -> Known
    ensures { result ≡ if_known_of at test one other }
{
    let numbers = first(edge(at, Sort::Number, one), edge(at, Sort::Number, other));
    let edges = first(edge(at, Sort::Truth, test), numbers);
    let inside = first(test.misfit, first(one.misfit, other.misfit));
    Known {
        depth: deepened(test.depth.max(one.depth).max(other.depth)),
        sort: Sort::Number,
        at,
        literal: false,
        misfit: first(edges, inside),
    }
}

/// What is known of an operand that is missing.
pub fn nothing() -> Known
    ensures { result ≡ nothing_known }
{
    Known {
        depth: 0,
        sort: Sort::Number,
        at: 0,
        literal: false,
        misfit: None,
    }
}

/// The first place that doesn't fit where the whole has to have a sort, or may have any.
pub fn misfit_as(known: Known, wanted: Option<Sort>) -> Option<usize>
    ensures { result ≡ misfit_of known wanted }
{
    match wanted {
        None => known.misfit,
        Some(sort) => {
            if is_same(known.sort, sort) {
                known.misfit
            } else {
                first(known.misfit, Some(known.at))
            }
        }
    }
}
