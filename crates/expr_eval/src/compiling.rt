//! From the nodes of an expression to its postfix form.

ghost use Rattle.std.specs.Prelude.{◌≡◌, ◌<◌, ◌∷◌, [], ◌++◌, ◌&&◌, List, length, map, slice_get, vec_len, vec_capacity, OnOk, IfOk};
ghost use Rattle.expr_lang.specs.Branches.{shape_in, item_shape, AreSound, AreDifferent};
ghost use Rattle.expr_lang.specs.Expr.{items_in};
ghost use Rattle.expr_lang.specs.declared.tree.Leaf.TheVariants as leaf;
ghost use Rattle.expr_eval.specs.declared.code.Instr.{Instr};
ghost use Rattle.expr_eval.specs.declared.code.Instr.TheVariants as instr;
ghost use Rattle.expr_eval.specs.Applied.{hides_items, plain_items};
ghost use Rattle.expr_eval.specs.Meaning.{can_miss, literal_of};
ghost use Rattle.expr_eval.specs.Given.{index_in};
ghost use Rattle.expr_eval.specs.Code.{asked_instr, asked_code, first_code, argument_count, Codes, binary_code, code_in, codes_of};
ghost use Rattle.expr_eval.specs.Correct.{Means};
ghost use Rattle.expr_eval.specs.Emitted.{takes_list, is_list, hidden_code, operator_code, room_of};

use crate::arithmetic::{literal, zero};
use crate::code::{Instr, Postfix};
use dh_base::memory::Memory;
use expr_lang::{Binary, Branch, Expr, Item, Unary, branch_at};
use std::alloc::Global;

/// The nodes of an expression, and the items in them.
#[derive(Clone, Copy)]
struct Source<'a> {
    items: &'a [Item],
    branches: &'a [Branch],
}

/// The postfix form of an expression, for its list of items.
pub fn compile(alloc: Global, expr: &Expr) -> Result<Postfix, Memory>
    ensures { IfOk result (λ form. Means (items_in expr.now) expr.now.tree form) }
{
    let branches = expr.branches();
    let items = expr.items();
    let mut code = Vec::with_capacity(alloc, branches.len())?;
    let mut plain = Vec::with_capacity(alloc, items.len())?;
    let source = Source { items, branches };
    emit(&mut code, &mut plain, &source, false, branches.len() - 1)?;
    Ok(Postfix { code, plain })
}

/// Makes room for one more instruction.
fn grow(code: &mut Vec<Instr>) -> Result<(), Memory>
    ensures items { code.new.items ≡ code.old.items }
    ensures room { OnOk result (vec_len code.new < vec_capacity code.new) }
{
    code.reserve(1)?;
    Ok(())
}

fn put(code: &mut Vec<Instr>, instr: Instr) -> Result<(), Memory>
    ensures { OnOk result (code.new.items ≡ code.old.items ++ instr ∷ []) }
{
    if code.len() == code.capacity() {
        grow(code)?;
    }
    code.push_reserved(instr);
    Ok(())
}

// What most nodes are is written where it stands by a function of its own, since `put` copies what it is given.

fn put_number(code: &mut Vec<Instr>, millionths: u64) -> Result<(), Memory>
    ensures { OnOk result (code.new.items ≡ code.old.items ++ instr.Number (literal_of millionths) ∷ []) }
{
    if code.len() == code.capacity() {
        grow(code)?;
    }
    code.push_reserved(Instr::Number(literal(millionths)));
    Ok(())
}

fn put_load(code: &mut Vec<Instr>, place: usize) -> Result<(), Memory>
    ensures { OnOk result (code.new.items ≡ code.old.items ++ instr.Load place ∷ []) }
{
    if code.len() == code.capacity() {
        grow(code)?;
    }
    code.push_reserved(Instr::Load(place));
    Ok(())
}

fn put_binary(code: &mut Vec<Instr>, operator: Binary) -> Result<(), Memory>
    ensures { OnOk result (code.new.items ≡ code.old.items ++ instr.Binary operator ∷ []) }
{
    if code.len() == code.capacity() {
        grow(code)?;
    }
    code.push_reserved(Instr::Binary(operator));
    Ok(())
}

fn put_asked(code: &mut Vec<Instr>, wanted: bool, index: usize) -> Result<(), Memory>
    ensures { OnOk result (code.new.items ≡ code.old.items ++ asked_instr wanted index ∷ []) }
{
    if wanted {
        put(code, Instr::Present(index))
    } else {
        put(code, Instr::Absent(index))
    }
}

fn misses(item: &Item) -> bool
    ensures { result ≡ can_miss item.now }
{
    match item {
        Item::Element {
            element: _,
            combo: _,
            attribute: _,
        } => true,
        Item::Rate { set: _, rate: _ } => true,
        _ => false,
    }
}

fn hides(unary: Unary) -> bool
    ensures { result ≡ hides_items unary }
{
    match unary {
        Unary::IsNull | Unary::IsNotNull | Unary::FirstNonNull | Unary::HasValue => true,
        _ => false,
    }
}

/// Lists the item at a place as a plain one if it can be missing.
fn list_item(plain: &mut Vec<usize>, source: &Source<'_>, place: usize) -> Result<(), Memory>
    requires within { place < length source.now.items.now }
    requires different { AreDifferent source.now.items.now }
    ensures { OnOk result (plain.new.items
        ≡ plain.old.items ++ map (index_in source.now.items.now) (plain_items (item_shape (λ i. leaf.Item i) (slice_get source.now.items.now place)))) }
{
    if !misses(&source.items[place]) {
        return Ok(());
    }
    plain.push(place)?;
    Ok(())
}

/// The entry of the item at a place.
fn emit_item(
    code: &mut Vec<Instr>,
    plain: &mut Vec<usize>,
    source: &Source<'_>,
    place: usize,
) -> Result<(), Memory>
    requires within { place < length source.now.items.now }
    requires different { AreDifferent source.now.items.now }
    ensures code { OnOk result (code.new.items
        ≡ code.old.items ++ (codes_of (index_in source.now.items.now) (item_shape (λ i. leaf.Item i) (slice_get source.now.items.now place))).one) }
    ensures plain { OnOk result (plain.new.items
        ≡ plain.old.items ++ map (index_in source.now.items.now) (plain_items (item_shape (λ i. leaf.Item i) (slice_get source.now.items.now place)))) }
{
    list_item(plain, source, place)?;
    put_load(code, place)
}

/// Whether an item is there, or is missing.
fn emit_asked(
    code: &mut Vec<Instr>,
    source: &Source<'_>,
    wanted: bool,
    n: usize,
) -> Result<(), Memory>
    requires within { n < length source.now.branches.now }
    requires sound { AreSound (length source.now.items.now) source.now.branches.now }
    requires different { AreDifferent source.now.items.now }
    ensures { OnOk result (code.new.items ≡ code.old.items ++ asked_code (index_in source.now.items.now) wanted
        (shape_in source.now.items.now source.now.branches.now n)) }
{
    match branch_at(source.items, source.branches, n) {
        Branch::Item(place) => put_asked(code, wanted, place),
        Branch::Day(place) => put_asked(code, wanted, place),
        _ => put(code, Instr::Truth(wanted)),
    }
}

/// The first of a list that isn't missing, from the last to the first.
fn emit_first(code: &mut Vec<Instr>, source: &Source<'_>, n: usize) -> Result<(), Memory>
    requires within { n < length source.now.branches.now }
    requires sound { AreSound (length source.now.items.now) source.now.branches.now }
    requires different { AreDifferent source.now.items.now }
    ensures { OnOk result (code.new.items ≡ code.old.items ++ first_code (index_in source.now.items.now)
        (shape_in source.now.items.now source.now.branches.now n)) }
{
    match branch_at(source.items, source.branches, n) {
        Branch::Binary(binary, left, right) => {
            if is_comma(binary) {
                emit_first(code, source, right)?;
                emit_first(code, source, left)
            } else {
                Ok(())
            }
        }
        Branch::Number(millionths) => put(code, Instr::PreferNumber(literal(millionths))),
        Branch::Item(place) => put(code, Instr::Prefer(place)),
        Branch::Day(_) => Ok(()),
        Branch::Unary(_, _) | Branch::If(_, _, _) => Ok(()),
    }
}

/// How many arguments a list has.
fn count(source: &Source<'_>, n: usize) -> Result<usize, Memory>
    requires within { n < length source.now.branches.now }
    requires sound { AreSound (length source.now.items.now) source.now.branches.now }
    ensures { IfOk result (λ count. count ≡ argument_count (shape_in source.now.items.now source.now.branches.now n)) }
{
    match branch_at(source.items, source.branches, n) {
        Branch::Binary(binary, left, _) => {
            if is_comma(binary) {
                let more = count(source, left)?;
                more.checked_add(1).ok_or(Memory)
            } else {
                Ok(1)
            }
        }
        _ => Ok(1),
    }
}

fn is_comma(binary: Binary) -> bool
    ensures { result ≡ is_list binary }
{
    match binary {
        Binary::Comma => true,
        _ => false,
    }
}

fn takes_list(unary: Unary) -> bool
    ensures { result ≡ takes_list unary }
{
    match unary {
        Unary::Greatest | Unary::Least => true,
        _ => false,
    }
}

/// A call under which no item counts as missing.
fn emit_hidden(
    code: &mut Vec<Instr>,
    source: &Source<'_>,
    unary: Unary,
    operand: usize,
) -> Result<(), Memory>
    requires within { operand < length source.now.branches.now }
    requires sound { AreSound (length source.now.items.now) source.now.branches.now }
    requires different { AreDifferent source.now.items.now }
    ensures { OnOk result (code.new.items ≡ code.old.items ++ hidden_code (index_in source.now.items.now) unary
        (shape_in source.now.items.now source.now.branches.now operand)) }
{
    match unary {
        Unary::IsNull => emit_asked(code, source, false, operand),
        Unary::FirstNonNull => {
            put(code, Instr::Number(zero()))?;
            emit_first(code, source, operand)
        }
        _ => emit_asked(code, source, true, operand),
    }
}

/// What is done to the value or the list that was put.
fn put_operator(
    code: &mut Vec<Instr>,
    source: &Source<'_>,
    unary: Unary,
    operand: usize,
) -> Result<(), Memory>
    requires within { operand < length source.now.branches.now }
    requires sound { AreSound (length source.now.items.now) source.now.branches.now }
    ensures { OnOk result (code.new.items ≡ code.old.items ++ operator_code unary (shape_in source.now.items.now source.now.branches.now operand) ∷ []) }
{
    match unary {
        Unary::Greatest => put(code, Instr::Greatest(count(source, operand)?)),
        Unary::Least => put(code, Instr::Least(count(source, operand)?)),
        operator => put(code, Instr::Unary(operator)),
    }
}

/// Leaves room for the jump over the right operand, where there is one.
fn put_room(code: &mut Vec<Instr>, binary: Binary) -> Result<(), Memory>
    ensures { OnOk result (code.new.items ≡ code.old.items ++ room_of binary) }
{
    match binary {
        Binary::And => put(code, Instr::And(0)),
        Binary::Or => put(code, Instr::Or(0)),
        _ => Ok(()),
    }
}

/// Makes one of both operands, of which the left one begins at `start` and ends at `end`.
fn join(
    code: &mut Vec<Instr>,
    list: bool,
    binary: Binary,
    start: usize,
    end: usize,
) -> Result<(), Memory>
    ensures { (base : List Instr) (left right : Codes) → start ≡ length base → end ≡ length (base ++ code_in (list && is_list binary) left)
        → code.old.items ≡ ((base ++ code_in (list && is_list binary) left) ++ room_of binary) ++ right.one
        → OnOk result (code.new.items ≡ base ++ code_in list (binary_code binary left right)) }
{
    match binary {
        Binary::And => {
            if end < code.len() {
                code[end] = Instr::And(code.len() - end - 1);
            }
            Ok(())
        }
        Binary::Or => {
            if end < code.len() {
                code[end] = Instr::Or(code.len() - end - 1);
            }
            Ok(())
        }
        Binary::Comma => {
            if list {
                return Ok(());
            }
            code.truncate(start);
            put(code, Instr::Number(zero()))
        }
        operator => put_binary(code, operator),
    }
}

/// The form of the tree of a node, as a value or as a list of arguments, and the numbers of its plain items.
fn emit(
    code: &mut Vec<Instr>,
    plain: &mut Vec<usize>,
    source: &Source<'_>,
    list: bool,
    n: usize,
) -> Result<(), Memory>
    requires within { n < length source.now.branches.now }
    requires sound { AreSound (length source.now.items.now) source.now.branches.now }
    requires different { AreDifferent source.now.items.now }
    ensures code { OnOk result (code.new.items ≡ code.old.items ++ code_in list
        (codes_of (index_in source.now.items.now) (shape_in source.now.items.now source.now.branches.now n))) }
    ensures plain { OnOk result (plain.new.items ≡ plain.old.items ++ map (index_in source.now.items.now)
        (plain_items (shape_in source.now.items.now source.now.branches.now n))) }
{
    match branch_at(source.items, source.branches, n) {
        Branch::Number(millionths) => put_number(code, millionths),
        Branch::Item(place) => emit_item(code, plain, source, place),
        Branch::Day(place) => put(code, Instr::LoadDay(place)),
        Branch::Unary(unary, operand) => {
            if hides(unary) {
                emit_hidden(code, source, unary, operand)
            } else {
                emit(code, plain, source, takes_list(unary), operand)?;
                put_operator(code, source, unary, operand)
            }
        }
        Branch::Binary(binary, left, right) => {
            let start = code.len();
            emit(code, plain, source, list && is_comma(binary), left)?;
            let end = code.len();
            put_room(code, binary)?;
            emit(code, plain, source, false, right)?;
            join(code, list, binary, start, end)
        }
        Branch::If(test, one, other) => {
            emit(code, plain, source, false, test)?;
            let test_end = code.len();
            put(code, Instr::SkipUnless(0))?;
            emit(code, plain, source, false, one)?;
            let one_end = code.len();
            put(code, Instr::GoOn(0))?;
            emit(code, plain, source, false, other)?;
            code[test_end] = Instr::SkipUnless(one_end - test_end);
            code[one_end] = Instr::GoOn(code.len() - one_end - 1);
            Ok(())
        }
    }
}
