//! Expressions as text.

ghost use Rattle.std.specs.Prelude.{◌≡◌, ◌++◌, ◌<◌, ◌≤◌, ◌^◌, ◌+◌, [], if◌then◌else◌, OnOk, IfOk, codes, length};
ghost use Rattle.std.specs.Fmt.{decimal};
ghost use Rattle.expr_lang.specs.Print.{decimals_text, number_text, rate_name_of, more_text, named_text, item_text, unary_level_of};
ghost use Rattle.expr_lang.specs.Print.{binary_level_of, before_of, behind_of, inner_level_of, opening_of, between_of, closing_of};
ghost use Rattle.expr_lang.specs.Print.{left_level_of, right_level_of, text_from, IsPrintOf};
ghost use Rattle.expr_lang.specs.Branches.{shape_in, AreSound};
ghost use Rattle.expr_lang.specs.Words.{operator_text_of};

use crate::expr::Expr;
use crate::reading::level;
use crate::tree::{Binary, Branch, Item, Unary, branch_at};
use crate::words::operator_text;
use dh_base::memory::Memory;
use dh_base::plain::Rate;
use dh_base::uid::Uid;
use std::alloc::Global;

/// The text of an expression, with the fewest brackets.
pub fn print(alloc: Global, expr: &Expr) -> Result<Vec<u8>, Memory>
    ensures { IfOk result (λ text. IsPrintOf expr.now.tree text.items) }
{
    let mut out = Vec::new(alloc);
    let branches = expr.branches();
    put_tree(
        alloc,
        &mut out,
        b"",
        0,
        expr.items(),
        branches,
        branches.len() - 1,
    )?;
    Ok(out)
}

/// How tightly an operator binds, and how tightly its operand has to.
fn unary_levels(unary: Unary) -> (u8, u8)
    ensures own { result.0 ≡ unary_level_of unary }
    ensures inner { result.1 ≡ inner_level_of unary }
{
    match unary {
        Unary::Negate | Unary::Not => (6, 6),
        Unary::Power(_) => (7, 8),
        _ => (8, 0),
    }
}

/// The same of two operands. Comparisons form no chains, and other chains group to the left.
fn binary_levels(binary: Binary) -> (u8, u8, u8)
    ensures own { result.0 ≡ binary_level_of binary }
    ensures left { result.1 ≡ left_level_of binary }
    ensures right { result.2 ≡ right_level_of binary }
{
    match (binary, level(binary)) {
        (Binary::DaysBetween, _) => (8, 0, 0),
        (_, 3) => (3, 4, 4),
        (_, own) => (own, own, own + 1),
    }
}

/// What stands before two operands, between them and after them.
fn binary_texts(binary: Binary) -> (&'static [u8], &'static [u8], &'static [u8])
    ensures before { result.0.now ≡ opening_of binary }
    ensures between { result.1.now ≡ between_of binary }
    ensures behind { result.2.now ≡ closing_of binary }
{
    match binary {
        Binary::DaysBetween => (b"d2:daysBetween(", b",", b")"),
        other => (b"", operator_text(other), b""),
    }
}

fn put(out: &mut Vec<u8>, text: &[u8]) -> Result<(), Memory>
    ensures { OnOk result (out.new.items ≡ out.old.items ++ text.now) }
{
    out.extend_from_slice(text)?;
    Ok(())
}

fn before(unary: Unary) -> &'static [u8]
    ensures { result.now ≡ before_of unary }
{
    match unary {
        Unary::Negate => b"-",
        Unary::Not => b"!",
        Unary::Power(_) => b"",
        Unary::IsNull => b"isNull(",
        Unary::IsNotNull => b"isNotNull(",
        Unary::FirstNonNull => b"firstNonNull(",
        Unary::Greatest => b"greatest(",
        Unary::Least => b"least(",
        Unary::HasValue => b"d2:hasValue(",
        Unary::Zing => b"d2:zing(",
        Unary::Oizp => b"d2:oizp(",
    }
}

fn put_behind(out: &mut Vec<u8>, unary: Unary) -> Result<(), Memory>
    ensures { OnOk result (out.new.items ≡ out.old.items ++ behind_of unary) }
{
    match unary {
        Unary::Negate | Unary::Not => Ok(()),
        Unary::Power(exponent) => {
            if exponent < 10 {
                put(out, &[b'^', b'0' + exponent])
            } else {
                put(
                    out,
                    &[b'^', b'0' + exponent / 10 % 10, b'0' + exponent % 10],
                )
            }
        }
        _ => put(out, b")"),
    }
}

/// Puts what stands before the tree at a place, and its text where it has to bind at least so tightly.
fn put_tree(
    alloc: Global,
    out: &mut Vec<u8>,
    start: &[u8],
    least: u8,
    items: &[Item],
    branches: &[Branch],
    n: usize,
) -> Result<(), Memory>
    requires within { n < length branches.now }
    requires sound { AreSound (length items.now) branches.now }
    ensures { OnOk result (out.new.items ≡ out.old.items ++ start.now ++ text_from least (shape_in items.now branches.now n)) }
{
    put(out, start)?;
    match branch_at(items, branches, n) {
        Branch::Number(number) => put_number(alloc, out, number),
        Branch::Item(k) => put_item(out, &items[k]),
        Branch::Day(k) => put_item(out, &items[k]),
        Branch::Unary(unary, operand) => {
            let (own, inner) = unary_levels(unary);
            let inside = own < least;
            put_if(out, inside, b"(")?;
            put_tree(alloc, out, before(unary), inner, items, branches, operand)?;
            put_behind(out, unary)?;
            put_if(out, inside, b")")
        }
        Branch::Binary(binary, left, right) => {
            let (own, least_left, least_right) = binary_levels(binary);
            let (before, between, behind) = binary_texts(binary);
            let inside = own < least;
            put_if(out, inside, b"(")?;
            put_tree(alloc, out, before, least_left, items, branches, left)?;
            put_tree(alloc, out, between, least_right, items, branches, right)?;
            put(out, behind)?;
            put_if(out, inside, b")")
        }
        Branch::If(test, one, other) => {
            put_tree(alloc, out, b"if(", 0, items, branches, test)?;
            put_tree(alloc, out, b",", 0, items, branches, one)?;
            put_tree(alloc, out, b",", 0, items, branches, other)?;
            put(out, b")")
        }
    }
}

fn put_if(out: &mut Vec<u8>, needed: bool, text: &[u8]) -> Result<(), Memory>
    ensures { OnOk result (out.new.items ≡ out.old.items ++ (if needed then text.now else [])) }
{
    if needed { put(out, text) } else { Ok(()) }
}

#[tactic(auto, unfolding(crate::specs::Print::number_text))]
fn put_number(alloc: Global, out: &mut Vec<u8>, millionths: u64) -> Result<(), Memory>
    ensures { OnOk result (out.new.items ≡ out.old.items ++ number_text millionths) }
{
    put_whole(alloc, out, millionths / 1_000_000)?;
    let part = millionths % 1_000_000;
    if part == 0 {
        return Ok(());
    }
    put(out, b".")?;
    put_decimals(out, 6, part)
}

fn put_whole(alloc: Global, out: &mut Vec<u8>, number: u64) -> Result<(), Memory>
    ensures { OnOk result (out.new.items ≡ out.old.items ++ decimal number) }
{
    let text = number.to_string(alloc)?;
    put(out, text.as_bytes())
}

fn unit(places: u8) -> u64
    requires { places ≤ 6 }
    ensures { result ≡ 10 ^ places }
{
    match places {
        0 => 1,
        1 => 10,
        2 => 100,
        3 => 1_000,
        4 => 10_000,
        5 => 100_000,
        _ => 1_000_000,
    }
}

/// The digits of a part after a point, up to the last that isn't 0.
fn put_decimals(out: &mut Vec<u8>, most: u8, part: u64) -> Result<(), Memory>
    requires few { most ≤ 6 }
    requires small { part < 10 ^ most }
    ensures { OnOk result (out.new.items ≡ out.old.items ++ decimals_text most part) }
{
    let mut places = most;
    let mut left = part;
    while places > 0 && left > 0 {
        places -= 1;
        let one = unit(places);
        put(out, &[digit(left / one)])?;
        left %= one;
    }
    Ok(())
}

fn digit(value: u64) -> u8
    requires { value < 10 }
    ensures { result ≡ 48 + value }
{
    b'0' + value as u8
}

fn put_uid(out: &mut Vec<u8>, uid: Uid) -> Result<(), Memory>
    ensures { OnOk result (out.new.items ≡ out.old.items ++ uid) }
{
    put(out, &uid.bytes())
}

fn put_more(out: &mut Vec<u8>, uid: Option<Uid>) -> Result<(), Memory>
    ensures { OnOk result (out.new.items ≡ out.old.items ++ more_text uid) }
{
    match uid {
        Some(uid) => {
            put(out, b".")?;
            put_uid(out, uid)
        }
        None => Ok(()),
    }
}

fn put_named(out: &mut Vec<u8>, name: &[u8], uid: Uid) -> Result<(), Memory>
    ensures { OnOk result (out.new.items ≡ out.old.items ++ named_text name.now uid) }
{
    put(out, name)?;
    put_uid(out, uid)?;
    put(out, b"}")
}

fn rate_name(rate: Rate) -> &'static [u8]
    ensures { result.now ≡ rate_name_of rate }
{
    match rate {
        Rate::Expected => b"EXPECTED_REPORTS",
        Rate::Actual => b"ACTUAL_REPORTS",
        Rate::OnTime => b"ACTUAL_REPORTS_ON_TIME",
        Rate::Reported => b"REPORTING_RATE",
        Rate::ReportedOnTime => b"REPORTING_RATE_ON_TIME",
    }
}

fn put_element(
    out: &mut Vec<u8>,
    element: Uid,
    combo: Option<Uid>,
    attribute: Option<Uid>,
) -> Result<(), Memory>
    ensures { OnOk result (out.new.items ≡ out.old.items ++ codes "#{" ++ element ++ more_text combo ++ more_text attribute ++ codes "}") }
{
    put(out, b"#{")?;
    put_uid(out, element)?;
    put_more(out, combo)?;
    put_more(out, attribute)?;
    put(out, b"}")
}

fn put_rate(out: &mut Vec<u8>, set: Uid, rate: Rate) -> Result<(), Memory>
    ensures { OnOk result (out.new.items ≡ out.old.items ++ codes "R{" ++ set ++ codes "." ++ rate_name_of rate ++ codes "}") }
{
    put(out, b"R{")?;
    put_uid(out, set)?;
    put(out, b".")?;
    put(out, rate_name(rate))?;
    put(out, b"}")
}

#[tactic(auto, unfolding(crate::specs::Print::item_text))]
fn put_item(out: &mut Vec<u8>, item: &Item) -> Result<(), Memory>
    ensures { OnOk result (out.new.items ≡ out.old.items ++ item_text item.now) }
{
    match item {
        Item::Element {
            element,
            combo,
            attribute,
        } => put_element(out, *element, *combo, *attribute),
        Item::Constant(uid) => put_named(out, b"C{", *uid),
        Item::Group(uid) => put_named(out, b"OUG{", *uid),
        Item::Days => put(out, b"[days]"),
        Item::Rate { set, rate } => put_rate(out, *set, *rate),
        // Written like an element with a combination.
        Item::StageElement { stage, element } => put_element(out, *stage, Some(*element), None),
        Item::Attribute(uid) => put_named(out, b"A{", *uid),
        Item::EventDate => put(out, b"V{event_date}"),
        Item::EnrollmentDate => put(out, b"V{enrollment_date}"),
        Item::EventCount => put(out, b"V{event_count}"),
        Item::EnrollmentCount => put(out, b"V{enrollment_count}"),
        Item::EntityCount => put(out, b"V{tei_count}"),
    }
}
