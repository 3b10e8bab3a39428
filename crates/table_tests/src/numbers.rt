//! Rows of numbers: texts of decimals, fractions printed with so many decimals, and what is done to fractions.

use crate::cells::Cells;
use crate::out::Out;
use dh_base::decimal::read_decimal;
use dh_base::frac::Frac;
use dh_base::plain::NumFault;
use dh_base::print::print_rounded;
use std::cmp::Ordering;

pub fn is_written(out: &mut Out, kind: &str, case: &str) -> bool {
    match kind {
        "decimal" => decimal_row(out, case),
        "rounded" => rounded_row(out, case),
        "fraction" => fraction_row(out, case),
        _ => return false,
    }
    true
}

/// A fraction written as `num/den`.
pub fn fraction(text: &str) -> Option<Frac> {
    let mut cells = Cells(text);
    let num = cells.before('/').parse::<i128>();
    match (num, cells.0.parse::<i128>()) {
        (Ok(num), Ok(den)) => of_parts(num, den),
        _ => None,
    }
}

fn of_parts(num: i128, den: i128) -> Option<Frac> {
    if den <= 0 || num.unsigned_abs() >= 1 << 127 {
        return None;
    }
    Some(Frac::of(num, den))
}

/// Writes a fraction as `num/den`.
pub fn put_fraction(out: &mut Out, value: Frac) {
    out.put_number(value.num());
    out.put(b"/");
    out.put_number(value.den());
}

/// `TEXT`: the millionths that the text writes, or `NONE`.
fn decimal_row(out: &mut Out, case: &str) {
    match read_decimal(case.as_bytes()) {
        Some(micros) => out.put_number(i128::from(micros.value())),
        None => out.put(b"NONE"),
    }
}

/// `NUM/DEN|DECIMALS`: the text of the number with so many decimals.
fn rounded_row(out: &mut Out, case: &str) {
    let mut cells = Cells(case);
    let number = fraction(cells.before('|'));
    match (number, cells.0.parse::<u8>()) {
        (Some(value), Ok(decimals)) => put_rounded(out, value, decimals),
        _ => out.fail(),
    }
}

fn put_rounded(out: &mut Out, value: Frac, decimals: u8) {
    if decimals > 6 {
        return out.fail();
    }
    let text = print_rounded(out.alloc, value, decimals);
    out.put_made(text);
}

/// `OPERATION|LEFT|RIGHT`: the fraction, the order, or the fault.
fn fraction_row(out: &mut Out, case: &str) {
    let mut cells = Cells(case);
    let operation = cells.before('|');
    match fraction(cells.before('|')) {
        Some(left) => put_done(out, operation, left, cells.0),
        None => out.fail(),
    }
}

fn put_done(out: &mut Out, operation: &str, left: Frac, right: &str) {
    match (operation, fraction(right)) {
        ("pow", _) => put_answer(out, power(left, right)),
        ("cmp", Some(right)) => out.put(order_name(left.cmp(right))),
        (_, Some(right)) => put_answer(out, combined(operation, left, right)),
        _ => out.fail(),
    }
}

fn order_name(order: Result<Ordering, NumFault>) -> &'static [u8] {
    match order {
        Ok(Ordering::Less) => b"Less",
        Ok(Ordering::Equal) => b"Equal",
        Ok(Ordering::Greater) => b"Greater",
        Err(fault) => fault_name(fault),
    }
}

fn fault_name(fault: NumFault) -> &'static [u8] {
    match fault {
        NumFault::Wide => b"Wide",
        NumFault::ByZero => b"ByZero",
    }
}

fn put_answer(out: &mut Out, answer: Option<Result<Frac, NumFault>>) {
    match answer {
        Some(Ok(value)) => put_fraction(out, value),
        Some(Err(fault)) => out.put(fault_name(fault)),
        None => out.fail(),
    }
}

fn power(base: Frac, exponent: &str) -> Option<Result<Frac, NumFault>> {
    match exponent.parse::<u32>() {
        Ok(exponent) if exponent <= 64 => Some(base.pow(exponent)),
        _ => None,
    }
}

fn combined(operation: &str, left: Frac, right: Frac) -> Option<Result<Frac, NumFault>> {
    match operation {
        "add" => Some(left.add(right)),
        "sub" => Some(left.sub(right)),
        "mul" => Some(left.mul(right)),
        "div" => Some(left.div(right)),
        "rem" => Some(left.rem(right)),
        _ => None,
    }
}
