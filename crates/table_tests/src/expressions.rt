//! Rows of expressions: what is read of them, and their values.

use crate::cells::{Cells, Word, words};
use crate::numbers::{fraction, put_fraction};
use crate::out::Out;
use dh_base::frac::Frac;
use dh_base::plain::Strategy;
use dh_base::uid::Uid;
use dh_metadata::names::strategy_named;
use expr_eval::{Postfix, Value, compile, eval};
use expr_lang::{DayItems, Expr, ExprFault, Place, Sort};
use expr_text::{parse, parse_sorted, print};
use std::alloc::Global;

pub fn is_written(out: &mut Out, kind: &str, case: &str) -> bool {
    match kind {
        "expression" => expression_row(out, case),
        "value" => value_row(out, case),
        _ => return false,
    }
    true
}

fn place_named(name: &str) -> Option<Place> {
    match name {
        "agg" => Some(Place::Aggregate),
        "prog" => Some(Place::Program),
        _ => None,
    }
}

fn sort_named(name: &str) -> Option<Sort> {
    match name {
        "number" => Some(Sort::Number),
        "truth" => Some(Sort::Truth),
        "day" => Some(Sort::Day),
        _ => None,
    }
}

// The element and attribute whose values are days.
fn days(alloc: Global) -> Option<DayItems> {
    let day_id = Uid::parse(b"DeDate00001")?;
    DayItems::of(alloc, &[day_id]).ok()
}

/// `PLACE|SORT|TEXT`: `Ok` and the printed text, or the fault and its byte. The sort is `any` where none
/// is asked for.
fn expression_row(out: &mut Out, case: &str) {
    let mut cells = Cells(case);
    let place = place_named(cells.before('|'));
    let sort = sort_named(cells.before('|'));
    match place {
        Some(place) => put_form(out, place, sort, cells.0.as_bytes()),
        None => out.fail(),
    }
}

fn put_form(out: &mut Out, place: Place, sort: Option<Sort>, text: &[u8]) {
    match days(out.alloc) {
        Some(days) => put_read(out, read(out.alloc, place, sort, text, &days)),
        None => out.fail(),
    }
}

fn read(
    alloc: Global,
    place: Place,
    sort: Option<Sort>,
    text: &[u8],
    days: &DayItems,
) -> Result<Expr, ExprFault> {
    match sort {
        Some(sort) => parse_sorted(alloc, text, place, days, sort),
        None => parse(alloc, text, place, days),
    }
}

fn put_read(out: &mut Out, read: Result<Expr, ExprFault>) {
    match read {
        Ok(expr) => put_expr(out, &expr),
        Err(ExprFault::Syntax { at }) => put_fault(out, b"Syntax ", at),
        Err(ExprFault::TooDeep { at }) => put_fault(out, b"TooDeep ", at),
        Err(ExprFault::Sort { at }) => put_fault(out, b"Sort ", at),
        Err(ExprFault::Memory) => out.fail(),
    }
}

fn put_expr(out: &mut Out, expr: &Expr) {
    out.put(b"Ok ");
    let text = print(out.alloc, expr);
    out.put_made(text);
}

fn put_fault(out: &mut Out, name: &[u8], at: usize) {
    out.put(name);
    out.put_number(at as i128);
}

/// `PLACE|STRATEGY|ENTRIES|TEXT`: the value of the expression, or why it has none. An entry is a fraction
/// or `-`, and entries stand in the order of the items' first occurrences.
fn value_row(out: &mut Out, case: &str) {
    let mut cells = Cells(case);
    let place = place_named(cells.before('|'));
    let strategy = strategy_named(cells.before('|').as_bytes());
    let entries = cells.before('|');
    let value = match (place, strategy) {
        (Some(place), Some(strategy)) => { value_of(out.alloc, cells.0, place, entries, strategy) }
        _ => None,
    };
    match value {
        Some(value) => put_value(out, value),
        None => out.fail(),
    }
}

fn value_of(
    alloc: Global,
    text: &str,
    place: Place,
    entries: &str,
    strategy: Strategy,
) -> Option<Value> {
    match form_of(alloc, text, place) {
        Some(form) => evaluated(alloc, &form, entries, strategy),
        None => None,
    }
}

fn form_of(alloc: Global, text: &str, place: Place) -> Option<Postfix> {
    let days = DayItems::none(alloc);
    match parse(alloc, text.as_bytes(), place, &days) {
        Ok(expr) => compile(alloc, &expr).ok(),
        Err(_) => None,
    }
}

fn evaluated(alloc: Global, form: &Postfix, entries: &str, strategy: Strategy) -> Option<Value> {
    match words(alloc, entries) {
        Some(entries) => eval(alloc, form, &entries, strategy).ok(),
        None => None,
    }
}

impl Word for Option<Frac> {
    fn of(word: &str) -> Option<Option<Frac>> {
        if word == "-" {
            return Some(None);
        }
        Some(Some(fraction(word)?))
    }
}

fn put_value(out: &mut Out, value: Value) {
    match value {
        Value::Number(number) => put_fraction(out, number),
        Value::Truth(true) => out.put(b"true"),
        Value::Truth(false) => out.put(b"false"),
        Value::Missing => out.put(b"Missing"),
        Value::Wide => out.put(b"Wide"),
        Value::ByZero => out.put(b"ByZero"),
    }
}
