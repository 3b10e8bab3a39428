//! Rows of periods: their texts and days, two of them beside each other, and those that a day names.

use crate::cells::Cells;
use crate::out::Out;
use dh_periods::{Period, civil, relative};

pub fn is_written(out: &mut Out, kind: &str, case: &str) -> bool {
    match kind {
        "period" => period_row(out, case),
        "pair" => pair_row(out, case),
        "relative" => relative_row(out, case),
        _ => return false,
    }
    true
}

/// `TEXT`: type, first and last day, printed text, place among those of its type, number of days and
/// year of the first day, or `NONE`.
fn period_row(out: &mut Out, case: &str) {
    let Some(period) = Period::parse(case.as_bytes()) else {
        return out.put(b"NONE");
    };
    out.put(period.kind().name());
    put_cell(out, period.first());
    put_cell(out, period.last());
    out.put(b"|");
    put_period(out, period);
    put_cell(out, period.ordinal());
    out.put(b"|");
    out.put_number(i128::from(period.days()));
    put_cell(out, period.year());
}

fn put_cell(out: &mut Out, number: i32) {
    out.put(b"|");
    out.put_number(i128::from(number));
}

fn put_period(out: &mut Out, period: Period) {
    let text = period.print(out.alloc);
    out.put_made(text);
}

/// `TEXT|TEXT`: whether the first period comes before the other, and whether it lies in it.
fn pair_row(out: &mut Out, case: &str) {
    let mut cells = Cells(case);
    let one = Period::parse(cells.before('|').as_bytes());
    match (one, Period::parse(cells.0.as_bytes())) {
        (Some(one), Some(other)) => put_pair(out, one, other),
        _ => out.fail(),
    }
}

fn put_pair(out: &mut Out, one: Period, other: Period) {
    if !(one < other) {
        out.put(b"not ");
    }
    out.put(b"before, ");
    if !one.inside(other) {
        out.put(b"not ");
    }
    out.put(b"inside");
}

/// `DATE|NAME`: the day of the date, and the periods that the name stands for on it.
fn relative_row(out: &mut Out, case: &str) {
    let mut cells = Cells(case);
    let day = civil(cells.before('|').as_bytes());
    put_relative(out, day, cells.0);
}

fn put_relative(out: &mut Out, day: Option<i32>, name: &str) {
    let Some(day) = day else {
        return out.put(b"NONE");
    };
    if day < -21_915 || day > 47_481 {
        return out.fail();
    }
    out.put_number(i128::from(day));
    out.put(b"|");
    match relative(out.alloc, name.as_bytes(), day) {
        Ok(Some(periods)) => put_periods(out, &periods),
        Ok(None) => out.put(b"NONE"),
        Err(_) => out.fail(),
    }
}

fn put_periods(out: &mut Out, periods: &[Period]) {
    for i in 0..periods.len() {
        if i > 0 {
            out.put(b";");
        }
        put_period(out, periods[i]);
    }
}
