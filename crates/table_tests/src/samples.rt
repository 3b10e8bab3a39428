//! Rows of samples: one value of them by an aggregation type.

use crate::cells::{Cells, Word, words};
use crate::numbers::put_fraction;
use crate::out::Out;
use dh_base::plain::AggType;
use dh_metadata::names::aggregation_named;
use dh_periods::Period;
use table_rows::{Sample, Series, aggregate, is_sorted};

/// `TYPE|DAYS|SAMPLES`: the value of the samples over so many days, or `-`. A sample is its unit, period
/// and millionths, or `-` for no number.
pub fn total_row(out: &mut Out, case: &str) {
    let mut cells = Cells(case);
    let kind = aggregation_named(cells.before('|').as_bytes());
    match (kind, cells.before('|').parse::<u32>()) {
        (Some(kind), Ok(days)) => put_total(out, kind, days, cells.0),
        _ => out.fail(),
    }
}

fn put_total(out: &mut Out, kind: AggType, days: u32, samples: &str) {
    match words(out.alloc, samples) {
        Some(samples) => put_value(out, kind, days, &samples),
        None => out.fail(),
    }
}

fn put_value(out: &mut Out, kind: AggType, days: u32, samples: &[Sample]) {
    if days == 0 || samples.len() > 1000 || !is_sorted(samples) {
        return out.fail();
    }
    match aggregate(kind, samples, days) {
        Some(value) => put_fraction(out, value),
        None => out.put(b"-"),
    }
}

impl Word for Sample {
    fn of(word: &str) -> Option<Sample> {
        let mut cells = Cells(word);
        let unit = cells.before(':').parse::<u32>();
        match (unit, Period::parse(cells.before(':').as_bytes())) {
            (Ok(unit), Some(period)) => Some(sample(unit, period, cells.0)),
            _ => None,
        }
    }
}

fn sample(unit: u32, period: Period, micros: &str) -> Sample {
    Sample {
        series: Series {
            element: 1,
            combo: 1,
            attribute: 1,
            unit,
        },
        period,
        micros: micros.parse().ok(),
    }
}
