//! Samples, and the one number that is made of them.

ghost use Rattle.std.specs.Prelude.{◌≡◌, ◌<◌, ◌^◌, ◌+ℤ◌, unsigned_abs, option_map, None, Some, IfSome};
ghost use Rattle.dh_base.specs.Fractions.{add_of, fraction_of, some_if, fits};
ghost use Rattle.program_cells.specs.Value.{whole, unless_fault, sum_of, mean_of, some_of, better, better_if_any, best_from, value_by, aggregated};

use dh_base::frac::Frac;
use dh_base::plain::{AggType, NumFault};
use std::cmp::Ordering;

pub(crate) fn unless_fault(answer: Result<Frac, NumFault>) -> Option<Frac>
    ensures { result ≡ unless_fault answer }
{
    match answer {
        Ok(number) => Some(number),
        Err(_) => None,
    }
}

/// A whole number.
pub(crate) fn whole(count: usize) -> Frac
    ensures { result ≡ whole count }
{
    Frac::of(count as i128, 1)
}

// The first size that does not fit.
const LIMIT: u128 = 1 << 127;

/// A whole number.
#[derive(Clone, Copy)]
pub(crate) struct WholeSum {
    pub number: i128,
}

fn total(sum: &WholeSum, more: i128) -> Option<WholeSum>
    ensures { option_map (λ whole. whole.number) result ≡ some_if (fits (sum.now.number +ℤ more)) (sum.now.number +ℤ more) }
{
    match sum.number.checked_add(more) {
        Some(number) if number.unsigned_abs() < LIMIT => Some(WholeSum { number }),
        _ => None,
    }
}

/// A whole number more, if the sample is one and the sum isn't too wide.
pub(crate) fn with_whole(sum: &WholeSum, sample: Frac) -> Option<WholeSum>
    requires { unsigned_abs sum.now.number < 2 ^ 127 }
    ensures next { IfSome result (λ next. unless_fault (add_of (fraction_of sum.now.number 1) sample) ≡ Some (fraction_of next.number 1)) }
    ensures fits { IfSome result (λ next. unsigned_abs next.number < 2 ^ 127) }
{
    if sample.den() == 1 {
        total(sum, sample.num())
    } else {
        None
    }
}

/// The sum of samples that are all whole numbers, if no sum on the way is too wide. Most samples are whole, and such a sum needs no division.
fn whole_sum(samples: &[Frac]) -> Option<WholeSum>
    ensures sum { IfSome result (λ sum. sum_of samples.now ≡ Some (fraction_of sum.number 1)) }
    ensures fits { IfSome result (λ sum. unsigned_abs sum.number < 2 ^ 127) }
{
    let mut sum = WholeSum { number: 0 };
    for sample in samples {
        match with_whole(&sum, *sample) {
            Some(next) => sum = next,
            None => return None,
        }
    }
    Some(sum)
}

fn sum(samples: &[Frac]) -> Option<Frac>
    ensures { result ≡ sum_of samples.now }
{
    match whole_sum(samples) {
        Some(sum) => Some(Frac::of(sum.number, 1)),
        None => fraction_sum(samples),
    }
}

fn fraction_sum(samples: &[Frac]) -> Option<Frac>
    ensures { result ≡ sum_of samples.now }
{
    let mut sum = Frac::of(0, 1);
    for sample in samples {
        match unless_fault(sum.add(*sample)) {
            Some(next) => sum = next,
            None => return None,
        }
    }
    Some(sum)
}

fn mean(samples: &[Frac]) -> Option<Frac>
    ensures { result ≡ mean_of samples.now }
{
    let sum = sum(samples)?;
    unless_fault(sum.div(whole(samples.len())))
}

fn better(greatest: bool, best: Frac, next: Frac) -> Option<Frac>
    ensures { result ≡ better greatest best next }
{
    match best.cmp(next) {
        Ok(Ordering::Less) => Some(if greatest { next } else { best }),
        Ok(Ordering::Equal) => Some(best),
        Ok(Ordering::Greater) => Some(if greatest { best } else { next }),
        Err(_) => None,
    }
}

fn better_if_any(greatest: bool, best: Option<Frac>, next: Frac) -> Option<Frac>
    ensures { result ≡ better_if_any greatest best next }
{
    match best {
        Some(best) => better(greatest, best, next),
        None => Some(next),
    }
}

/// The greatest or the least, `None` where a comparison is too wide.
fn best(greatest: bool, samples: &[Frac]) -> Option<Option<Frac>>
    ensures { result ≡ best_from greatest None samples.now }
{
    let mut best = None;
    for sample in samples {
        match better_if_any(greatest, best, *sample) {
            Some(next) => best = Some(next),
            None => return None,
        }
    }
    Some(best)
}

pub(crate) fn some_of(number: Option<Frac>) -> Option<Option<Frac>>
    ensures { result ≡ some_of number }
{
    match number {
        Some(number) => Some(Some(number)),
        None => None,
    }
}

fn value_by(by: AggType, samples: &[Frac]) -> Option<Option<Frac>>
    ensures { result ≡ value_by by samples.now }
{
    match by {
        AggType::Sum => some_of(sum(samples)),
        AggType::Average => some_of(mean(samples)),
        AggType::Count => Some(Some(whole(samples.len()))),
        AggType::Min => best(false, samples),
        AggType::Max => best(true, samples),
        _ => Some(None),
    }
}

/// The one number of samples by the aggregation type, if there is a sample; `None` where a number on
/// the way is too wide.
#[tactic(auto, unfolding(crate::specs::Value::aggregated))]
pub(crate) fn aggregate(by: AggType, samples: &[Frac]) -> Option<Option<Frac>>
    ensures { result ≡ aggregated by samples.now }
{
    if samples.len() == 0 {
        Some(None)
    } else {
        value_by(by, samples)
    }
}
