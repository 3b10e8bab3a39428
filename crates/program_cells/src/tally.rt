//! The sum of samples that are all whole numbers, found by their places.
ghost use Rattle.std.specs.Prelude.{◌≡◌, ◌<◌, ◌^◌, ◌∷◌, [], ℤ, ℕ, List, Option, Some, pos, unsigned_abs, option_map, option_and_then, IfSome};
ghost use Rattle.std.specs.Option.{option_to_list};
ghost use Rattle.dh_base.specs.Fractions.{Fraction, fraction_of};
ghost use Rattle.program_cells.specs.Code.{gathered};
ghost use Rattle.program_cells.specs.Value.{aggregated};
ghost use Rattle.program_cells.specs.Tally.{taken_at, summed, numbered, tallied};

use crate::samples::{WholeSum, some_of, unless_fault, whole, with_whole};
use dh_base::frac::Frac;
use dh_base::plain::AggType;

/// How many samples there are, all whole numbers, and their sum.
#[derive(Clone, Copy)]
pub(crate) struct Tally {
    sum: WholeSum,
    count: usize,
}

/// A sample more, if it is a whole number and the sum isn't too wide.
#[tactic(auto, using(crate::proofs::TallyLemmas::summed_number, crate::proofs::TallyLemmas::numbered_number))]
fn with_number(tally: &Tally, number: Frac) -> Option<Tally>
    requires { unsigned_abs tally.now.sum.number < 2 ^ 127 }
    ensures sum { (rest : List (Option (List Fraction)))
        → IfSome result (λ next. summed 1 tally.now.sum.number (Some (number ∷ []) ∷ rest) ≡ summed 1 next.sum.number rest) }
    ensures count { (rest : List (Option (List Fraction)))
        → IfSome result (λ next. numbered tally.now.count (Some (number ∷ []) ∷ rest) ≡ numbered next.count rest) }
    ensures fits { IfSome result (λ next. unsigned_abs next.sum.number < 2 ^ 127) }
{
    let sum = with_whole(&tally.sum, number)?;
    let count = tally.count.checked_add(1)?;
    Some(Tally { sum, count })
}

/// What an event gives more: a sample, or none.
#[tactic(auto, using(crate::proofs::TallyLemmas::summed_none, crate::proofs::TallyLemmas::numbered_none))]
fn with_sample(tally: &Tally, sample: Option<Option<Frac>>) -> Option<Tally>
    requires { unsigned_abs tally.now.sum.number < 2 ^ 127 }
    ensures sum { (rest : List (Option (List Fraction)))
        → IfSome result (λ next. summed 1 tally.now.sum.number (option_map option_to_list sample ∷ rest) ≡ summed 1 next.sum.number rest) }
    ensures count { (rest : List (Option (List Fraction)))
        → IfSome result (λ next. numbered tally.now.count (option_map option_to_list sample ∷ rest) ≡ numbered next.count rest) }
    ensures fits { IfSome result (λ next. unsigned_abs next.sum.number < 2 ^ 127) }
{
    match sample {
        Some(Some(number)) => with_number(tally, number),
        Some(None) => Some(*tally),
        None => None,
    }
}

fn with_place(tally: &Tally, samples: &[Option<Option<Frac>>], place: usize) -> Option<Tally>
    requires { unsigned_abs tally.now.sum.number < 2 ^ 127 }
    ensures sum { (rest : List ℕ) → IfSome result (λ next. summed 1 tally.now.sum.number (taken_at (option_map option_to_list) samples.now (place ∷ rest))
        ≡ summed 1 next.sum.number (taken_at (option_map option_to_list) samples.now rest)) }
    ensures count { (rest : List ℕ) → IfSome result (λ next. numbered tally.now.count (taken_at (option_map option_to_list) samples.now (place ∷ rest))
        ≡ numbered next.count (taken_at (option_map option_to_list) samples.now rest)) }
    ensures fits { IfSome result (λ next. unsigned_abs next.sum.number < 2 ^ 127) }
{
    if place < samples.len() {
        with_sample(tally, samples[place])
    } else {
        None
    }
}

/// The samples at these places together, if all are whole numbers.
pub(crate) fn tally_at(samples: &[Option<Option<Frac>>], places: &[usize]) -> Option<Tally>
    ensures sum { IfSome result (λ tally. summed 1 (pos 0) (taken_at (option_map option_to_list) samples.now places.now)
        ≡ Some (fraction_of tally.sum.number 1)) }
    ensures count { IfSome result (λ tally. numbered 0 (taken_at (option_map option_to_list) samples.now places.now) ≡ Some tally.count) }
    ensures fits { IfSome result (λ tally. unsigned_abs tally.sum.number < 2 ^ 127) }
{
    let mut tally = Tally {
        sum: WholeSum { number: 0 },
        count: 0,
    };
    for place in places {
        match with_place(&tally, samples, *place) {
            Some(next) => tally = next,
            None => return None,
        }
    }
    Some(tally)
}

#[tactic(auto, unfolding(crate::specs::Tally::tallied))]
pub(crate) fn tallied(by: AggType, sum: Frac, count: usize) -> Option<Option<Option<Frac>>>
    ensures { result ≡ tallied by sum count }
{
    if count == 0 {
        return Some(Some(None));
    }
    match by {
        AggType::Sum => Some(Some(Some(sum))),
        AggType::Average => Some(some_of(unless_fault(sum.div(whole(count))))),
        AggType::Count => Some(Some(Some(whole(count)))),
        _ => None,
    }
}

/// The one number of the samples at these places by the aggregation type, where their sum and their number tell it and all are whole
/// numbers. No list is made of them.
pub(crate) fn value_by_tally(
    by: AggType,
    samples: &[Option<Option<Frac>>],
    places: &[usize],
) -> Option<Option<Option<Frac>>>
    ensures { IfSome result (λ value. option_and_then (aggregated by) (gathered (taken_at (option_map option_to_list) samples.now places.now)) ≡ value) }
{
    let tally = tally_at(samples, places)?;
    tallied(by, Frac::of(tally.sum.number, 1), tally.count)
}
