//! Sums and extremes of samples.
ghost use Rattle.std.specs.Prelude.{◌≡◌, ◌≤◌, ◌<◌, ◌+◌, ◌*◌, ◌^◌, ◌+ℤ◌, ◌*ℤ◌, pos, unsigned_abs, length, map};
ghost use Rattle.std.specs.List.{list_any};
ghost use Rattle.table_rows.specs.Samples.{has_number, numbered, number_of, weighted, total};
ghost use Rattle.table_rows.specs.Values.{sum_of_samples, choice_of, left_of, with_choice};
ghost use Rattle.dh_base.specs.declared.limits.TheConstants.{MOST_RECORDS};

use crate::Sum;
use crate::sample::Sample;

/// Whether a sample has a number.
pub(crate) fn any_number(samples: &[Sample]) -> bool
    ensures { result ≡ list_any has_number samples.now }
{
    for sample in samples {
        if sample.micros.is_some() {
            return true;
        }
    }
    false
}

/// The sum of the samples.
pub(crate) fn sum_of(samples: &[Sample]) -> Sum
    requires { length samples.now ≤ MOST_RECORDS }
    ensures sum { result ≡ sum_of_samples samples.now }
    ensures size { unsigned_abs result.micros ≤ 2 ^ 63 * result.count }
    ensures plain { result.plain ≤ result.count }
    ensures few { result.count ≤ MOST_RECORDS }
{
    let mut sum = Sum::none();
    for sample in samples {
        sum = sum.more(sample.micros);
    }
    sum
}

/// The sum of the numbers times the days of their periods.
pub(crate) fn weighted_sum(samples: &[Sample]) -> i128
    requires { length samples.now ≤ MOST_RECORDS }
    ensures sum { result ≡ total weighted (numbered samples.now) }
    ensures size { unsigned_abs result < 2 ^ 127 }
{
    let mut sum = 0i128;
    for sample in samples {
        sum = plus(sum, weight(sample));
    }
    sum
}

fn plus(sum: i128, more: i128) -> i128
    requires sum { unsigned_abs sum ≤ 2 ^ 118 }
    requires more { unsigned_abs more ≤ 2 ^ 95 }
    ensures sum { result ≡ sum +ℤ more }
    ensures size { unsigned_abs result ≤ unsigned_abs sum + 2 ^ 95 }
{
    sum + more
}

#[tactic(auto, using(crate::proofs::TotalLemmas::days_told), unfolding(crate::specs::Samples::days_of))]
fn weight(sample: &Sample) -> i128
    ensures weight { result ≡ weighted sample.now }
    ensures size { unsigned_abs result ≤ 2 ^ 95 }
{
    match sample.micros {
        Some(micros) => times_days(micros, sample.period.days()),
        None => 0,
    }
}

fn times_days(micros: i64, days: u32) -> i128
    ensures value { result ≡ micros *ℤ pos days }
    ensures size { unsigned_abs result ≤ 2 ^ 95 }
{
    i128::from(micros) * i128::from(days)
}

fn with_number(greatest: bool, found: Option<i64>, number: Option<i64>) -> Option<i64>
    ensures { result ≡ with_choice (choice_of greatest) found number }
{
    match number {
        Some(number) => match found {
            Some(found) => {
                if greatest {
                    Some(if found <= number { number } else { found })
                } else {
                    Some(if found <= number { found } else { number })
                }
            }
            None => Some(number),
        },
        None => found,
    }
}

/// The greatest number or the least.
pub(crate) fn extreme(samples: &[Sample], greatest: bool) -> Option<i64>
    ensures { result ≡ left_of (choice_of greatest) (map number_of (numbered samples.now)) }
{
    let mut found = None;
    for sample in samples {
        found = with_number(greatest, found, sample.micros);
    }
    found
}
