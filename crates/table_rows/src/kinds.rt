//! The value of samples by an aggregation type.
ghost use Rattle.std.specs.Prelude.{◌≡◌, ◌≤◌, ◌<◌, ◌*◌, ◌^◌, IsTrue, unsigned_abs, length, map, option_map};
ghost use Rattle.dh_base.specs.Fractions.{of_micros};
ghost use Rattle.table_rows.specs.Samples.{in_series_order, numbered, number_of, weighted, total, outermost, series_of};
ghost use Rattle.table_rows.specs.Values.{value_by, value_of_sum, mean, if_any, choice_of, left_of, sum_of_samples};
ghost use Rattle.table_rows.specs.Ends.{order_of};
ghost use Rattle.dh_base.specs.declared.limits.TheConstants.{MOST_RECORDS};

use crate::Sum;
use crate::ends::{End, outermost};
use crate::sample::Sample;
use crate::sums::{any_number, extreme, sum_of, weighted_sum};
use dh_base::frac::Frac;
use dh_base::plain::AggType;

fn of_micros(micros: i128) -> Frac
    requires { unsigned_abs micros < 2 ^ 127 }
    ensures { result ≡ of_micros micros }
{
    Frac::of(micros, 1_000_000)
}

fn mean(micros: i128, count: u64) -> Frac
    requires some { 0 < count }
    requires fits { unsigned_abs micros < 2 ^ 127 }
    ensures { result ≡ mean micros count }
{
    Frac::of(micros, 1_000_000 * i128::from(count))
}

/// The value of rows by their sum, for the types SUM, AVERAGE and COUNT. There is none for other
/// types, and where no row counts.
pub fn value_of_sum(kind: AggType, sum: &Sum) -> Option<Frac>
    requires size { unsigned_abs sum.now.micros ≤ 2 ^ 63 * sum.now.count }
    requires few { sum.now.count ≤ 2 ^ 62 }
    ensures { result ≡ value_of_sum kind sum.now }
{
    match kind {
        AggType::Sum => {
            if sum.plain == 0 {
                None
            } else {
                Some(of_micros(sum.micros))
            }
        }
        AggType::Average => {
            if sum.plain == 0 {
                None
            } else {
                Some(mean(sum.micros, sum.plain))
            }
        }
        AggType::Count => {
            if sum.count == 0 {
                None
            } else {
                Some(Frac::of(i128::from(sum.count), 1))
            }
        }
        _ => None,
    }
}

fn value_by_sum(kind: AggType, samples: &[Sample]) -> Option<Frac>
    requires { length samples.now ≤ MOST_RECORDS }
    ensures { result ≡ value_of_sum kind (sum_of_samples samples.now) }
{
    value_of_sum(kind, &sum_of(samples))
}

fn over_days(samples: &[Sample], days: u32) -> Option<Frac>
    requires few { length samples.now ≤ MOST_RECORDS }
    requires days { 0 < days }
    ensures { result ≡ if_any (numbered samples.now) (mean (total weighted (numbered samples.now)) days) }
{
    if any_number(samples) {
        Some(mean(weighted_sum(samples), u64::from(days)))
    } else {
        None
    }
}

// The sum over the sample of each series that counts.
fn sum_of_ends(samples: &[Sample], end: End) -> Option<Frac>
    requires few { length samples.now ≤ MOST_RECORDS }
    requires ordered { IsTrue (in_series_order samples.now) }
    ensures { result ≡ if_any (numbered samples.now) (of_micros (total number_of (outermost (order_of end) (numbered samples.now)))) }
{
    let found = outermost(samples, end)?;
    Some(of_micros(found.micros))
}

// Their mean.
fn mean_of_ends(samples: &[Sample], end: End) -> Option<Frac>
    requires few { length samples.now ≤ MOST_RECORDS }
    requires ordered { IsTrue (in_series_order samples.now) }
    ensures { result ≡ if_any (numbered samples.now)
        (mean (total number_of (outermost (order_of end) (numbered samples.now))) (length (series_of (numbered samples.now)))) }
{
    let found = outermost(samples, end)?;
    Some(mean(found.micros, found.series))
}

// The greatest number or the least.
fn extreme_value(samples: &[Sample], greatest: bool) -> Option<Frac>
    ensures { result ≡ option_map of_micros (left_of (choice_of greatest) (map number_of (numbered samples.now))) }
{
    let micros = extreme(samples, greatest)?;
    Some(of_micros(i128::from(micros)))
}

/// The value of the samples by the aggregation type, `days` being the days of the periods that are
/// asked for. There is none where no sample counts: one without a number counts for COUNT alone.
#[tactic(auto, unfolding(crate::specs::Values::value_by))]
pub fn aggregate(kind: AggType, samples: &[Sample], days: u32) -> Option<Frac>
    requires few { length samples.now ≤ MOST_RECORDS }
    requires ordered { IsTrue (in_series_order samples.now) }
    requires days { 0 < days }
    ensures { result ≡ value_by kind samples.now days }
{
    match kind {
        AggType::Sum => value_by_sum(AggType::Sum, samples),
        AggType::Average => value_by_sum(AggType::Average, samples),
        AggType::AverageSumOrgUnit => over_days(samples, days),
        AggType::Last => sum_of_ends(samples, End::Last),
        AggType::First => sum_of_ends(samples, End::First),
        AggType::LastAverageOrgUnit => mean_of_ends(samples, End::Last),
        AggType::FirstAverageOrgUnit => mean_of_ends(samples, End::First),
        AggType::Count => value_by_sum(AggType::Count, samples),
        AggType::Min => extreme_value(samples, false),
        AggType::Max => extreme_value(samples, true),
        AggType::None => None,
    }
}
