//! Sums over the rows of groups.
ghost use Rattle.std.specs.Prelude.{◌≡◌, ◌≤◌, ◌<◌, ◌+◌, ◌*◌, ◌^◌, ◌+ℤ◌, ◌*ℤ◌, pos, unsigned_abs, length};
ghost use Rattle.dh_sharing.specs.Ranges.{AreApart};
ghost use Rattle.table_rows.specs.Sums.{sum_over, IsSized};
ghost use Rattle.table_rows.specs.Samples.{days_of, total};
ghost use Rattle.table_rows.specs.Values.{mean};
ghost use Rattle.cell_values.specs.Parts.{range_sum, group_sum, group_weight, value_of_totals};
ghost use Rattle.dh_base.specs.declared.limits.TheConstants.{MOST_RECORDS};

use dh_base::frac::Frac;
use dh_base::plain::{AggType, Need};
use dh_periods::Period;
use table_rows::{Group, RowStore, Sum, value_of_sum};

/// The sum over some rows, and the sum of their numbers times the days of their periods.
#[derive(Clone, Copy)]
pub(crate) struct Totals {
    pub sum: Sum,
    pub weighted: i128,
}

fn range_sum<S: RowStore>(store: &S, group: &Group, need: Need, range: (u32, u32)) -> Sum
    ensures sum { result ≡ range_sum (S.rows store.now) need group.now range }
    ensures size { IsSized result }
{
    store.range_sum(*group, need, range.0, range.1)
}

/// The sum over a group's rows that meet the need and lie in the ranges of orders.
fn group_sum<S: RowStore>(store: &S, group: &Group, need: Need, ranges: &[(u32, u32)]) -> Sum
    requires few { length (S.rows store.now) ≤ MOST_RECORDS }
    requires apart { AreApart ranges.now }
    ensures sum { result ≡ group_sum (S.rows store.now) need ranges.now group.now }
    ensures size { IsSized result }
{
    let mut sum = Sum::none();
    for range in ranges {
        let more = range_sum(store, group, need, *range);
        sum = sum.join(&more);
    }
    sum
}

#[tactic(auto, using(table_rows::proofs::TotalLemmas::days_told), unfolding(table_rows::specs::Samples::days_of))]
fn days_of(period: &Period) -> u32
    ensures { result ≡ days_of period.now }
{
    period.days()
}

fn times_days(micros: i128, days: u32) -> i128
    requires { unsigned_abs micros ≤ 2 ^ 85 }
    ensures { result ≡ micros *ℤ pos days }
{
    micros * i128::from(days)
}

fn weight(sum: &Sum, period: &Period) -> i128
    requires { IsSized sum.now }
    ensures weight { result ≡ sum.now.micros *ℤ pos (days_of period.now) }
    ensures size { unsigned_abs result ≤ 2 ^ 95 * sum.now.count }
{
    times_days(sum.micros, days_of(period))
}

fn plus(sum: i128, more: i128) -> i128
    requires sum { unsigned_abs sum ≤ 2 ^ 118 }
    requires more { unsigned_abs more ≤ 2 ^ 118 }
    ensures sum { result ≡ sum +ℤ more }
    ensures size { unsigned_abs result ≤ unsigned_abs sum + unsigned_abs more }
{
    sum + more
}

/// The sums over the rows of some groups.
pub(crate) fn totals_of<S: RowStore>(
    store: &S,
    groups: &[Group],
    need: Need,
    ranges: &[(u32, u32)],
) -> Totals
    requires few { length (S.rows store.now) ≤ MOST_RECORDS }
    requires apart { AreApart ranges.now }
    requires all { (sum_over (group_sum (S.rows store.now) need ranges.now) groups.now).count ≤ MOST_RECORDS }
    ensures sum { result.sum ≡ sum_over (group_sum (S.rows store.now) need ranges.now) groups.now }
    ensures weighted { result.weighted ≡ total (group_weight (S.rows store.now) need ranges.now) groups.now }
    ensures size { IsSized result.sum }
    ensures fits { unsigned_abs result.weighted < 2 ^ 127 }
{
    let mut sum = Sum::none();
    let mut weighted = 0i128;
    for group in groups {
        let more = group_sum(store, group, need, ranges);
        weighted = plus(weighted, weight(&more, &group.period));
        sum = sum.join(&more);
    }
    Totals { sum, weighted }
}

fn mean(micros: i128, count: u64) -> Frac
    requires some { 0 < count }
    requires fits { unsigned_abs micros < 2 ^ 127 }
    ensures { result ≡ mean micros count }
{
    Frac::of(micros, 1_000_000 * i128::from(count))
}

/// The value of a cell from its sums, for the types that need no more.
pub(crate) fn value_of_totals(kind: AggType, totals: &Totals, days: u32) -> Option<Frac>
    requires size { IsSized totals.now.sum }
    requires fits { unsigned_abs totals.now.weighted < 2 ^ 127 }
    requires days { 0 < days }
    ensures { result ≡ value_of_totals kind totals.now.sum totals.now.weighted days }
{
    match kind {
        AggType::AverageSumOrgUnit => {
            if totals.sum.plain == 0 {
                None
            } else {
                Some(mean(totals.weighted, u64::from(days)))
            }
        }
        _ => value_of_sum(kind, &totals.sum),
    }
}
