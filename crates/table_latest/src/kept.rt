//! The sum of the base's rows that a latest part doesn't touch.
ghost use Rattle.std.specs.Prelude.{◌≡◌, ◌≤◌, ◌<◌, true, false, length, IfSome, IfNone};
ghost use Rattle.table_rows.specs.Rows.{wanted_rows};
ghost use Rattle.table_rows.specs.declared.sum.Sum.{Sum};
ghost use Rattle.table_rows.specs.Sums.{sum_of_rows, joined, IsSized};
ghost use Rattle.table_latest.specs.Latest.{touched_rows, untouched_rows};
ghost use Rattle.dh_base.specs.declared.limits.TheConstants.{MOST_RECORDS};

use crate::gaps::sum_of_gaps;
use crate::latest::Latest;
use dh_base::plain::Need;
use table_rows::{Group, RowStore, Sum};
use table_sums::SummedRows;

/// What a row's number is at most, without its sign.
const MOST_MICROS: i128 = 9_223_372_036_854_775_808;

/// Which rows are asked for: of a group, those that meet a need and lie in a range of orders.
#[derive(Clone, Copy)]
pub(crate) struct Asked {
    pub group: Group,
    pub need: Need,
    pub from: u32,
    pub to: u32,
}

// Whether it is no larger than so many rows can be.
fn is_sized(sum: &Sum) -> bool
    requires { sum.now.count ≤ MOST_RECORDS }
    ensures sized { result ≡ true → IsSized sum.now }
    ensures larger { result ≡ false → ¬ IsSized sum.now }
{
    let most = MOST_MICROS * i128::from(sum.count);
    -most <= sum.micros && sum.micros <= most && sum.plain <= sum.count
}

// What a part leaves of a sum, if that is no larger than so many rows can be.
fn without(all: &Sum, part: &Sum) -> Option<Sum>
    requires all { IsSized all.now }
    requires part { IsSized part.now }
    requires count { part.now.count ≤ all.now.count }
    requires plain { part.now.plain ≤ all.now.plain }
    ensures left { IfSome result (λ left. joined left part.now ≡ all.now) }
    ensures size { IfSome result IsSized }
    ensures none { IfNone result ((left : Sum) → joined left part.now ≡ all.now → ¬ IsSized left) }
{
    let left = Sum {
        micros: all.micros - part.micros,
        count: all.count - part.count,
        plain: all.plain - part.plain,
    };
    if is_sized(&left) { Some(left) } else { None }
}

/// The sum of the rows that are asked for and aren't touched: that of the base's rows without that of the replaced ones. No
/// clause of a store bounds the number of a single row; so whether what is left is no larger than so many rows can be is
/// tested, and where it weren't, the ranges between the touched keys would be summed.
pub(crate) fn kept_sum<S: RowStore>(
    base: &S,
    latest: &Latest,
    replaced: &SummedRows,
    asked: &Asked,
) -> Sum
    requires few { length (untouched_rows latest.now.touched.rows (S.rows base.now)) ≤ MOST_RECORDS }
    requires replaced { replaced.now.rows ≡ touched_rows latest.now.touched.rows (S.rows base.now) }
    requires range { asked.now.from < asked.now.to }
    ensures sum { result ≡ sum_of_rows (wanted_rows asked.now.group asked.now.need asked.now.from asked.now.to
        (untouched_rows latest.now.touched.rows (S.rows base.now))) }
    ensures size { IsSized result }
{
    let all = base.range_sum(asked.group, asked.need, asked.from, asked.to);
    let part = RowStore::range_sum(replaced, asked.group, asked.need, asked.from, asked.to);
    match without(&all, &part) {
        Some(left) => left,
        None => sum_of_gaps(
            base,
            latest.places(),
            &asked.group,
            asked.need,
            asked.from,
            asked.to,
        ),
    }
}
