//! The ranges between touched keys. The touched keys in a range of orders are found by search; between them lie the ranges
//! that are asked of the base.
ghost use Rattle.std.specs.Prelude.{◌≡◌, ◌<◌, ◌≤◌, length};
ghost use Rattle.std.specs.List.Sorted.{IsStrictlySortedBy};
ghost use Rattle.table_rows.specs.Rows.{wanted_rows};
ghost use Rattle.table_rows.specs.Sums.{sum_of_rows, joined, IsSized};
ghost use Rattle.table_latest.specs.Keys.{place_cmp, place_at, IsCutAt};
ghost use Rattle.table_latest.specs.Latest.{untouched_rows};
ghost use Rattle.dh_base.specs.declared.limits.TheConstants.{MOST_RECORDS};

use crate::places::RowPlace;
use crate::search::cut_at;
use dh_base::plain::Need;
use table_rows::{Group, RowStore, Sum};

/// How many of the places stand before a group and an order.
pub(crate) fn places_before(places: &[RowPlace], group: &Group, order: u32) -> usize
    requires { IsStrictlySortedBy place_cmp places.now }
    ensures { IsCutAt place_cmp (place_at group.now order) places.now result }
{
    let place = RowPlace {
        group: *group,
        order,
    };
    cut_at(places, &place)
}

// A sum, and with it that of one more range of orders, if any order lies there.
fn with_range<S: RowStore>(
    sum: &Sum,
    base: &S,
    group: &Group,
    need: Need,
    from: u32,
    to: u32,
) -> Sum
    requires size { IsSized sum.now }
    requires few { (joined sum.now (sum_of_rows (wanted_rows group.now need from to (S.rows base.now)))).count ≤ MOST_RECORDS }
    ensures sum { result ≡ joined sum.now (sum_of_rows (wanted_rows group.now need from to (S.rows base.now))) }
    ensures size { IsSized result }
{
    if from < to {
        sum.join(&base.range_sum(*group, need, from, to))
    } else {
        *sum
    }
}

/// The sum of the rows of the group that meet the need, lie in the range of orders and aren't touched, range by range.
pub(crate) fn sum_of_gaps<S: RowStore>(
    base: &S,
    places: &[RowPlace],
    group: &Group,
    need: Need,
    from: u32,
    to: u32,
) -> Sum
    requires places { IsStrictlySortedBy place_cmp places.now }
    requires few { length (untouched_rows places.now (S.rows base.now)) ≤ MOST_RECORDS }
    requires range { from < to }
    ensures sum { result ≡ sum_of_rows (wanted_rows group.now need from to (untouched_rows places.now (S.rows base.now))) }
    ensures size { IsSized result }
{
    let mut sum = Sum::none();
    let mut next = from;
    let low = places_before(places, group, from);
    let high = places_before(places, group, to);
    for i in low..high {
        let order = places[i].order;
        sum = with_range(&sum, base, group, need, next, order);
        next = order + 1;
    }
    with_range(&sum, base, group, need, next, to)
}
