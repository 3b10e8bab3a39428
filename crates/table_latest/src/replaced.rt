//! The base's rows of the touched keys, as a store of their own.
ghost use Rattle.std.specs.Prelude.{◌≡◌, ◌∷◌, [], true, IfOk};
ghost use Rattle.std.specs.List.{list_all};
ghost use Rattle.std.specs.List.Sorted.{IsStrictlySortedBy};
ghost use Rattle.table_rows.specs.Order.{row_cmp};
ghost use Rattle.table_rows.specs.Store.{rises};
ghost use Rattle.table_latest.specs.Keys.{place_cmp};
ghost use Rattle.table_latest.specs.Latest.{is_in_reach, touched_rows};

use crate::latest::store_of;
use crate::merged::merged;
use crate::places::RowPlace;
use dh_base::items::Items;
use dh_base::memory::Memory;
use dh_base::plain::Need;
use std::alloc::Global;
use table_rows::{Row, RowStore};
use table_sums::SummedRows;

// The base's row of a place, if it has one.
fn row_at<S: RowStore>(alloc: Global, base: &S, place: &RowPlace) -> Result<Vec<Row>, Memory>
    requires { list_all is_in_reach (S.rows base.now) ≡ true }
    ensures { IfOk result (λ rows. rows.items ≡ touched_rows (place.now ∷ []) (S.rows base.now)) }
{
    if place.order < u32::MAX {
        let Items { items } = base.rows_of(
            alloc,
            place.group,
            Need::All,
            place.order,
            place.order + 1,
        )?;
        Ok(items)
    } else {
        Ok(Vec::new(alloc))
    }
}

// The base's rows of some places in their order. They are brought into it by halves, since places don't stand in the order
// of approved positions.
fn rows_at<S: RowStore>(alloc: Global, base: &S, places: &[RowPlace]) -> Result<Vec<Row>, Memory>
    requires order { IsStrictlySortedBy place_cmp places.now }
    requires rise { rises row_cmp (S.rows base.now) ≡ true }
    requires reach { list_all is_in_reach (S.rows base.now) ≡ true }
    ensures { IfOk result (λ rows. rows.items ≡ touched_rows places.now (S.rows base.now)) }
{
    if places.len() == 0 {
        return Ok(Vec::new(alloc));
    }
    if places.len() == 1 {
        return row_at(alloc, base, &places[0]);
    }
    let (front, back) = places.split_at(places.len() / 2);
    let first = rows_at(alloc, base, front)?;
    let more = rows_at(alloc, base, back)?;
    let rows = merged(alloc, first, more)?;
    Ok(rows)
}

/// The store of the base's rows of these places.
pub(crate) fn store_at<S: RowStore>(
    alloc: Global,
    base: &S,
    places: &[RowPlace],
) -> Result<SummedRows, Memory>
    requires order { IsStrictlySortedBy place_cmp places.now }
    requires reach { list_all is_in_reach (S.rows base.now) ≡ true }
    ensures { IfOk result (λ store. store.rows ≡ touched_rows places.now (S.rows base.now)) }
{
    let _years = base.years();
    let rows = rows_at(alloc, base, places)?;
    store_of(alloc, &rows)
}
