//! The groups that have a row with the latest part over the base.
ghost use Rattle.std.specs.Prelude.{◌≡◌, ℕ, true, false, All, IfOk};
ghost use Rattle.std.specs.List.{filter, list_all, list_any};
ghost use Rattle.std.specs.List.Sorted.{IsStrictlySortedBy};
ghost use Rattle.table_rows.specs.Groups.{groups_of};
ghost use Rattle.table_rows.specs.Order.{group_cmp};
ghost use Rattle.table_rows.specs.Rows.{is_in_group, wanted_rows};
ghost use Rattle.table_rows.specs.Store.{contents_in};
ghost use Rattle.table_rows.specs.Sums.{sum_of_rows};
ghost use Rattle.table_latest.specs.Keys.{is_among, place_at, place_cmp};
ghost use Rattle.table_latest.specs.Latest.{IsOverlay, is_in_reach, is_kept_group, listed_from, rows_over, touched_rows, untouched_rows};
ghost use Rattle.dh_base.specs.declared.plain.Need.TheVariants as need;

use crate::gaps::places_before;
use crate::latest::Latest;
use crate::merged::merged;
use crate::places::RowPlace;
use crate::search::is_among;
use dh_base::items::Items;
use dh_base::memory::Memory;
use dh_base::plain::Need;
use std::alloc::Global;
use table_rows::{Group, RowStore};
use table_sums::SummedRows;

// Whether one of the places is of the group; where none is found, none is.
fn is_touched(places: &[RowPlace], group: &Group) -> bool
    requires { IsStrictlySortedBy place_cmp places.now }
    ensures { result ≡ false → (order : ℕ) → is_among place_cmp places.now (place_at group.now order) ≡ false }
{
    let at = places_before(places, group, 0);
    at < places.len() && places[at].group == *group
}

// How many rows a store has of the group.
fn count_in<S: RowStore>(store: &S, group: &Group) -> u64
    ensures { result ≡ (sum_of_rows (wanted_rows group.now need.All 0 4294967295 (S.rows store.now))).count }
{
    store.range_sum(*group, Need::All, 0, u32::MAX).count
}

// Whether one of the group's rows in the base isn't touched.
fn has_kept<S: RowStore>(
    base: &S,
    replaced: &SummedRows,
    places: &[RowPlace],
    group: &Group,
) -> bool
    requires places { IsStrictlySortedBy place_cmp places.now }
    requires replaced { replaced.now.rows ≡ touched_rows places.now (S.rows base.now) }
    requires reach { list_all is_in_reach (S.rows base.now) ≡ true }
    requires some { list_any (is_in_group group.now) (S.rows base.now) ≡ true }
    ensures { result ≡ list_any (is_in_group group.now) (untouched_rows places.now (S.rows base.now)) }
{
    if is_touched(places, group) {
        count_in(replaced, group) < count_in(base, group)
    } else {
        true
    }
}

fn is_kept<S: RowStore>(
    base: &S,
    replaced: &SummedRows,
    places: &[RowPlace],
    group: &Group,
    now: &[Group],
) -> bool
    requires places { IsStrictlySortedBy place_cmp places.now }
    requires replaced { replaced.now.rows ≡ touched_rows places.now (S.rows base.now) }
    requires reach { list_all is_in_reach (S.rows base.now) ≡ true }
    requires some { list_any (is_in_group group.now) (S.rows base.now) ≡ true }
    requires rise { IsStrictlySortedBy group_cmp now.now }
    ensures { result ≡ is_kept_group (untouched_rows places.now (S.rows base.now)) now.now group.now }
{
    !is_among(now, group) && has_kept(base, replaced, places, group)
}

// Of the base's groups those that stay and aren't among those of the latest part.
fn kept_groups<S: RowStore>(
    alloc: Global,
    base: &S,
    replaced: &SummedRows,
    places: &[RowPlace],
    groups: &[Group],
    now: &[Group],
) -> Result<Vec<Group>, Memory>
    requires places { IsStrictlySortedBy place_cmp places.now }
    requires replaced { replaced.now.rows ≡ touched_rows places.now (S.rows base.now) }
    requires reach { list_all is_in_reach (S.rows base.now) ≡ true }
    requires some { All (λ group. list_any (is_in_group group) (S.rows base.now) ≡ true) groups.now }
    requires rise { IsStrictlySortedBy group_cmp now.now }
    ensures { IfOk result (λ kept. kept.items ≡ filter (is_kept_group (untouched_rows places.now (S.rows base.now)) now.now) groups.now) }
{
    let mut kept = Vec::new(alloc);
    for group in groups {
        if is_kept(base, replaced, places, group, now) {
            kept.push(*group)?;
        }
    }
    Ok(kept)
}

/// The groups of an element that have a row, in order.
pub(crate) fn groups_over<S: RowStore>(
    alloc: Global,
    base: &S,
    latest: &Latest,
    replaced: &SummedRows,
    element: u32,
) -> Result<Items<Group>, Memory>
    requires over { IsOverlay (listed_from (S.rows base.now) (S.events base.now) (S.regs base.now) (S.built base.now)) latest.now }
    requires replaced { replaced.now.rows ≡ touched_rows latest.now.touched.rows (S.rows base.now) }
    ensures { IfOk result (λ groups. groups ≡ groups_of element (rows_over (contents_in (listed_from (S.rows base.now) (S.events base.now)
        (S.regs base.now) (S.built base.now))) latest.now)) }
{
    let groups = base.groups(alloc, element)?;
    let Items { items: now } = RowStore::groups(latest.store(), alloc, element)?;
    let kept = kept_groups(
        alloc,
        base,
        replaced,
        latest.places(),
        groups.as_slice(),
        &now,
    )?;
    let all = merged(alloc, kept, now)?;
    Ok(Items::from(all))
}
