//! How many rows a store has of an element.
ghost use Rattle.std.specs.Prelude.{◌≡◌, ◌≤◌, length, IfOk};
ghost use Rattle.table_rows.specs.Sums.{sum_over};
ghost use Rattle.offline_replies.specs.Counts.{rows_counted, group_sum};
ghost use Rattle.dh_base.specs.declared.limits.TheConstants.{MOST_RECORDS};

use dh_base::memory::Memory;
use dh_base::plain::Need;
use std::alloc::Global;
use table_rows::{Group, RowStore};

#[tactic(auto, unfolding(crate::specs::Counts::group_sum))]
fn count_group<S: RowStore>(store: &S, group: &Group, end: u32) -> u64
    ensures count { result ≡ (group_sum (S.rows store.now) end group.now).count }
    ensures few { result ≤ MOST_RECORDS }
{
    store.range_sum(*group, Need::All, 0, end).count
}

fn count_groups<S: RowStore>(store: &S, groups: &[Group], end: u32) -> u64
    requires { length groups.now ≤ MOST_RECORDS }
    ensures { result ≡ (sum_over (group_sum (S.rows store.now) end) groups.now).count }
{
    let mut count = 0u64;
    for group in groups {
        count += count_group(store, group, end);
    }
    count
}

/// How many rows there are of an element at the units before this order of the tree.
pub(crate) fn count_rows<S: RowStore>(
    alloc: Global,
    store: &S,
    element: u32,
    end: u32,
) -> Result<u64, Memory>
    ensures { IfOk result (λ count. count ≡ rows_counted element end (S.rows store.now)) }
{
    let groups = store.groups(alloc, element)?;
    Ok(count_groups(store, groups.as_slice(), end))
}
