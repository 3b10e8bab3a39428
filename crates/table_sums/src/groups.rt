//! The groups of an element, by steps from group to group.
ghost use Rattle.std.specs.Prelude.{◌≡◌, ◌<◌, true, length, IfOk};
ghost use Rattle.table_rows.specs.Groups as known;
ghost use Rattle.table_rows.specs.Order.{row_cmp};
ghost use Rattle.table_rows.specs.Store.{rises};
ghost use Rattle.table_sums.specs.Bounds.{NextGroup};

use crate::rows::Rows;
use crate::search::{Bound, place_of};
use crate::steps::Steps;
use dh_base::items::Items;
use dh_base::memory::Memory;
use std::alloc::Global;
use std::sync::ledger::Ledger;
use table_rows::{Group, Row, add_group};

// Adds the group of the row in a place. Where the rows of that group end.
fn next_group<L: Ledger>(
    groups: &mut Vec<Group>,
    rows: &Rows,
    place: usize,
    steps: &mut Steps<L>,
) -> Result<usize, Memory>
    requires rise { rises row_cmp rows.now ≡ true }
    requires within { place < length rows.now }
    ensures { IfOk result (λ next. NextGroup rows.now place groups.old.items groups.new.items next) }
{
    add_group(groups, &rows.row(place, steps), true)?;
    Ok(rows.group_end(place, steps))
}

/// The groups of the element that have a row, in order, each once.
pub fn groups_of<L: Ledger>(
    alloc: Global,
    rows: &Rows,
    element: u32,
    steps: &mut Steps<L>,
) -> Result<Items<Group>, Memory>
    requires { rises row_cmp rows.now ≡ true }
    ensures { IfOk result (λ groups. groups ≡ known.groups_of element rows.now) }
{
    let mut groups: Vec<Group> = Vec::new(alloc);
    let mut place = place_of(rows, &Bound::Element(element), steps);
    let end = place_of(rows, &Bound::UptoElement(element), steps);
    while place < end {
        place = next_group(&mut groups, rows, place, steps)?;
    }
    Ok(Items::from(groups))
}
