//! The groups of rows one after the other, and each row in its group.
ghost use Rattle.std.specs.Prelude.{◌≡◌, ◌-◌, ◌≤◌, ◌<◌, ◌++◌, ◌∷◌, [], true, cond, nat_lt, length, IfOk, OnOk};
ghost use Rattle.dh_base.specs.declared.limits.TheConstants.{MOST_RECORDS};
ghost use Rattle.table_rows.specs.Groups as known;
ghost use Rattle.table_rows.specs.Order.{row_cmp};
ghost use Rattle.table_rows.specs.Rows.{group_of};
ghost use Rattle.table_rows.specs.Store.{rises};
ghost use Rattle.table_sums.specs.Columns.{member_of};
ghost use Rattle.table_sums.specs.Gathered.{IsGathered};

use dh_base::memory::Memory;
use std::alloc::Global;
use table_rows::{Group, Row, add_group};

/// A row without its number and without what all rows of its group share: 12 bytes.
#[derive(Clone, Copy)]
pub(crate) struct Member {
    /// The place of its group.
    pub group: u32,
    pub order: u32,
    pub approved: Option<u8>,
    /// Whether it has a number.
    pub is_plain: bool,
}

/// Groups in the order in which they come, and rows in them.
#[derive(Drop)]
pub(crate) struct Gathered {
    pub groups: Vec<Group>,
    /// Where the rows of each group begin.
    pub starts: Vec<u32>,
    pub members: Vec<Member>,
}

// Where the last group begins, if it was added for the row in this place.
fn put_start(starts: &mut Vec<u32>, groups: usize, place: usize) -> Result<(), Memory>
    requires { place < MOST_RECORDS }
    ensures { OnOk result (starts.new.items
        ≡ cond (nat_lt (length starts.old.items) groups) (starts.old.items ++ place ∷ []) starts.old.items) }
{
    if starts.len() < groups {
        starts.push(place as u32)?;
    }
    Ok(())
}

// Puts the row into the last of the groups.
fn put_member(members: &mut Vec<Member>, row: &Row, groups: usize) -> Result<(), Memory>
    requires some { 0 < groups }
    requires few { groups ≤ MOST_RECORDS }
    ensures { OnOk result (members.new.items ≡ members.old.items ++ member_of row.now (groups - 1) ∷ []) }
{
    members.push(Member {
        group: (groups - 1) as u32,
        order: row.order,
        approved: row.approved,
        is_plain: row.micros.is_some(),
    })?;
    Ok(())
}

fn put_row(gathered: &mut Gathered, row: &Row) -> Result<(), Memory>
    requires groups { length gathered.old.groups.items < MOST_RECORDS }
    requires members { length gathered.old.members.items < MOST_RECORDS }
    ensures groups { OnOk result (gathered.new.groups.items ≡ known.with_group true gathered.old.groups.items (group_of row.now)) }
    ensures starts { OnOk result (gathered.new.starts.items
        ≡ cond (nat_lt (length gathered.old.starts.items) (length gathered.new.groups.items))
        (gathered.old.starts.items ++ length gathered.old.members.items ∷ []) gathered.old.starts.items) }
    ensures members { OnOk result (gathered.new.members.items
        ≡ gathered.old.members.items ++ member_of row.now (length gathered.new.groups.items - 1) ∷ []) }
{
    add_group(&mut gathered.groups, row, true)?;
    let groups = gathered.groups.len();
    put_start(&mut gathered.starts, groups, gathered.members.len())?;
    put_member(&mut gathered.members, row, groups)
}

fn no_rows(alloc: Global, count: usize) -> Result<Gathered, Memory>
    ensures groups { IfOk result (λ gathered. gathered.groups.items ≡ []) }
    ensures starts { IfOk result (λ gathered. gathered.starts.items ≡ []) }
    ensures members { IfOk result (λ gathered. gathered.members.items ≡ []) }
{
    let mut members = Vec::new(alloc);
    members.reserve(count)?;
    Ok(Gathered {
        groups: Vec::new(alloc),
        starts: Vec::new(alloc),
        members,
    })
}

/// These rows in their groups.
pub(crate) fn gather(alloc: Global, rows: &[Row]) -> Result<Gathered, Memory>
    requires rise { rises row_cmp rows.now ≡ true }
    requires few { length rows.now ≤ MOST_RECORDS }
    ensures { IfOk result (λ gathered.
        IsGathered rows.now (length rows.now) gathered.groups.items gathered.starts.items gathered.members.items) }
{
    let mut gathered = no_rows(alloc, rows.len())?;
    for row in rows {
        put_row(&mut gathered, row)?;
    }
    Ok(gathered)
}
