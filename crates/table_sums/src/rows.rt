//! Rows in columns, of which a row is read at the cost of a step.
ghost use Rattle.std.specs.Prelude.{◌≡◌, ◌+◌, ◌<◌, ◌≤◌, true, cond, nat_lt, All, map, length, IfOk, get_or};
ghost use Rattle.dh_base.specs.declared.limits.TheConstants.{MOST_RECORDS};
ghost use Rattle.table_rows.specs.declared.row.Row.{Row};
ghost use Rattle.table_rows.specs.Rows.{group_of, position_of};
ghost use Rattle.table_rows.specs.Order.{row_cmp};
ghost use Rattle.table_rows.specs.Store.{rises};
ghost use Rattle.table_sums.specs.Bounds.{is_before, is_group_before, is_place_below, place_after, IsCut, IsSpan};
ghost use Rattle.table_sums.specs.declared.search.Bound.TheVariants as bounds;
ghost use Rattle.table_sums.specs.Columns.{head_from, number_of, row_from, IsKnown};
ghost use Rattle.table_sums.specs.declared.gather.Member.{Member};

use crate::gather::{Member, gather};
use crate::search::{Bound, Span, groups_before};
use crate::steps::Steps;
use dh_base::memory::Memory;
use dh_periods::Period;
use std::alloc::Global;
use std::marker::Model;
use std::sync::ledger::Ledger;
use table_rows::{Group, Row, RowKey, position_of};

// A row without its number.
#[derive(Clone, Copy)]
struct Head {
    element: u32,
    combo: u32,
    attribute: u32,
    period: Period,
    order: u32,
    approved: Option<u8>,
    // whether it has a number
    is_plain: bool,
}

/// A list of rows: the groups that they are in, each row in its group, and its number, or 0 where it has none: 20 bytes a row,
/// beside some 32 for each group.
#[derive(Drop)]
pub struct Rows {
    groups: Vec<Group>,
    /// Where the rows of each group begin.
    starts: Vec<u32>,
    members: Vec<Member>,
    numbers: Vec<i64>,
}

impl Model for Rows {
    ghost use Rattle.std.specs.Prelude.{List};
    ghost use Rattle.table_rows.specs.declared.row.Row.{Row};
    ghost use Rattle.table_sums.specs.Columns.{rows_in, AreColumns};

    ghost Value = { List Row };

    ghost view = { λ rows. rows_in rows.groups.items rows.members.items rows.numbers.items };

    ghost invariant = { λ rows. AreColumns rows.groups.items rows.starts.items rows.members.items rows.numbers.items };
}

// How many rows are of the first so many groups.
fn start_of(starts: &[u32], groups: usize, rows: usize) -> usize
    ensures { result ≡ cond (nat_lt groups (length starts.now)) (get_or starts.now groups 0) rows }
{
    if groups < starts.len() {
        starts[groups] as usize
    } else {
        rows
    }
}

// The next place, where the group stands in this one, and else this place.
fn place_after(groups: &[Group], place: usize, group: &Group) -> usize
    ensures { result ≡ place_after groups.now place group.now }
{
    if place < groups.len() && groups[place] == *group {
        place + 1
    } else {
        place
    }
}

fn is_member_before(member: &Member, key: &RowKey) -> bool
    ensures { result ≡ is_place_below (position_of member.now.approved) member.now.order key.now.position key.now.order }
{
    let position = position_of(member.approved);
    position < key.position || (position == key.position && member.order < key.order)
}

fn head_from(groups: &[Group], member: &Member) -> Head
    requires { member.now.group < length groups.now }
    ensures { result ≡ head_from groups.now member.now }
{
    let group = &groups[member.group as usize];
    Head {
        element: group.element,
        combo: group.combo,
        attribute: group.attribute,
        period: group.period,
        order: member.order,
        approved: member.approved,
        is_plain: member.is_plain,
    }
}

fn head_at(groups: &[Group], members: &[Member], place: usize) -> Head
    requires within { place < length members.now }
    requires known { All (IsKnown (length groups.now)) members.now }
    ensures { (d : Member) → result ≡ head_from groups.now (get_or members.now place d) }
{
    head_from(groups, &members[place])
}

fn row_from(head: &Head, number: i64) -> Row
    ensures { result ≡ row_from head.now number }
{
    Row {
        element: head.element,
        combo: head.combo,
        attribute: head.attribute,
        period: head.period,
        approved: head.approved,
        order: head.order,
        micros: if head.is_plain { Some(number) } else { None },
    }
}

fn numbers_of(alloc: Global, rows: &[Row]) -> Result<Vec<i64>, Memory>
    ensures { IfOk result (λ numbers. numbers.items ≡ map number_of rows.now) }
{
    let mut numbers = Vec::new(alloc);
    numbers.reserve(rows.len())?;
    for row in rows {
        numbers.push(row.micros.unwrap_or(0))?;
    }
    Ok(numbers)
}

impl Rows {
    /// These rows.
    #[tactic(auto, using(crate::proofs::GatherLemmas::gathered))]
    pub fn of(alloc: Global, rows: &[Row]) -> Result<Rows, Memory>
        requires rise { rises row_cmp rows.now ≡ true }
        requires few { length rows.now ≤ MOST_RECORDS }
        ensures { IfOk result (λ kept. kept ≡ rows.now) }
    {
        let numbers = numbers_of(alloc, rows)?;
        let gathered = gather(alloc, rows)?;
        Ok(Rows {
            groups: gathered.groups,
            starts: gathered.starts,
            members: gathered.members,
            numbers,
        })
    }

    /// How many rows are of groups before the bound. It reads no row.
    pub(crate) fn place_by_group(&self, bound: &Bound) -> usize
        ensures { IsCut (λ row. is_group_before bound.now (group_of row)) self.now result }
    {
        let groups = groups_before(self.groups.as_slice(), bound);
        start_of(self.starts.as_slice(), groups, self.members.len())
    }

    /// Where the rows of the group begin and end. It reads no row.
    pub(crate) fn span_of(&self, group: &Group) -> Span
        ensures { IsSpan group.now self.now result.low result.high }
    {
        let key = RowKey {
            group: *group,
            position: 0,
            order: 0,
        };
        let groups = self.groups.as_slice();
        let first = groups_before(groups, &Bound::Key(key));
        let starts = self.starts.as_slice();
        Span {
            low: start_of(starts, first, self.members.len()),
            high: start_of(
                starts,
                place_after(groups, first, group),
                self.members.len(),
            ),
        }
    }

    /// Where the rows of the group end that the row in a place is of, at the cost of a step too.
    pub(crate) fn group_end<L: Ledger>(&self, place: usize, steps: &mut Steps<L>) -> usize
        requires { place < length self.now }
        ensures { (d : Row) → IsCut (is_before (bounds.UptoGroup (group_of (get_or self.now place d)))) self.now result }
    {
        steps.tick();
        let group = self.members[place].group as usize;
        start_of(self.starts.as_slice(), group + 1, self.members.len())
    }

    /// Whether the row in a place, which is of the key's group, stands before the key, at the cost of a step too.
    pub(crate) fn stands_before<L: Ledger>(
        &self,
        place: usize,
        key: &RowKey,
        steps: &mut Steps<L>,
    ) -> bool
        requires { place < length self.now }
        ensures before { (d : Row) → group_of (get_or self.now place d) ≡ key.now.group
            → result ≡ is_before (bounds.Key key.now) (get_or self.now place d) }
        ensures cost { steps.new ≡ steps.old + 1 }
    {
        steps.tick();
        is_member_before(&self.members[place], key)
    }

    /// The row in a place. Besides, only `stands_before` and `group_end` read one.
    pub fn row<L: Ledger>(&self, place: usize, steps: &mut Steps<L>) -> Row
        requires { place < length self.now }
        ensures row { (d : Row) → result ≡ get_or self.now place d }
        ensures cost { steps.new ≡ steps.old + 1 }
    {
        steps.tick();
        let head = head_at(self.groups.as_slice(), self.members.as_slice(), place);
        row_from(&head, self.numbers[place])
    }
}
