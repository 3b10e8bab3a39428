//! Rows of values, and what they are grouped and ordered by.
ghost use Rattle.std.specs.Prelude.{◌≡◌};
ghost use Rattle.std.specs.Ordering.{is_lt};
ghost use Rattle.table_rows.specs.Rows.{group_of, key_of, position_of, meets, is_in_group, is_wanted, same_place};
ghost use Rattle.table_rows.specs.Order.{row_cmp, key_cmp};

use dh_base::plain::Need;
use dh_periods::Period;
use std::cmp::Ordering;

/// A value in the tables. A unit stands by its order in the tree.
#[derive(Clone, Copy)]
pub struct Row {
    pub element: u32,
    pub combo: u32,
    pub attribute: u32,
    pub period: Period,
    /// The approved position, from 0, where there is one.
    pub approved: Option<u8>,
    pub order: u32,
    /// Its number in millionths, where it has one.
    pub micros: Option<i64>,
}

/// What rows are grouped by. Groups are ordered by these fields.
#[derive(Clone, Copy, PartialEq, Eq, PartialOrd, Ord)]
pub struct Group {
    pub element: u32,
    pub combo: u32,
    pub attribute: u32,
    pub period: Period,
}

/// What rows are ordered by, field by field. It tells a row from all others of a store.
#[derive(Clone, Copy, PartialEq, Eq, PartialOrd, Ord)]
pub struct RowKey {
    pub group: Group,
    /// The approved position, and 256 where there is none.
    pub position: u16,
    pub order: u32,
}

/// An approved position in the order of rows, where none comes last.
pub fn position_of(approved: Option<u8>) -> u16
    ensures { result ≡ position_of approved }
{
    match approved {
        Some(position) => u16::from(position),
        None => 256,
    }
}

/// Whether an approved position meets a need.
pub fn meets(need: Need, approved: Option<u8>) -> bool
    ensures { result ≡ meets need approved }
{
    match need {
        Need::All => true,
        Need::Upto(most) => match approved {
            Some(position) => position <= most,
            None => false,
        },
    }
}

impl RowKey {
    /// How two keys are ordered, as `cmp` says it.
    pub fn compare(&self, other: &RowKey) -> Ordering
        ensures { result ≡ key_cmp self.now other.now }
    {
        self.cmp(other)
    }
}

impl Row {
    /// The group that it is in.
    pub fn group(&self) -> Group
        ensures { result ≡ group_of self.now }
    {
        Group {
            element: self.element,
            combo: self.combo,
            attribute: self.attribute,
            period: self.period,
        }
    }

    /// What it is ordered by.
    pub fn key(&self) -> RowKey
        ensures { result ≡ key_of self.now }
    {
        RowKey {
            group: self.group(),
            position: position_of(self.approved),
            order: self.order,
        }
    }

    /// Whether it stands before the other.
    pub fn is_before(&self, other: &Row) -> bool
        ensures { result ≡ is_lt (row_cmp self.now other.now) }
    {
        self.key().compare(&other.key()).is_lt()
    }

    /// Whether it is in the group.
    pub fn is_in(&self, group: &Group) -> bool
        ensures { result ≡ is_in_group group.now self.now }
    {
        self.group() == *group
    }

    /// Whether both are of one group and of one order.
    pub fn has_place_of(&self, other: &Row) -> bool
        ensures { result ≡ same_place self.now other.now }
    {
        self.is_in(&other.group()) && self.order == other.order
    }

    /// Whether it is in the group, meets the need and lies in the range of orders.
    pub fn is_wanted(&self, group: &Group, need: Need, from: u32, to: u32) -> bool
        ensures { result ≡ is_wanted group.now need from to self.now }
    {
        self.is_in(group) && meets(need, self.approved) && from <= self.order && self.order < to
    }
}
