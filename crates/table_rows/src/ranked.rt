//! What stands in tables in an order of its own.
ghost use Rattle.std.specs.Prelude.{◌≡◌};
ghost use Rattle.std.specs.Ordering.{is_lt};
ghost use Rattle.std.specs.declared.cmp.Ordering.{Ordering};
ghost use Rattle.table_rows.specs.Store.{rises};

use crate::event::{EventRow, RegRow};
use crate::row::{Group, Row};

/// What stands in an order of its own.
pub trait Ranked {
    /// The order.
    ghost rank: { Self → Self → Ordering };

    /// Whether it stands before the other.
    fn stands_before(&self, other: &Self) -> bool
        ensures { result ≡ is_lt (rank self.now other.now) };
}

impl Ranked for Group {
    ghost use Rattle.table_rows.specs.Order.{group_cmp};

    ghost rank = { group_cmp };

    fn stands_before(&self, other: &Group) -> bool {
        self.cmp(other).is_lt()
    }
}

impl Ranked for Row {
    ghost use Rattle.table_rows.specs.Order.{row_cmp};

    ghost rank = { row_cmp };

    fn stands_before(&self, other: &Row) -> bool {
        self.is_before(other)
    }
}

impl Ranked for EventRow {
    ghost use Rattle.table_rows.specs.Events.{event_cmp};

    ghost rank = { event_cmp };

    fn stands_before(&self, other: &EventRow) -> bool {
        (self.day, self.id).cmp(&(other.day, other.id)).is_lt()
    }
}

impl Ranked for RegRow {
    ghost use Rattle.table_rows.specs.Events.{reg_cmp};

    ghost rank = { reg_cmp };

    fn stands_before(&self, other: &RegRow) -> bool {
        let own = (self.set, (self.period, (self.order, self.attribute)));
        let others = (other.set, (other.period, (other.order, other.attribute)));
        own.cmp(&others).is_lt()
    }
}

impl Ranked for i32 {
    ghost use Rattle.std.specs.Ordering.{int_cmp};

    ghost rank = { int_cmp };

    fn stands_before(&self, other: &i32) -> bool {
        self.cmp(other).is_lt()
    }
}

/// Whether each member stands before the next.
pub fn rise<T: Ranked>(list: &[T]) -> bool
    ensures { result ≡ rises T.rank list.now }
{
    for i in 1..list.len() {
        if !list[i - 1].stands_before(&list[i]) {
            return false;
        }
    }
    true
}
