//! The keys of rows and of registrations.
ghost use Rattle.std.specs.Prelude.{◌≡◌};
ghost use Rattle.table_latest.specs.Keys as known;

use dh_periods::Period;
use table_rows::{Group, RegRow, Row};

/// A group and a unit's order in the tree, by which a store has at most one row. Ordered by these fields.
#[derive(Clone, Copy, PartialEq, Eq, PartialOrd, Ord)]
pub struct RowPlace {
    pub group: Group,
    pub order: u32,
}

/// What tells a registration from all others. Ordered by these fields.
#[derive(Clone, Copy, PartialEq, Eq, PartialOrd, Ord)]
pub struct RegPlace {
    pub set: u32,
    pub period: Period,
    pub order: u32,
    pub attribute: u32,
}

/// The key of a row.
pub fn place_of(row: &Row) -> RowPlace
    ensures { result ≡ known.place_of row.now }
{
    RowPlace {
        group: row.group(),
        order: row.order,
    }
}

/// The key of a registration.
pub fn reg_place_of(reg: &RegRow) -> RegPlace
    ensures { result ≡ known.reg_place_of reg.now }
{
    RegPlace {
        set: reg.set,
        period: reg.period,
        order: reg.order,
        attribute: reg.attribute,
    }
}
