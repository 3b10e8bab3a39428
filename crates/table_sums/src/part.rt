//! The part of a year.
ghost use Rattle.std.specs.Prelude.{◌≡◌};
ghost use Rattle.table_rows.specs.Store.{contents_in};

use crate::SummedRows;
use std::marker::Model;

/// A year and the store of its rows, events and registrations.
pub struct Partition {
    year: i32,
    store: SummedRows,
}

// By hand, so that it is proved here alone and not in each crate above.
impl Drop for Partition {
    fn drop(self) {
        let Partition { year: _, store: _ } = self;
    }
}

impl Model for Partition {
    ghost use Rattle.table_rows.specs.Store.{contents_in};
    ghost use Rattle.table_sums.specs.YearParts.{YearPart};

    ghost Value = { YearPart };

    ghost view = { λ part. record { year = part.year; contents = contents_in part.store } };
}

impl Partition {
    /// The part of that year.
    pub fn of(year: i32, store: SummedRows) -> Partition
        ensures year { result.year ≡ year }
        ensures contents { result.contents ≡ contents_in store }
    {
        Partition { year, store }
    }

    /// The year.
    pub fn year(&self) -> i32
        ensures { result ≡ self.now.year }
    {
        self.year
    }

    /// The store.
    pub(crate) fn store(&self) -> &SummedRows
        ensures rows { result.now.rows ≡ self.now.contents.rows }
        ensures events { result.now.events ≡ self.now.contents.events }
        ensures regs { result.now.regs ≡ self.now.contents.regs }
    {
        &self.store
    }
}
