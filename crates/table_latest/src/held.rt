//! What tables hold, and whether a latest part touches it.
ghost use Rattle.std.specs.Prelude.{◌≡◌, Bool};
ghost use Rattle.table_latest.specs.Latest.{Touched};

use crate::latest::Latest;
use crate::places::place_of;
use crate::search::is_among;
use table_rows::{RegRow, Row};

/// What has a key that a latest part may touch.
pub(crate) trait Keyed {
    ghost touched: { Touched → Self → Bool };

    fn is_touched(&self, latest: &Latest) -> bool
        ensures { result ≡ touched latest.now.touched self.now };
}

impl Keyed for Row {
    ghost use Rattle.table_latest.specs.Latest.{is_row_touched};

    ghost touched = { is_row_touched };

    fn is_touched(&self, latest: &Latest) -> bool {
        is_among(latest.places(), &place_of(self))
    }
}

impl Keyed for RegRow {
    ghost use Rattle.table_latest.specs.Latest.{is_reg_touched};

    ghost touched = { is_reg_touched };

    fn is_touched(&self, latest: &Latest) -> bool {
        latest.touches_reg(self)
    }
}
