//! Samples and their order.
ghost use Rattle.std.specs.Prelude.{◌≡◌, true, IsTrue};
ghost use Rattle.table_rows.specs.Store.{rises};
ghost use Rattle.table_rows.specs.RowSamples.{sample_of};
ghost use Rattle.table_rows.specs.Samples.{sample_cmp, in_series_order};

use crate::Row;
use crate::ranked::{Ranked, rise};
use dh_periods::Period;

/// What samples of several periods belong to: a data element, its option combination, an attribute
/// combination and a unit. Series are ordered by these fields.
#[derive(Clone, Copy, PartialEq, Eq, PartialOrd, Ord)]
pub struct Series {
    pub element: u32,
    pub combo: u32,
    pub attribute: u32,
    pub unit: u32,
}

/// A value of one series in one period.
#[derive(Clone, Copy)]
pub struct Sample {
    pub series: Series,
    pub period: Period,
    /// Its number in millionths, where it has one.
    pub micros: Option<i64>,
}

impl Sample {
    /// The sample of a row, whose unit is told by its order.
    pub fn of(row: &Row) -> Sample
        ensures { result ≡ sample_of row.now }
    {
        Sample {
            series: Series {
                element: row.element,
                combo: row.combo,
                attribute: row.attribute,
                unit: row.order,
            },
            period: row.period,
            micros: row.micros,
        }
    }
}

impl Ranked for Sample {
    ghost use Rattle.table_rows.specs.Samples.{sample_cmp};

    ghost rank = { sample_cmp };

    fn stands_before(&self, other: &Sample) -> bool {
        (self.series, self.period)
            .cmp(&(other.series, other.period))
            .is_lt()
    }
}

/// Whether the samples are sorted by series and period without a repeat, which is more than
/// `aggregate` asks for: there the periods of a series may come in any order.
pub fn is_sorted(samples: &[Sample]) -> bool
    ensures value { result ≡ rises sample_cmp samples.now }
    ensures order { result ≡ true → IsTrue (in_series_order samples.now) }
{
    rise(samples)
}
