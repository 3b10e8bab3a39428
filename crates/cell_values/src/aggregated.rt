//! The value of samples in any order.
ghost use Rattle.std.specs.Prelude.{◌≡◌, ◌≤◌, ◌<◌, length, IfOk};
ghost use Rattle.table_rows.specs.Values.{value_by};
ghost use Rattle.cell_values.specs.Parts.{key_of, HaveOwnKeys};
ghost use Rattle.dh_base.specs.declared.limits.TheConstants.{MOST_RECORDS};

use dh_base::frac::Frac;
use dh_base::memory::Memory;
use dh_base::plain::AggType;
use dh_periods::Period;
use table_rows::{Sample, Series, aggregate};

/// What samples are ordered by, the first before the second.
fn key_of(sample: &Sample) -> (Series, Period)
    ensures { result ≡ key_of sample.now }
{
    (sample.series, sample.period)
}

/// The value of the samples by the aggregation type. A series and a period name a sample once, so
/// that in their order all types find it in one pass.
pub(crate) fn aggregated(
    kind: AggType,
    samples: Vec<Sample>,
    days: u32,
) -> Result<Option<Frac>, Memory>
    requires few { length samples.items ≤ MOST_RECORDS }
    requires days { 0 < days }
    requires own_keys { HaveOwnKeys samples.items }
    ensures { IfOk result (λ value. value ≡ value_by kind samples.items days) }
{
    let mut sorted = samples;
    sorted.sort_by_key(key_of)?;
    Ok(aggregate(kind, &sorted, days))
}
