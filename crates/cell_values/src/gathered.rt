//! The samples of a cell, for the types that need each of them.
ghost use Rattle.std.specs.Prelude.{◌≡◌, ◌≤◌, ◌<◌, ◌++◌, length, map, IsPermutation, OnOk, OnErr, IfOk};
ghost use Rattle.table_rows.specs.Cells.{gathered};
ghost use Rattle.table_rows.specs.RowSamples.{sample_of};
ghost use Rattle.cell_values.specs.Parts.{range_rows, ranged_rows};

use dh_base::items::Items;
use dh_base::memory::Memory;
use dh_base::plain::Need;
use std::alloc::{AllocError, Global};
use table_rows::{Group, Row, RowStore, Sample};

fn rows_in<S: RowStore>(
    alloc: Global,
    store: &S,
    group: &Group,
    need: Need,
    range: (u32, u32),
) -> Result<Items<Row>, Memory>
    ensures { IfOk result (λ found. found ≡ range_rows (S.rows store.now) need group.now range) }
{
    store.rows_of(alloc, *group, need, range.0, range.1)
}

fn add_samples(rows: &[Row], samples: &mut Vec<Sample>) -> Result<(), AllocError>
    ensures { OnOk result (samples.new.items ≡ samples.old.items ++ map sample_of rows.now) }
{
    for row in rows {
        samples.push(Sample::of(row))?;
    }
    Ok(())
}

fn add_group<S: RowStore>(
    alloc: Global,
    store: &S,
    group: &Group,
    need: Need,
    ranges: &[(u32, u32)],
    samples: &mut Vec<Sample>,
) -> Result<(), Memory>
    ensures { OnOk result (samples.new.items ≡ samples.old.items ++ map sample_of (ranged_rows (S.rows store.now) need ranges.now group.now)) }
{
    for range in ranges {
        let rows = rows_in(alloc, store, group, need, *range)?;
        add_samples(rows.as_slice(), samples)?;
    }
    Ok(())
}

/// The samples of the rows of some groups that meet the need and lie in the ranges of orders, range
/// by range.
pub(crate) fn gathered<S: RowStore>(
    alloc: Global,
    store: &S,
    groups: &[Group],
    need: Need,
    ranges: &[(u32, u32)],
) -> Result<Vec<Sample>, Memory>
    ensures { IfOk result (λ samples. samples.items ≡ map sample_of (gathered (ranged_rows (S.rows store.now) need ranges.now) groups.now)) }
{
    let mut samples = Vec::new(alloc);
    for group in groups {
        add_group(alloc, store, group, need, ranges, &mut samples)?;
    }
    Ok(samples)
}
