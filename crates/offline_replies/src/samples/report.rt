//! What is told of the samples that were brought.
ghost use Rattle.std.specs.Prelude.{◌≡◌, ◌++◌, OnOk, IfOk};
ghost use Rattle.std.specs.Fmt.{decimal};
ghost use Rattle.offline_replies.specs.Loaded.{HasLoaded};
ghost use Rattle.offline_replies.specs.Report.{line, lines_of, records_of, total_of, total_text, report_of};

use crate::samples::total::{records_of, total_of, total_text};
use dh_base::items::Items;
use dh_base::memory::Memory;
use dh_metadata::metadata::Metadata;
use engine::{Engine, Unkept, tables_of_all};
use std::alloc::Global;
use table_rows::RowStore;

fn push_line(text: &mut Vec<u8>, name: &[u8], value: &[u8]) -> Result<(), Memory>
    ensures { OnOk result (text.new.items ≡ text.old.items ++ line name.now value.now) }
{
    text.extend_from_slice(name)?;
    text.push(b' ')?;
    text.extend_from_slice(value)?;
    text.push(b'\n')?;
    Ok(())
}

fn push_number(alloc: Global, text: &mut Vec<u8>, name: &[u8], value: u64) -> Result<(), Memory>
    ensures { OnOk result (text.new.items ≡ text.old.items ++ line name.now (decimal value)) }
{
    let digits = format!(in alloc; "{value}")?.into_bytes();
    push_line(text, name, &digits)
}

#[tactic(auto, unfolding(crate::specs::Report::lines_of))]
fn lines_of(
    alloc: Global,
    values: u64,
    records: u64,
    changes: u64,
    total: &[u8],
) -> Result<Items<u8>, Memory>
    ensures { IfOk result (λ text. text ≡ lines_of values records changes total.now) }
{
    let mut text = Vec::new(alloc);
    push_number(alloc, &mut text, b"values", values)?;
    push_number(alloc, &mut text, b"records", records)?;
    push_number(alloc, &mut text, b"changes", changes)?;
    push_line(&mut text, b"total", total)?;
    Ok(Items::from(text))
}

// The report over a store of the rows that a log of so many changes leaves.
fn report_over<S: RowStore>(
    alloc: Global,
    meta: &Metadata,
    store: &S,
    count: u32,
    changes: u64,
) -> Result<Items<u8>, Memory>
    ensures { IfOk result (λ text. text ≡ lines_of count (records_of meta.now (S.rows store.now)) changes (total_text (total_of meta.now (S.rows store.now)))) }
{
    let records = records_of(alloc, meta, store)?;
    let total = total_of(alloc, meta, store)?;
    let total = total_text(alloc, total)?;
    lines_of(alloc, u64::from(count), records, changes, &total)
}

/// The report on a number of values that were brought to an engine.
#[tactic(auto, unfolding(crate::specs::Report::report_of))]
pub(crate) fn report_of(
    alloc: Global,
    engine: &mut Engine<Unkept>,
    count: u32,
) -> Result<Items<u8>, Memory>
    requires { HasLoaded engine.old.meta 200 engine.old }
    ensures { IfOk result (λ text. text ≡ report_of engine.old.meta count engine.old.state.log) }
{
    let tables = tables_of_all(alloc, engine)?;
    let changes = engine.standing().changes;
    report_over(alloc, engine.latest_meta(), &*tables, count, changes)
}
