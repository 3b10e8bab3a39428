//! The report on a number of samples.
ghost use Rattle.std.specs.Prelude.{◌≡◌, ◌≤◌, IfOk};
ghost use Rattle.engine.specs.InMemory.{started};
ghost use Rattle.offline_replies.specs.Generated.{generated_text, IsGenerated};

use crate::samples::file::sample_file;
use crate::samples::load::load_samples;
use crate::samples::report::report_of;
use dh_base::items::Items;
use dh_base::memory::Memory;
use dh_metadata::metadata::Metadata;
use engine::{Engine, Unkept, engine_in_memory};
use meta_reader::fault::MetaFault;
use meta_reader::line::fault_line;
use meta_reader::read::read;
use std::alloc::Global;

// The report by an engine without a change.
#[tactic(auto, unfolding(crate::specs::Generated::generated_text))]
fn report_by(
    alloc: Global,
    engine: &mut Engine<Unkept>,
    moment: i64,
    count: u32,
) -> Result<Items<u8>, Memory>
    requires few { count ≤ 200000 }
    requires start { engine.old ≡ started engine.old.meta }
    ensures { IfOk result (λ text. text ≡ generated_text engine.old.meta moment count) }
{
    load_samples(alloc, engine, moment, count)?;
    report_of(alloc, engine, count)
}

// The report over metadata.
fn report_over(alloc: Global, meta: Metadata, moment: i64, count: u32) -> Result<Items<u8>, Memory>
    requires { count ≤ 200000 }
    ensures { IfOk result (λ text. text ≡ generated_text meta moment count) }
{
    match engine_in_memory(alloc, meta) {
        Ok(engine) => {
            let mut engine = engine;
            let text = report_by(alloc, &mut engine, moment, count);
            drop(engine);
            text
        }
        Err(memory) => Err(memory),
    }
}

/// Draws so many values, brings them to a log at a moment in seconds from 1970-01-01 in UTC, and
/// tells how many records and changes they leave, and their total. The metadata file of the samples
/// has no fault; the line of one would stand in place of the report.
#[tactic(auto, unfolding(crate::specs::Generated::IsGenerated))]
pub fn generated(alloc: Global, count: u32, moment: i64) -> Result<Items<u8>, Memory>
    requires { count ≤ 200000 }
    ensures { IfOk result (λ text. IsGenerated count moment text) }
{
    let file = sample_file(alloc)?;
    match read(alloc, &file) {
        Ok(meta) => report_over(alloc, meta, moment, count),
        Err(MetaFault::Memory) => Err(Memory),
        Err(fault) => fault_line(alloc, &fault),
    }
}
