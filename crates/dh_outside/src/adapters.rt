// The real objects: a reader, a writer, the file system and the clock. A reader and a writer lose no byte where
// theirs are told. The system tells none of its files, so that no clause says what it gives or keeps, nor what the
// clock shows. Their counts of faults are exact.
ghost use Rattle.std.specs.Prelude.{None, ⊤};
ghost use Rattle.std.specs.Io.{ReadsAtMost, WritesAtMost};
ghost use Rattle.std.specs.Io.KnownBytes.{ReadConsumes, WriteAppends};

use crate::{Clock, Failed, FileFault, FileSet, Sink, Source, read_all};
use std::alloc::Global;
use std::fs;
use std::io::{ErrorKind, Read, Write};
use std::rt::Files;
use std::time::{SystemTime, UNIX_EPOCH};

// How often a call that a signal interrupted is tried again.
const TRIES: u32 = 1000;

/// A reader as a source, as standard input or an open file. Its bytes are the reader's.
#[derive(Drop)]
pub struct StdIn<R> {
    reader: R,
    faults: u64,
}

impl<R> StdIn<R> {
    /// A source of what the reader gives.
    pub fn new(reader: R) -> Self {
        StdIn { reader, faults: 0 }
    }
}

#[tactic(auto, using(crate::proofs::KeepLemmas::kept_by_none, crate::proofs::KeepLemmas::kept_by_both, crate::proofs::KeepLemmas::consumed_after))]
fn read_uninterrupted<R: Read>(reader: &mut R, into: &mut [u8]) -> Result<usize, Failed>
    ensures bound { ReadsAtMost result into.new }
    ensures bytes { ReadConsumes (R.remaining reader.old) (R.remaining reader.new) result into.new }
{
    for _ in 0..TRIES {
        match reader.read(into) {
            Ok(count) => return Ok(count),
            Err(error) => {
                if error.kind() != ErrorKind::Interrupted {
                    return Err(Failed);
                }
            }
        }
    }
    Err(Failed)
}

impl<R: Read + Drop> Source for StdIn<R> {
    ghost left = { λ s. R.remaining s.reader };

    ghost source_faults = { λ s. s.faults };

    ghost source_talk = { λ _. None };

    fn read(&mut self, into: &mut [u8]) -> Result<usize, Failed> {
        let result = read_uninterrupted(&mut self.reader, into);
        if result.is_err() {
            self.faults = self.faults.saturating_add(1);
        }
        result
    }
}

/// A writer as a sink, as standard output. What is written stands in the writer.
#[derive(Drop)]
pub struct StdOut<W> {
    writer: W,
    faults: u64,
}

impl<W> StdOut<W> {
    /// A sink that hands what it takes to the writer.
    pub fn new(writer: W) -> Self {
        StdOut { writer, faults: 0 }
    }
}

#[tactic(auto, using(crate::proofs::KeepLemmas::kept_by_none, crate::proofs::KeepLemmas::kept_by_both, crate::proofs::KeepLemmas::appended_after))]
fn write_uninterrupted<W: Write>(writer: &mut W, piece: &[u8]) -> Result<usize, Failed>
    ensures bound { WritesAtMost result piece.now }
    ensures bytes { WriteAppends (W.contents writer.old) (W.contents writer.new) result piece.now }
{
    for _ in 0..TRIES {
        match writer.write(piece) {
            Ok(count) => return Ok(count),
            Err(error) => {
                if error.kind() != ErrorKind::Interrupted {
                    return Err(Failed);
                }
            }
        }
    }
    Err(Failed)
}

impl<W: Write + Drop> Sink for StdOut<W> {
    ghost written = { λ s. W.contents s.writer };

    ghost sink_faults = { λ s. s.faults };

    ghost sink_talk = { λ _. None };

    fn write(&mut self, piece: &[u8]) -> Result<usize, Failed> {
        let result = write_uninterrupted(&mut self.writer, piece);
        let is_stuck = match result {
            Ok(count) => count == 0 && !piece.is_empty(),
            Err(_) => true,
        };
        if is_stuck {
            self.faults = self.faults.saturating_add(1);
        }
        result
    }
}

/// The files of the system.
#[derive(Drop)]
pub struct RealFiles<R> {
    system: R,
    faults: u64,
}

impl<R> RealFiles<R> {
    /// The files that the runtime reaches.
    pub fn new(system: R) -> Self {
        RealFiles { system, faults: 0 }
    }
}

impl<R: Files + Drop> FileSet for RealFiles<R> {
    ghost file = { λ _ _. None };

    ghost file_faults = { λ s. s.faults };

    fn read_file(&mut self, alloc: Global, name: &str, most: u64) -> Result<Vec<u8>, FileFault> {
        let result = match fs::File::open(&self.system, name) {
            Ok(file) => read_all(alloc, &mut StdIn::new(file), most),
            Err(_) => Err(FileFault::Failed),
        };
        if let Err(FileFault::Failed) = result {
            self.faults = self.faults.saturating_add(1);
        }
        result
    }
}

/// The system's clock. It shows 0 where the clock can't be read.
#[derive(Drop)]
pub struct SystemClock<R> {
    system: R,
}

impl<R> SystemClock<R> {
    /// The clock that the runtime reaches.
    pub fn new(system: R) -> Self {
        SystemClock { system }
    }
}

impl<R: std::rt::Clock + Sync> Clock for SystemClock<R> {
    ghost shows = { λ _ _. ⊤ };

    fn now(&self) -> i64 {
        match SystemTime::now(&self.system) {
            Ok(time) => match time.duration_since(UNIX_EPOCH) {
                Ok(since) => i64::try_from(since.as_secs()).unwrap_or(0),
                Err(_) => 0,
            },
            Err(_) => 0,
        }
    }
}
