//! What lies outside the program: sources of bytes, sinks, sets of files, keepers and clocks, as traits whose
//! clauses say what a call does to the bytes, where these are told, and that a call answers `Failed`
//! only where the object's count of faults rose in it. An object that is both a source and a sink may tell in which
//! order it was read and written. Beside them stand forms in memory, which tell their bytes, and the adapters for the
//! real objects: a reader and a writer tell theirs where std does, files and the clock tell nothing.
#![tactic(auto)]

mod adapters;
mod both_ways;
mod calls;
mod files;
mod keeper;
mod memory;
mod pieces;
mod whole;

ghost use Rattle.std.specs.Prelude.{◌≡◌, ◌≤◌, ◌<◌, ◌∷◌, [], ℕ, ℤ, List, Option, length, IfOk, OnErr};
ghost use Rattle.std.specs.Option.{option_map};
ghost use Rattle.std.specs.Io.{ReadsAtMost, WritesAtMost};
ghost use Rattle.std.specs.Io.KnownBytes.{ReadConsumes, WriteAppends};
ghost use Rattle.dh_outside.specs.Faults.{Rose};
ghost use Rattle.dh_outside.specs.Talk.{Talk, Hears, Says, moved};

pub use adapters::{RealFiles, StdIn, StdOut, SystemClock};
pub use both_ways::MemLink;
pub use files::{FileFault, FileSet, MemFiles};
pub use keeper::{KeepFault, Keeper, MemKeeper};
pub use memory::{MemClock, MemSink, MemSource};
pub use pieces::{Piece, take_piece};
pub use whole::{read_all, write_all};

/// A read, a write or a file failed. The object's count of faults rose in the call.
#[derive(Clone, Copy, Debug, Drop, PartialEq, Eq, thiserror::Error)]
#[error("the outside failed")]
pub struct Failed;

/// Bytes that come from outside, as standard input.
pub trait Source {
    /// The bytes left to read, where they are told.
    ghost left: { Self → Option (List ℕ) };

    /// How many calls have failed, as a count of 64 bits shows it. It never falls.
    ghost source_faults: { Self → ℕ };

    /// In which order it was read and written, where it is one object that is both and tells it.
    ghost source_talk: { Self → Option Talk };

    /// Reads into the front of `into` and says how many bytes. 0 is the end, where `into` has room.
    fn read(&mut self, into: &mut [u8]) -> Result<usize, Failed>
        ensures bound { ReadsAtMost result into.new }
        ensures bytes { ReadConsumes (left self.old) (left self.new) result into.new }
        ensures talks { Hears (source_talk self.old) (source_talk self.new) (moved result into.new ∷ []) }
        ensures keeps { source_faults self.old ≤ source_faults self.new }
        ensures failed { OnErr result (Rose (source_faults self.old) (source_faults self.new)) };
}

/// Bytes that go outside, as standard output.
pub trait Sink {
    /// The bytes written, where they are told.
    ghost written: { Self → Option (List ℕ) };

    /// How many calls have failed, as a count of 64 bits shows it. It never falls.
    ghost sink_faults: { Self → ℕ };

    /// In which order it was read and written, where it is one object that is both and tells it.
    ghost sink_talk: { Self → Option Talk };

    /// Writes a prefix of `piece` and says how many bytes. To take none of a piece that isn't empty is a fault.
    fn write(&mut self, piece: &[u8]) -> Result<usize, Failed>
        ensures bound { WritesAtMost result piece.now }
        ensures bytes { WriteAppends (written self.old) (written self.new) result piece.now }
        ensures talks { Says (sink_talk self.old) (sink_talk self.new) (moved result piece.now) }
        ensures keeps { sink_faults self.old ≤ sink_faults self.new }
        ensures failed { OnErr result (Rose (sink_faults self.old) (sink_faults self.new)) }
        ensures stuck { IfOk result (λ n. n ≡ 0 → 0 < length piece.now
            → Rose (sink_faults self.old) (sink_faults self.new)) };
}

/// One object that is read and written, as a connection. It may tell in which order; then it tells its bytes too.
pub trait Link: Source + Sink {
    /// Reads and writes are told in one order.
    ghost one_talk: { (link : Self) → Self.source_talk link ≡ Self.sink_talk link };

    /// A failed read and a failed write count alike.
    ghost one_count: { (link : Self) → Self.source_faults link ≡ Self.sink_faults link };

    /// The bytes left to read are told with the order.
    ghost left_told: { (link : Self) → Self.left link ≡ option_map (λ talk. talk.left) (Self.source_talk link) };

    /// So are those written.
    ghost written_told: { (link : Self) → Self.written link ≡ option_map (λ talk. talk.written) (Self.sink_talk link) };
}

/// A clock. It cannot fail.
pub trait Clock {
    /// The moments that it may show, in seconds from 1970-01-01 in UTC.
    ghost shows: { Self → ℤ → Type 0 };

    /// A moment, in seconds from 1970-01-01 in UTC.
    fn now(&self) -> i64
        ensures { shows self.now result };
}
