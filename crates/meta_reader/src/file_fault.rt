//! Why a file isn't read.

ghost use Rattle.std.specs.Prelude.{◌≡◌};
ghost use Rattle.meta_reader.specs.declared.file_fault.FileFault.TheVariants.{Memory as OutOfMemory};

use dh_base::items::Items;
use dh_base::memory::Memory;
use thiserror::Error;

/// Why the bytes of a file aren't read as metadata.
#[derive(Debug, Drop, Error)]
pub enum FileFault {
    /// The file has more than 67,108,864 bytes.
    #[error("the file is too long")]
    TooLong,
    /// The bytes have no reading as JSON of at most 127 levels.
    #[error("the file is not JSON")]
    NotJson,
    /// The data isn't in the form of a metadata file. The path leads to the first place that isn't.
    #[error("the file is not in the form of metadata")]
    Shape { path: Items<u8> },
    #[error("out of memory")]
    Memory,
}

impl From<Memory> for FileFault {
    ghost from_gives = { λ _ fault. fault ≡ OutOfMemory };

    fn from(_error: Memory) -> FileFault {
        FileFault::Memory
    }
}
