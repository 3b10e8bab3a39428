//! Why JSON data wasn't read.

ghost use Rattle.std.specs.Prelude.{◌≡◌};
ghost use Rattle.json_read.specs.declared.fault.FormFault.TheVariants.{Memory as OutOfMemory};

use dh_base::items::Items;
use std::alloc::{AllocError, AllocFailed};

/// Why JSON data wasn't read.
#[derive(Drop)]
pub enum FormFault {
    /// The data isn't in the form. The path leads to the first place that isn't, and is empty for the data itself.
    At(Items<u8>),
    /// Memory ran out.
    Memory,
}

impl From<AllocError> for FormFault {
    ghost from_gives = { λ _ fault. fault ≡ OutOfMemory };

    fn from(_error: AllocError) -> FormFault {
        FormFault::Memory
    }
}

impl<T: Drop> From<AllocFailed<T>> for FormFault {
    ghost from_gives = { λ _ fault. fault ≡ OutOfMemory };

    fn from(_error: AllocFailed<T>) -> FormFault {
        FormFault::Memory
    }
}
