ghost use Rattle.std.specs.Prelude.{◌≡◌};

use std::alloc::{AllocError, AllocFailed};
use thiserror::Error;

/// Memory ran out. It is the one answer that has no other cause.
#[derive(Clone, Copy, Debug, Error)]
#[error("out of memory")]
pub struct Memory;

impl From<AllocError> for Memory {
    ghost use Rattle.dh_base.specs.Memory.{out_of_memory};

    ghost from_gives = { λ _ error. error ≡ out_of_memory };

    fn from(_error: AllocError) -> Memory {
        Memory
    }
}

impl<T: Drop> From<AllocFailed<T>> for Memory {
    ghost use Rattle.dh_base.specs.Memory.{out_of_memory};

    ghost from_gives = { λ _ error. error ≡ out_of_memory };

    fn from(_error: AllocFailed<T>) -> Memory {
        Memory
    }
}
