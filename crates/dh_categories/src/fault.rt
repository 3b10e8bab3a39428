use dh_base::memory::Memory;
use std::alloc::{AllocError, AllocFailed};
use thiserror::Error;

/// Why option combinations are refused.
#[derive(Clone, Copy, Debug, PartialEq, Eq, Error)]
pub enum ComboFault {
    /// The place of the first option combination that isn't one option of each category of its
    /// combination.
    #[error("option combination {place} is not one option of each category")]
    Bad { place: u32 },
    #[error("out of memory")]
    Memory,
}

impl From<Memory> for ComboFault {
    ghost use Rattle.std.specs.Prelude.{◌≡◌};
    ghost use Rattle.dh_categories.specs.declared.fault.ComboFault.TheVariants as fault;

    ghost from_gives = { λ _ error. error ≡ fault.Memory };

    fn from(_error: Memory) -> ComboFault {
        ComboFault::Memory
    }
}

impl From<AllocError> for ComboFault {
    ghost use Rattle.std.specs.Prelude.{◌≡◌};
    ghost use Rattle.dh_categories.specs.declared.fault.ComboFault.TheVariants as fault;

    ghost from_gives = { λ _ error. error ≡ fault.Memory };

    fn from(_error: AllocError) -> ComboFault {
        ComboFault::Memory
    }
}

impl<T: Drop> From<AllocFailed<T>> for ComboFault {
    ghost use Rattle.std.specs.Prelude.{◌≡◌};
    ghost use Rattle.dh_categories.specs.declared.fault.ComboFault.TheVariants as fault;

    ghost from_gives = { λ _ error. error ≡ fault.Memory };

    fn from(_error: AllocFailed<T>) -> ComboFault {
        ComboFault::Memory
    }
}
