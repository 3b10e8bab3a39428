//! Faults of a query: how running out of memory becomes one, and refusals by code and detail.
ghost use Rattle.std.specs.Prelude.{◌≡◌, Some};
ghost use Rattle.query_lang.specs.declared.plain.QueryFault.TheVariants.{Memory as OutOfMemory};
ghost use Rattle.dh_base.specs.Memory.{IsFirst};
ghost use Rattle.query_lang.specs.Given.{refusal, cause_of};

use crate::plain::QueryFault;
use dh_base::codes::{Code, Refusal};
use dh_base::items::Items;
use dh_base::memory::Memory;
use std::alloc::{AllocError, AllocFailed, Global};

impl From<AllocError> for QueryFault {
    ghost from_gives = { λ _ fault. fault ≡ OutOfMemory };

    fn from(_error: AllocError) -> QueryFault {
        QueryFault::Memory
    }
}

impl<T: Drop> From<AllocFailed<T>> for QueryFault {
    ghost from_gives = { λ _ fault. fault ≡ OutOfMemory };

    fn from(_error: AllocFailed<T>) -> QueryFault {
        QueryFault::Memory
    }
}

impl From<Memory> for QueryFault {
    ghost from_gives = { λ _ fault. fault ≡ OutOfMemory };

    fn from(_error: Memory) -> QueryFault {
        QueryFault::Memory
    }
}

/// The refusal with that code and detail.
pub fn refused(alloc: Global, code: Code, detail: &[u8]) -> QueryFault
    ensures { IsFirst (Some (refusal code detail.now)) (cause_of result) }
{
    match Vec::from_slice(alloc, detail) {
        Ok(detail) => QueryFault::Refused(Refusal {
            code,
            detail: Items::from(detail),
        }),
        Err(_) => QueryFault::Memory,
    }
}
