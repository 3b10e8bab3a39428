//! Why the identifiers of a file are refused.

ghost use Rattle.std.specs.Prelude.{◌≡◌};
ghost use Rattle.dh_metadata.specs.declared.ids.fault.IdsFault.TheVariants.{Memory as OutOfMemory};

use dh_base::memory::Memory;
use dh_base::uid::Uid;

/// Why the identifiers of a file weren't numbered.
#[derive(Drop)]
pub enum IdsFault {
    /// The first object, of whatever kind, that has the identifier of one before it. Where there is none: the
    /// user of the first token that is one of those before it.
    Twice { uid: Uid },
    /// Memory ran out, or there are more objects than numbers of 32 bits.
    Memory,
}

impl From<Memory> for IdsFault {
    ghost from_gives = { λ _ fault. fault ≡ OutOfMemory };

    fn from(_error: Memory) -> IdsFault {
        IdsFault::Memory
    }
}
