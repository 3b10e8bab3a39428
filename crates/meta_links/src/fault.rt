//! Why references weren't linked.
ghost use Rattle.std.specs.Prelude.{◌≡◌};
ghost use Rattle.meta_links.specs.declared.fault.LinkFault.TheVariants.{Memory as OutOfMemory};

use dh_base::items::Items;
use dh_base::memory::Memory;
use dh_base::uid::Uid;

/// Why references weren't linked.
#[derive(Drop)]
pub enum LinkFault {
    /// The first reference that names no object of its kind, with its path in the file.
    Unknown { uid: Uid, path: Items<u8> },
    /// Memory ran out.
    Memory,
}

impl From<Memory> for LinkFault {
    ghost from_gives = { λ _ fault. fault ≡ OutOfMemory };

    fn from(_error: Memory) -> LinkFault {
        LinkFault::Memory
    }
}
