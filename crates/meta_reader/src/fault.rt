//! Why metadata is refused.

ghost use Rattle.std.specs.Prelude.{◌≡◌};
ghost use Rattle.meta_reader.specs.declared.fault.MetaFault.TheVariants.{Memory as OutOfMemory};

use dh_base::items::Items;
use dh_base::memory::Memory;
use dh_base::uid::Uid;
use meta_rules::fault::BrokenRule;
use meta_rules::limits::LimitFault;

/// A limit that a file passes.
#[derive(Clone, Copy)]
pub enum Which {
    /// The file has too many bytes.
    Bytes,
    /// A list of the file has too many objects.
    Objects(LimitFault),
}

/// The first fault of a metadata file.
#[derive(Drop)]
pub enum MetaFault {
    /// The bytes have no reading as JSON of at most 127 levels.
    NotJson,
    /// The data isn't in the form of a metadata file. The path leads to the first place that isn't.
    Shape { path: Items<u8> },
    /// A reference names no object of its kind. The path leads to it.
    Unknown { uid: Uid, path: Items<u8> },
    /// Two objects have the identifier, or the user has a token that another has too.
    Twice { uid: Uid },
    /// An expression of the object isn't read, or names no object, at a byte from 0.
    Expr { uid: Uid, at: usize },
    /// A rule between objects is broken. No object is named where no unit is the root.
    Rule { uid: Option<Uid>, which: BrokenRule },
    /// A limit is passed.
    Limit { which: Which },
    /// Memory ran out.
    Memory,
}

impl From<Memory> for MetaFault {
    ghost from_gives = { λ _ fault. fault ≡ OutOfMemory };

    fn from(_error: Memory) -> MetaFault {
        MetaFault::Memory
    }
}
