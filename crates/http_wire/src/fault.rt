//! Why no request is given.
ghost use Rattle.std.specs.Prelude.{◌≡◌};
ghost use Rattle.http_wire.specs.Faults.{comes_from};
ghost use Rattle.http_wire.specs.declared.fault.WireFault.TheVariants.{Memory};

use crate::head::HeadFault;
use dh_base::codes::Code;
use std::alloc::AllocError;

/// Why no request is given.
#[derive(Clone, Copy, Debug, Drop, PartialEq, Eq, thiserror::Error)]
pub enum WireFault {
    /// The request is refused, by F1 to F5.
    #[error("the request is refused")]
    Refused(Code),
    /// The input ended inside a request.
    #[error("the request is cut off")]
    Truncated,
    /// A read failed, and the source's count of faults rose.
    #[error("a read failed")]
    ReadFault,
    /// No memory was found.
    #[error("out of memory")]
    Memory,
}

impl From<AllocError> for WireFault {
    ghost from_gives = { λ _ e. e ≡ Memory };

    fn from(_: AllocError) -> Self {
        WireFault::Memory
    }
}

// The fault of a request whose head is at fault.
pub(crate) fn fault_of(fault: HeadFault) -> WireFault
    ensures { result ≡ comes_from fault }
{
    match fault {
        HeadFault::Refused(code) => WireFault::Refused(code),
        HeadFault::Memory => WireFault::Memory,
    }
}
