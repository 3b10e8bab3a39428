//! The limits of a log, and why a change is not taken.
ghost use Rattle.std.specs.Prelude.{◌≡◌};

use dh_base::memory::Memory;
use thiserror::Error;

/// How large a log may grow, and how many updates its server may make.
#[derive(Clone, Copy)]
pub struct Limits {
    /// Writes in the log, at most 4,194,304.
    pub writes: u64,
    /// Bytes of the log, at most 536,870,912.
    pub bytes: u64,
    /// Updates of the tables, at most 1,000,000,000,000.
    pub updates: u64,
}

/// Why a change isn't in the log.
#[derive(Clone, Copy, Debug, Drop, PartialEq, Eq, Error)]
pub enum AppendFault {
    /// The log with the change would pass this limit.
    #[error("the log is full at {limit}")]
    LogFull { limit: u64 },
    /// The keeper failed.
    #[error("the change could not be stored")]
    StoreFault,
    /// Memory ran out.
    #[error("out of memory")]
    Memory,
}

impl From<Memory> for AppendFault {
    ghost use Rattle.change_log.specs.declared.limits.AppendFault.TheVariants as fault;

    ghost from_gives = { λ _ error. error ≡ fault.Memory };

    fn from(_error: Memory) -> AppendFault {
        AppendFault::Memory
    }
}
