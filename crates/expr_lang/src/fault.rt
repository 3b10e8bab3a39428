//! Why a text isn't an expression.

ghost use Rattle.std.specs.Prelude.{◌≡◌};

use dh_base::memory::Memory;
use thiserror::Error;

/// Why a text isn't an expression that may stand in its place. Each place counts bytes from 0.
#[derive(Clone, Copy, Debug, Error)]
pub enum ExprFault {
    /// The first byte at which no text of the language goes on so, or the text's length.
    #[error("syntax at byte {at}")]
    Syntax { at: usize },
    /// The first `(` that stands inside 64 others, or byte 0 where the tree is deeper than 512.
    #[error("too deep at byte {at}")]
    TooDeep { at: usize },
    /// The first call, operator or item whose sorts don't fit.
    #[error("sort at byte {at}")]
    Sort { at: usize },
    #[error("out of memory")]
    Memory,
}

/// Why a text has no nodes.
#[derive(Clone, Copy)]
pub enum ReadFault {
    Syntax(usize),
    Memory,
}

impl From<Memory> for ReadFault {
    ghost use Rattle.expr_lang.specs.declared.fault.ReadFault.TheVariants as faults;

    ghost from_gives = { λ _ fault. fault ≡ faults.Memory };

    fn from(_error: Memory) -> ReadFault {
        ReadFault::Memory
    }
}

impl From<Memory> for ExprFault {
    ghost use Rattle.expr_lang.specs.declared.fault.ExprFault.TheVariants as faults;

    ghost from_gives = { λ _ fault. fault ≡ faults.Memory };

    fn from(_error: Memory) -> ExprFault {
        ExprFault::Memory
    }
}
