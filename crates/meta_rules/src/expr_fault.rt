//! Why an expression is refused.

ghost use Rattle.std.specs.Prelude.{◌≡◌};
ghost use Rattle.meta_rules.specs.declared.expr_fault.ExprError.TheVariants as fault;

use dh_base::memory::Memory;
use dh_base::uid::Uid;
use std::alloc::{AllocError, AllocFailed};

/// An expression that isn't read: its object, and the byte from 0.
#[derive(Clone, Copy)]
pub struct ExprFault {
    pub uid: Uid,
    pub at: usize,
}

/// Why the expressions of metadata are refused.
#[derive(Clone, Copy)]
pub enum ExprError {
    Unread(ExprFault),
    Memory,
}

impl From<Memory> for ExprError {
    ghost from_gives = { λ _ error. error ≡ fault.Memory };

    fn from(_error: Memory) -> ExprError {
        ExprError::Memory
    }
}

impl From<AllocError> for ExprError {
    ghost from_gives = { λ _ error. error ≡ fault.Memory };

    fn from(_error: AllocError) -> ExprError {
        ExprError::Memory
    }
}

impl<T: Drop> From<AllocFailed<T>> for ExprError {
    ghost from_gives = { λ _ error. error ≡ fault.Memory };

    fn from(_error: AllocFailed<T>) -> ExprError {
        ExprError::Memory
    }
}
