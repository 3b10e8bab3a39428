use std::alloc::{AllocError, AllocFailed};

/// Why a list of units is no tree. Units are named by their places in the list.
#[derive(Clone, Copy)]
pub enum TreeFault {
    /// The first unit whose parent is no unit of the list.
    NoParent { node: u32 },
    /// Every unit has a parent, or there is no unit.
    NoRoot,
    /// The second unit without a parent.
    TwoRoots { second: u32 },
    /// The first unit whose parents never reach the root.
    Loop { node: u32 },
    /// The first unit below level 12.
    TooDeep { node: u32 },
    /// Memory ran out.
    Memory,
}

impl From<AllocError> for TreeFault {
    ghost use Rattle.std.specs.Prelude.{◌≡◌};
    ghost use Rattle.org_tree.specs.declared.fault.TreeFault.TheVariants as fault;

    ghost from_gives = { λ _ error. error ≡ fault.Memory };

    fn from(_error: AllocError) -> TreeFault {
        TreeFault::Memory
    }
}

impl<T: Drop> From<AllocFailed<T>> for TreeFault {
    ghost use Rattle.std.specs.Prelude.{◌≡◌};
    ghost use Rattle.org_tree.specs.declared.fault.TreeFault.TheVariants as fault;

    ghost from_gives = { λ _ error. error ≡ fault.Memory };

    fn from(_error: AllocFailed<T>) -> TreeFault {
        TreeFault::Memory
    }
}
