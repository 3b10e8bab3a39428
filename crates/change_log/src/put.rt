//! What is put at the end of bytes: a field, one after another, or each of a list.
ghost use Rattle.std.specs.Prelude.{◌≡◌, ℕ, List, ◌++◌, OnOk};
ghost use Rattle.std.specs.List.{flat_map, All};

use dh_base::memory::Memory;
use std::alloc::Global;

/// What is put at the end of bytes.
pub trait Put {
    /// Its bytes.
    ghost bytes: { Self → List ℕ };

    /// What a caller keeps.
    ghost Fits: { Self → Type 0 };

    /// What holds of what was written.
    ghost Holds: { Self → Type 0 };

    /// Puts its bytes at the end.
    fn put(&self, alloc: Global, out: &mut Vec<u8>) -> Result<(), Memory>
        requires { Fits self.now }
        ensures grown { OnOk result (out.new.items ≡ out.old.items ++ bytes self.now) }
        ensures valid { OnOk result (Holds self.now) };
}

/// One after the other.
impl<A: Put, B: Put> Put for (A, B) {
    ghost bytes = { λ pair. A.bytes pair.0 ++ B.bytes pair.1 };

    ghost Fits = { λ pair. A.Fits pair.0 × B.Fits pair.1 };

    ghost Holds = { λ pair. A.Holds pair.0 × B.Holds pair.1 };

    fn put(&self, alloc: Global, out: &mut Vec<u8>) -> Result<(), Memory> {
        self.0.put(alloc, out)?;
        self.1.put(alloc, out)
    }
}

/// What is lent.
impl<'a, T: Put> Put for &'a T {
    ghost bytes = { λ lent. T.bytes lent.now };

    ghost Fits = { λ lent. T.Fits lent.now };

    ghost Holds = { λ lent. T.Holds lent.now };

    fn put(&self, alloc: Global, out: &mut Vec<u8>) -> Result<(), Memory> {
        T::put(*self, alloc, out)
    }
}

/// Each of a list.
pub fn put_each<T: Put>(alloc: Global, out: &mut Vec<u8>, items: &[T]) -> Result<(), Memory>
    requires { All T.Fits items.now }
    ensures grown { OnOk result (out.new.items ≡ out.old.items ++ flat_map T.bytes items.now) }
    ensures valid { OnOk result (All T.Holds items.now) }
{
    for item in items {
        item.put(alloc, out)?;
    }
    Ok(())
}
