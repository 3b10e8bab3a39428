//! What stands in memory of its own, so that its owner stays small.

ghost use Rattle.std.specs.Prelude.{◌≡◌, IfOk};

use dh_base::memory::Memory;
use std::alloc::Global;
use std::boxed::Box;
use std::marker::Model;

/// A value in memory of its own, which contracts see as that value. Where it stands takes a pointer.
pub struct Apart<T> {
    boxed: Box<T>,
}

// By hand, so that it is proved here alone and not in each crate above.
impl<T: Drop> Drop for Apart<T> {
    fn drop(self) {
        let Apart { boxed: _ } = self;
    }
}

impl<T> Model for Apart<T> {
    ghost Value = { T };

    ghost view = { λ apart. apart.boxed.value };
}

impl<T: Drop> Apart<T> {
    /// Moves the value to memory of its own. If there is none, the value is dropped.
    pub fn new(alloc: Global, value: T) -> Result<Apart<T>, Memory>
        ensures { IfOk result (λ made. made ≡ value) }
    {
        Ok(Apart {
            boxed: Box::new(alloc, value)?,
        })
    }

    /// The value, lent.
    pub fn get(&self) -> &T
        ensures { result.now ≡ self.now }
    {
        &self.boxed
    }
}
