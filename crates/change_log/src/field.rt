//! What is read from the front of bytes: a field, one after another, or several of one kind.
ghost use Rattle.std.specs.Prelude.{◌≡◌};
ghost use Rattle.change_log.specs.ReadWords.{Reads, ◌⊗◌, times_at};
ghost use Rattle.change_log.specs.Given.{Gives};

use crate::fault::ReadFault;
use dh_base::items::Items;
use dh_changes::apart::Apart;
use std::alloc::Global;

/// What is read from the front of bytes. Each reader takes what it reads from the front of `rest`.
pub trait Field: Sized + Drop {
    /// How it is read.
    ghost form: { Reads Self };

    /// Reads it.
    fn read(alloc: Global, rest: &mut &[u8]) -> Result<Self, ReadFault>
        ensures { Gives (form rest.old.now) result rest.new.now };
}

/// One after the other. A caller that reads several so holds nothing while it may have to return early.
impl<A: Field, B: Field> Field for (A, B) {
    ghost form = { A.form ⊗ B.form };

    fn read(alloc: Global, rest: &mut &[u8]) -> Result<(A, B), ReadFault> {
        let first = A::read(alloc, rest)?;
        let second = B::read(alloc, rest)?;
        Ok((first, second))
    }
}

/// What stands apart.
impl<T: Field> Field for Apart<T> {
    ghost form = { T.form };

    fn read(alloc: Global, rest: &mut &[u8]) -> Result<Apart<T>, ReadFault> {
        let value = T::read(alloc, rest)?;
        Ok(Apart::new(alloc, value)?)
    }
}

/// So many of them, each of which takes bytes: no memory is taken for what isn't there.
pub fn read_each<T: Field>(
    alloc: Global,
    count: u32,
    rest: &mut &[u8],
) -> Result<Items<T>, ReadFault>
    ensures { Gives (times_at count T.form rest.old.now) result rest.new.now }
{
    let mut all = Vec::new(alloc);
    for _ in 0..count {
        all.push(T::read(alloc, rest)?)?;
    }
    Ok(Items::from(all))
}
