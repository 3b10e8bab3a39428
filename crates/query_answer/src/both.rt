//! Two values as one.

ghost use Rattle.std.specs.Prelude.{◌≡◌, Ok, IfOk};

use dh_base::memory::Memory;

/// Both values, if there are both. What was made first isn't held by the caller while it may have to return early.
pub fn both<A: Drop, B: Drop>(
    first: Result<A, Memory>,
    second: Result<B, Memory>,
) -> Result<(A, B), Memory>
    ensures first { IfOk result (λ pair. first ≡ Ok pair.0) }
    ensures second { IfOk result (λ pair. second ≡ Ok pair.1) }
{
    match first {
        Ok(first) => match second {
            Ok(second) => Ok((first, second)),
            Err(fault) => Err(fault),
        },
        Err(fault) => Err(fault),
    }
}
