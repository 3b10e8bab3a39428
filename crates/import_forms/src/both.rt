//! Two readings as one.

ghost use Rattle.import_forms.specs.Both.{IsBoth};

/// Both values, or the fault of the first reading that has one. What was read before isn't held by the
/// caller while it may have to return early.
pub(crate) fn both<A: Drop, B: Drop, E: Drop>(
    first: Result<A, E>,
    second: Result<B, E>,
) -> Result<(A, B), E>
    ensures { IsBoth first second result }
{
    match first {
        Ok(first) => match second {
            Ok(second) => Ok((first, second)),
            Err(fault) => Err(fault),
        },
        Err(fault) => Err(fault),
    }
}
