//! Two answers as one.

ghost use Rattle.meta_rules.specs.Both.{IsBoth};

/// Both values, or the fault of the first answer that has one. What was made first isn't held by the caller while it may have to
/// return early.
pub(crate) fn both<A: Drop, B: Drop, F: Drop>(
    first: Result<A, F>,
    second: Result<B, F>,
) -> Result<(A, B), F>
    ensures { IsBoth first second result }
{
    match first {
        Ok(first) => match second {
            Ok(second) => Ok((first, second)),
            Err(fault) => Err(fault),
        },
        Err(fault) => Err(fault),
    }
}
