//! Sets of numbers.
ghost use Rattle.std.specs.Prelude.{◌≡◌, [], ◌∷◌, ◌++◌, if◌then◌else◌, nat_eq, IfOk, OnOk};
ghost use Rattle.query_lang.specs.Once.{with_new, once_from};
ghost use Rattle.query_lang.specs.Walk.{Knows};

use dh_base::memory::Memory;
use std::alloc::Global;
use std::collections::HashSet;

/// A set of these numbers, which may repeat.
pub(crate) fn set_of(alloc: Global, numbers: &[u32]) -> Result<HashSet<u32>, Memory>
    ensures { IfOk result (λ seen. Knows seen numbers.now) }
{
    let mut seen = HashSet::new(alloc);
    for number in numbers {
        seen.insert(*number)?;
    }
    Ok(seen)
}

/// Puts a number at the end unless it is there.
fn put_new(kept: &mut Vec<u32>, seen: &mut HashSet<u32>, number: u32) -> Result<(), Memory>
    requires { Knows seen.old kept.old.items }
    ensures kept { OnOk result (kept.new.items ≡ with_new nat_eq kept.old.items number) }
    ensures seen { OnOk result (Knows seen.new kept.new.items) }
{
    if seen.contains(&number) {
        return Ok(());
    }
    seen.insert(number)?;
    kept.push(number)?;
    Ok(())
}

/// Numbers, each once.
pub(crate) fn once(alloc: Global, numbers: &[u32]) -> Result<Vec<u32>, Memory>
    ensures { IfOk result (λ kept. kept.items ≡ once_from nat_eq [] numbers.now) }
{
    let mut kept = Vec::new(alloc);
    let mut seen = HashSet::new(alloc);
    for number in numbers {
        put_new(&mut kept, &mut seen, *number)?;
    }
    Ok(kept)
}

/// Puts a number at the end if it passed a test.
pub(crate) fn push_if(found: &mut Vec<u32>, number: u32, passes: bool) -> Result<(), Memory>
    ensures { OnOk result (found.new.items ≡ found.old.items ++ (if passes then number ∷ [] else [])) }
{
    if passes {
        found.push(number)?;
    }
    Ok(())
}
