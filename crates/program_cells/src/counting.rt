//! How many different identifiers there are.

ghost use Rattle.std.specs.Prelude.{◌≡◌, ◌≤◌, ℕ, List, true, cond, if◌then◌else◌, IfOk, OnOk};
ghost use Rattle.std.specs.HashSet.{contains};
ghost use Rattle.dh_metadata.specs.Places.{same_id};
ghost use Rattle.program_cells.specs.Value.{different, counted};

use crate::samples::whole;
use dh_base::frac::Frac;
use dh_base::memory::Memory;
use dh_base::uid::Uid;
use std::alloc::Global;
use std::collections::HashSet;

// 1 for an identifier that is new, and 0 for one that was seen.
fn once(seen: &mut HashSet<Uid>, id: Uid) -> Result<usize, Memory>
    ensures counted { IfOk result (λ n. n ≡ (if contains same_id seen.old id then 0 else 1)) }
    ensures known { OnOk result ((other : List ℕ)
        → contains same_id seen.new other ≡ cond (same_id id other) true (contains same_id seen.old other)) }
    ensures most { IfOk result (λ n. n ≤ 1) }
{
    if seen.insert(id)? { Ok(1) } else { Ok(0) }
}

fn different(alloc: Global, ids: &[Uid]) -> Result<usize, Memory>
    ensures { IfOk result (λ count. count ≡ different ids.now) }
{
    let mut seen = HashSet::new(alloc);
    let mut count = 0;
    for id in ids {
        let more = once(&mut seen, *id)?;
        count += more;
    }
    Ok(count)
}

/// How many different identifiers these are, if there is one.
pub(crate) fn count(alloc: Global, ids: &[Uid]) -> Result<Option<Frac>, Memory>
    ensures { IfOk result (λ number. number ≡ counted ids.now) }
{
    let count = different(alloc, ids)?;
    Ok(if count == 0 { None } else { Some(whole(count)) })
}
