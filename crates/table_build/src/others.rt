//! The changes that write something else than data values.
ghost use Rattle.std.specs.Prelude.{◌≡◌, map, IfOk};
ghost use Rattle.std.specs.Arc.{arc_value};
ghost use Rattle.table_build.specs.Log as known;

use dh_base::memory::Memory;
use dh_changes::change::{Change, Write};
use std::alloc::Global;
use std::sync::Arc;

fn any_other(writes: &[Write]) -> bool
    ensures { result ≡ known.any_other writes.now }
{
    for write in writes {
        match write {
            Write::ValueSet { .. } => {}
            Write::ValueCleared { .. } => {}
            _ => return true,
        }
    }
    false
}

/// The changes in which something else than a data value is written.
pub(crate) fn with_others(
    alloc: Global,
    changes: &[Arc<Change>],
) -> Result<Vec<Arc<Change>>, Memory>
    ensures { IfOk result (λ kept. map arc_value kept.items ≡ known.with_others (map arc_value changes.now)) }
{
    let mut kept = Vec::new(alloc);
    for change in changes {
        if any_other(change.writes.as_slice()) {
            kept.push(Arc::try_clone(change)?)?;
        }
    }
    Ok(kept)
}
