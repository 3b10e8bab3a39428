//! The keys of approvals that changes name.
ghost use Rattle.std.specs.Prelude.{◌≡◌, ◌++◌, map, OnOk, IfOk};
ghost use Rattle.std.specs.Arc.{arc_value};
ghost use Rattle.table_build.specs.Log.{writes_of};
ghost use Rattle.latest_build.specs.Touches as known;

use dh_base::memory::Memory;
use dh_changes::change::{Change, Write};
use dh_changes::keys::ApprovalKey;
use std::alloc::Global;
use std::sync::Arc;
use table_build::lists::put_found;

fn approval_named(write: &Write) -> Option<ApprovalKey>
    ensures { result ≡ known.approval_named write.now }
{
    match write {
        Write::Approve(key) => Some(*key),
        Write::Unapprove(key) => Some(*key),
        Write::Accept(key) => Some(*key),
        Write::Unaccept(key) => Some(*key),
        _ => None,
    }
}

fn put_writes(keys: &mut Vec<ApprovalKey>, writes: &[Write]) -> Result<(), Memory>
    ensures { OnOk result (keys.new.items ≡ keys.old.items ++ known.approvals_named writes.now) }
{
    for write in writes {
        put_found(keys, approval_named(write))?;
    }
    Ok(())
}

/// The keys of approvals that the writes of the changes name.
pub(crate) fn approvals_of(
    alloc: Global,
    changes: &[Arc<Change>],
) -> Result<Vec<ApprovalKey>, Memory>
    ensures { IfOk result (λ keys. keys.items ≡ known.approvals_named (writes_of (map arc_value changes.now))) }
{
    let mut keys: Vec<ApprovalKey> = Vec::new(alloc);
    for change in changes {
        put_writes(&mut keys, change.writes.as_slice())?;
    }
    Ok(keys)
}
