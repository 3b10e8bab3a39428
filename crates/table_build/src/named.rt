//! The keys that writes name.
ghost use Rattle.std.specs.Prelude.{◌≡◌, ◌++◌, Option, map, OnOk, IfOk};
ghost use Rattle.std.specs.Arc.{arc_value};
ghost use Rattle.std.specs.List.{filter_map};
ghost use Rattle.dh_changes.specs.declared.change.Write.{Write as LogWrite};
ghost use Rattle.table_build.specs.Log.{writes_of};

use crate::lists::put_found;
use dh_base::memory::Memory;
use dh_base::uid::Uid;
use dh_changes::change::{Change, Write};
use dh_changes::keys::{RegKey, ValueKey};
use std::alloc::Global;
use std::sync::Arc;

/// A key that a write may name.
pub trait Named {
    /// The key that a write names.
    ghost named: { LogWrite → Option Self };

    /// The key that the write names.
    fn named_by(write: &Write) -> Option<Self>
        ensures { result ≡ named write.now };
}

impl Named for ValueKey {
    ghost use Rattle.table_build.specs.Log.{value_named};

    ghost named = { value_named };

    fn named_by(write: &Write) -> Option<ValueKey> {
        match write {
            Write::ValueSet { key, .. } => Some(*key),
            Write::ValueCleared { key } => Some(*key),
            _ => None,
        }
    }
}

impl Named for RegKey {
    ghost use Rattle.table_build.specs.Log.{reg_named};

    ghost named = { reg_named };

    fn named_by(write: &Write) -> Option<RegKey> {
        match write {
            Write::Complete { key, .. } => Some(*key),
            Write::Uncomplete { key } => Some(*key),
            _ => None,
        }
    }
}

// Events are named by their identifiers.
impl Named for Uid {
    ghost use Rattle.table_build.specs.Log.{event_named};

    ghost named = { event_named };

    fn named_by(write: &Write) -> Option<Uid> {
        match write {
            Write::EventWritten(event) => Some(event.get().id),
            Write::EventDeleted(id) => Some(*id),
            _ => None,
        }
    }
}

fn put<T: Drop + Named>(keys: &mut Vec<T>, writes: &[Write]) -> Result<(), Memory>
    ensures { OnOk result (keys.new.items ≡ keys.old.items ++ filter_map T.named writes.now) }
{
    for write in writes {
        put_found(keys, T::named_by(write))?;
    }
    Ok(())
}

/// The keys that the writes of the changes name, in the order of the writes.
pub fn named_in<T: Drop + Named>(alloc: Global, changes: &[Arc<Change>]) -> Result<Vec<T>, Memory>
    ensures { IfOk result (λ keys. keys.items ≡ filter_map T.named (writes_of (map arc_value changes.now))) }
{
    let mut keys: Vec<T> = Vec::new(alloc);
    for change in changes {
        put(&mut keys, change.writes.as_slice())?;
    }
    Ok(keys)
}
