//! The verdict so far, and what its writes say.

ghost use Rattle.std.specs.Prelude.{◌≡◌, ◌+◌, ◌<◌, ◌^◌, ◌++◌, ◌∷◌, [], OnOk, is_some};
ghost use Rattle.dh_changes.specs.World.{facts};
ghost use Rattle.value_import.specs.Outcomes.{nothing, taken, AreAtMost};
ghost use Rattle.value_import.specs.Said as says;
ghost use Rattle.value_import.specs.Said.{AreSaid, IsNoted};

use crate::judged::Judged;
use dh_base::items::Items;
use dh_base::memory::Memory;
use dh_changes::change::Write;
use dh_changes::keys::{RegKey, ValueKey};
use dh_changes::outcome::{Conflict, Verdict};
use dh_changes::world::World;
use std::alloc::Global;
use std::collections::HashMap;

/// The verdict so far, and of each key that its writes name whether it holds something after them.
#[derive(Drop)]
pub struct Batch {
    pub verdict: Verdict,
    pub values: HashMap<ValueKey, bool>,
    pub registrations: HashMap<RegKey, bool>,
}

/// Nothing is accepted. What will be accepted comes to these writes, of which there are none.
pub fn empty_batch(alloc: Global, writes: Items<Write>) -> Batch
    requires { writes ≡ [] }
    ensures verdict { result.verdict ≡ nothing }
    ensures said { AreSaid result.values result.registrations result.verdict.writes }
    ensures counts { AreAtMost 0 result.verdict }
{
    Batch {
        verdict: Verdict {
            writes,
            conflicts: Items::new(alloc),
            imported: 0,
            updated: 0,
            ignored: 0,
            deleted: 0,
        },
        values: HashMap::new(alloc),
        registrations: HashMap::new(alloc),
    }
}

/// Whether the key holds a value, after the log and the writes accepted so far.
pub fn holds_value(world: &World, batch: &Batch, key: &ValueKey) -> bool
    requires { AreSaid batch.now.values batch.now.registrations batch.now.verdict.writes }
    ensures { result ≡ says.holds_value (facts world.now) batch.now.verdict.writes key.now }
{
    match batch.values.get(key) {
        Some(held) => *held,
        None => world.value(key).is_some(),
    }
}

/// Whether the key holds a registration, after the log and the writes accepted so far.
pub fn holds_registration(world: &World, batch: &Batch, key: &RegKey) -> bool
    requires { AreSaid batch.now.values batch.now.registrations batch.now.verdict.writes }
    ensures { result ≡ says.holds_registration (facts world.now) batch.now.verdict.writes key.now }
{
    match batch.registrations.get(key) {
        Some(held) => *held,
        None => world.registration(key).is_some(),
    }
}

// Notes what a write says.
fn note(
    values: &mut HashMap<ValueKey, bool>,
    registrations: &mut HashMap<RegKey, bool>,
    write: &Write,
) -> Result<(), Memory>
    ensures { OnOk result (IsNoted write.now (values.old, registrations.old) (values.new, registrations.new)) }
{
    match write {
        Write::ValueSet { key, .. } => {
            values.insert(*key, true)?;
        }
        Write::ValueCleared { key } => {
            values.insert(*key, false)?;
        }
        Write::EventWritten(_) => {}
        Write::EventDeleted(_) => {}
        Write::EnrollmentWritten(_) => {}
        Write::EnrollmentDeleted(_) => {}
        Write::EntityWritten(_) => {}
        Write::EntityDeleted(_) => {}
        Write::Approve(_) => {}
        Write::Unapprove(_) => {}
        Write::Accept(_) => {}
        Write::Unaccept(_) => {}
        Write::Complete { key, .. } => {
            registrations.insert(*key, true)?;
        }
        Write::Uncomplete { key } => {
            registrations.insert(*key, false)?;
        }
    }
    Ok(())
}

// Accepts a write.
fn accept(batch: &mut Batch, write: Write) -> Result<(), Memory>
    requires { AreSaid batch.old.values batch.old.registrations batch.old.verdict.writes }
    ensures verdict { OnOk result (batch.new.verdict ≡ record batch.old.verdict { writes = batch.old.verdict.writes ++ write ∷ [] }) }
    ensures said { OnOk result (AreSaid batch.new.values batch.new.registrations batch.new.verdict.writes) }
{
    note(&mut batch.values, &mut batch.registrations, &write)?;
    batch.verdict.writes.push(write)?;
    Ok(())
}

/// Takes in what the value or completion at an index comes to.
pub fn take_in(batch: &mut Batch, index: u64, judged: Judged) -> Result<(), Memory>
    requires said { AreSaid batch.old.values batch.old.registrations batch.old.verdict.writes }
    requires counts { AreAtMost index batch.old.verdict }
    requires few { index + 1 < 2 ^ 64 }
    ensures verdict { OnOk result (batch.new.verdict ≡ taken index judged batch.old.verdict) }
    ensures said { OnOk result (AreSaid batch.new.values batch.new.registrations batch.new.verdict.writes) }
    ensures counts { OnOk result (AreAtMost (index + 1) batch.new.verdict) }
{
    match judged {
        Judged::Refused(code) => {
            let conflict = Conflict {
                code,
                index,
                uid: None,
            };
            batch.verdict.ignored += 1;
            batch.verdict.conflicts.push(conflict)
        }
        Judged::Ignored => {
            batch.verdict.ignored += 1;
            Ok(())
        }
        Judged::Imported(write) => {
            batch.verdict.imported += 1;
            accept(batch, write)
        }
        Judged::Updated(write) => {
            batch.verdict.updated += 1;
            accept(batch, write)
        }
        Judged::Deleted(write) => {
            batch.verdict.deleted += 1;
            accept(batch, write)
        }
        Judged::Uncounted(write) => accept(batch, write),
    }
}
