//! What a log holds in memory: its changes, the index of what they say, and how large they are.
ghost use Rattle.std.specs.Prelude.{◌≡◌, ◌≤◌, ◌<◌, ◌+◌, ◌++◌, ◌∷◌, ◌^◌, ℕ, [], length, None, IfOk, OnOk};
ghost use Rattle.std.specs.Arc.{arc_value};
ghost use Rattle.std.specs.List.{All};
ghost use Rattle.change_log.specs.Bytes.{change_bytes};
ghost use Rattle.change_log.specs.Forms.{WriteFits, ChangeFits};
ghost use Rattle.change_log.specs.Log.{over, passed, Appends, AreLimits};
ghost use Rattle.change_log.specs.Held.{changes_of, seen, IsHeld, IsKept, HasRoom, Keeps};
ghost use Rattle.dh_base.specs.declared.limits.TheConstants.{MOST_LOG_BYTES};

use crate::limits::{AppendFault, Limits};
use crate::{encode, encoded_len, log_grows};
use dh_base::memory::Memory;
use dh_changes::change::Change;
use dh_changes::world::World;
use dh_outside::{KeepFault, Keeper};
use std::alloc::Global;
use std::sync::Arc;

#[derive(Drop)]
pub(crate) struct Held {
    pub(crate) world: World,
    pub(crate) changes: Vec<Arc<Change>>,
    // How many writes and bytes the changes have.
    pub(crate) writes: u64,
    pub(crate) bytes: u64,
}

pub(crate) fn nothing_held(alloc: Global) -> Held
    ensures held { IsHeld result }
    ensures none { changes_of result ≡ [] }
{
    let world = World::new(alloc);
    let changes = Vec::new(alloc);
    Held {
        world,
        changes,
        writes: 0,
        bytes: 0,
    }
}

pub(crate) fn count_of(held: &Held) -> u64
    ensures { result ≡ length (changes_of held.now) }
{
    held.changes.len() as u64
}

// The limit that so many writes and bytes would pass with a change more.
fn limit_over(limits: &Limits, writes: u64, bytes: u64, change: &Change) -> Option<u64>
    requires { AreLimits limits.now }
    ensures { (number : ℕ) → result ≡ over limits.now (writes + length change.now.writes) (bytes + length (change_bytes number change.now)) }
{
    if writes.saturating_add(change.writes.len() as u64) > limits.writes {
        return Some(limits.writes);
    }
    if bytes.saturating_add(encoded_len(change)) > limits.bytes {
        return Some(limits.bytes);
    }
    None
}

// The limit that the log with a change more would pass.
pub(crate) fn limit_passed(held: &Held, limits: &Limits, change: &Change) -> Option<u64>
    requires limits { AreLimits limits.now }
    requires held { IsHeld held.now }
    ensures { result ≡ passed limits.now (changes_of held.now ++ change.now ∷ []) }
{
    log_grows();
    limit_over(limits, held.writes, held.bytes, change)
}

// Puts a change last for which there is room. It takes no memory.
fn put_last(held: &mut Held, entry: Arc<Change>, len: u64)
    requires held { IsHeld held.old }
    requires room { HasRoom held.old (arc_value entry) }
    requires some { 0 < length (arc_value entry).writes }
    requires len { len ≡ length (change_bytes (length held.old.changes.items + 1) (arc_value entry)) }
    requires writes { held.old.writes + length (arc_value entry).writes < 2 ^ 64 }
    requires bytes { held.old.bytes + len < 2 ^ 64 }
    ensures held { IsHeld held.new }
    ensures last { changes_of held.new ≡ changes_of held.old ++ arc_value entry ∷ [] }
{
    log_grows();
    held.writes += entry.writes.len() as u64;
    held.bytes += len;
    held.world.apply(&entry);
    held.changes.push_reserved(entry);
}

fn share(alloc: Global, change: Change) -> Result<Arc<Change>, Memory>
    ensures { IfOk result (λ entry. arc_value entry ≡ change) }
{
    Ok(Arc::new(alloc, change)?)
}

// Has the keeper keep these bytes after those that it has.
fn keep<K: Keeper>(alloc: Global, keeper: &mut K, at: u64, bytes: &[u8]) -> Result<(), AppendFault>
    requires beyond { at ≡ K.acknowledged keeper.old }
    requires some { 0 < length bytes.now }
    requires room { at + length bytes.now ≤ MOST_LOG_BYTES }
    ensures { Keeps (K.acknowledged keeper.old) (K.acknowledged keeper.new) (K.kept keeper.old) (K.kept keeper.new) (K.keeper_faults keeper.old)
        (K.keeper_faults keeper.new) bytes.now result }
{
    match keeper.append(alloc, at, bytes) {
        Ok(()) => Ok(()),
        Err(KeepFault::Failed) => Err(AppendFault::StoreFault),
        Err(KeepFault::TooLong) => Err(AppendFault::StoreFault),
        Err(KeepFault::Memory) => Err(AppendFault::Memory),
    }
}

// Makes room for a change, and its bytes.
fn prepare(alloc: Global, held: &mut Held, change: &Change, number: u64) -> Result<Vec<u8>, Memory>
    requires held { IsHeld held.old }
    requires fits { ChangeFits number change.now }
    ensures held { IsHeld held.new }
    ensures same { held.new.changes.items ≡ held.old.changes.items }
    ensures room { OnOk result (HasRoom held.new change.now) }
    ensures bytes { IfOk result (λ bytes. bytes.items ≡ change_bytes number change.now) }
{
    held.world.reserve(alloc, change.writes.as_slice())?;
    held.changes.reserve(1)?;
    encode(alloc, change, number)
}

// Brings a change with which the log passes no limit. All memory is taken before the keeper is
// called.
fn store<K: Keeper>(
    alloc: Global,
    held: &mut Held,
    keeper: &mut K,
    limits: &Limits,
    change: Change,
) -> Result<u64, AppendFault>
    requires kept { IsKept held.old (seen held.old (K.acknowledged keeper.old) (K.kept keeper.old) (K.keeper_faults keeper.old) limits.now) }
    requires some { 0 < length change.writes }
    requires fits { All WriteFits change.writes }
    requires within { passed limits.now (changes_of held.old ++ change ∷ []) ≡ None }
    ensures appends { Appends (seen held.old (K.acknowledged keeper.old) (K.kept keeper.old) (K.keeper_faults keeper.old) limits.now) change result
        (seen held.new (K.acknowledged keeper.new) (K.kept keeper.new) (K.keeper_faults keeper.new) limits.now) }
    ensures held { IsHeld held.new }
{
    log_grows();
    let number = count_of(held) + 1;
    let bytes = prepare(alloc, held, &change, number)?;
    let entry = share(alloc, change)?;
    keep(alloc, keeper, held.bytes, &bytes)?;
    put_last(held, entry, bytes.len() as u64);
    Ok(number)
}

pub(crate) fn bring<K: Keeper>(
    alloc: Global,
    held: &mut Held,
    keeper: &mut K,
    limits: &Limits,
    change: Change,
) -> Result<u64, AppendFault>
    requires kept { IsKept held.old (seen held.old (K.acknowledged keeper.old) (K.kept keeper.old) (K.keeper_faults keeper.old) limits.now) }
    requires some { 0 < length change.writes }
    requires fits { All WriteFits change.writes }
    ensures appends { Appends (seen held.old (K.acknowledged keeper.old) (K.kept keeper.old) (K.keeper_faults keeper.old) limits.now) change result
        (seen held.new (K.acknowledged keeper.new) (K.kept keeper.new) (K.keeper_faults keeper.new) limits.now) }
    ensures kept { IsKept held.new (seen held.new (K.acknowledged keeper.new) (K.kept keeper.new) (K.keeper_faults keeper.new) limits.now) }
{
    match limit_passed(held, limits, &change) {
        Some(limit) => Err(AppendFault::LogFull { limit }),
        None => store(alloc, held, keeper, limits, change),
    }
}
