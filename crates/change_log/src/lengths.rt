//! How many bytes a change takes.
ghost use Rattle.std.specs.Prelude.{◌≡◌, ◌≤◌, ◌<◌, ◌+◌, ◌^◌, ◌++◌, ℕ, length};
ghost use Rattle.std.specs.List.{flat_map};
ghost use Rattle.std.specs.Int.{w8, w16, w32, w64};
ghost use Rattle.change_log.specs.Words.{number, text, listed, optional_id, capped};
ghost use Rattle.change_log.specs.Fields.{period_bytes, value_key_bytes, approval_key_bytes, reg_key_bytes, event_bytes, enrollment_bytes, entity_bytes};
ghost use Rattle.change_log.specs.Bytes.{write_bytes, head_bytes, body_bytes, change_bytes};

use crate::periods::period_len;
use crate::write_words::{id_len, id_texts_len};
use dh_base::uid::Uid;
use dh_changes::change::{Change, Write};
use dh_changes::keys::{ApprovalKey, RegKey, ValueKey};
use dh_changes::tracker::{Enrollment, Entity, Event};
use dh_periods::Period;

fn optional_id_len(id: Option<Uid>) -> u64
    ensures value { result ≡ length (optional_id id) }
    ensures eleven { result ≡ 11 }
{
    match id {
        Some(id) => id_len(id),
        None => 11,
    }
}

#[tactic(auto, unfolding(crate::specs::Fields::period_bytes))]
fn period_bytes_len(period: Period) -> u64
    ensures value { result ≡ length (period_bytes period) }
    ensures bound { result ≤ 12 }
{
    1 + period_len(period)
}

fn three_ids_len(first: Uid, second: Uid, third: Uid) -> u64
    ensures value { result ≡ length (first ++ (second ++ third)) }
    ensures bound { result ≡ 33 }
{
    id_len(first) + id_len(second) + id_len(third)
}

fn two_ids_len(first: Uid, second: Uid) -> u64
    ensures value { result ≡ length (first ++ second) }
    ensures bound { result ≡ 22 }
{
    id_len(first) + id_len(second)
}

fn value_key_len(key: &ValueKey) -> u64
    ensures value { result ≡ length (value_key_bytes key.now) }
    ensures bound { result ≤ 56 }
{
    let ids = three_ids_len(key.unit, key.combo, key.attribute);
    id_len(key.element) + period_bytes_len(key.period) + ids
}

fn approval_key_len(key: &ApprovalKey) -> u64
    ensures value { result ≡ length (approval_key_bytes key.now) }
    ensures bound { result ≤ 45 }
{
    let ids = two_ids_len(key.unit, key.attribute);
    id_len(key.workflow) + period_bytes_len(key.period) + ids
}

fn reg_key_len(key: &RegKey) -> u64
    ensures value { result ≡ length (reg_key_bytes key.now) }
    ensures bound { result ≤ 45 }
{
    let ids = two_ids_len(key.unit, key.attribute);
    id_len(key.set) + period_bytes_len(key.period) + ids
}

fn event_len(event: &Event) -> u64
    ensures { result ≡ capped (length (event_bytes event.now)) }
{
    let ids = id_len(event.id)
        + optional_id_len(event.enrollment)
        + two_ids_len(event.program, event.stage)
        + id_len(event.unit);
    (ids + 9).saturating_add(id_texts_len(event.values.as_slice()))
}

fn enrollment_len(enrollment: &Enrollment) -> u64
    ensures value { result ≡ length (enrollment_bytes enrollment.now) }
    ensures bound { result ≡ 53 }
{
    let ids = three_ids_len(enrollment.id, enrollment.entity, enrollment.program);
    ids + id_len(enrollment.unit) + 9
}

fn entity_len(entity: &Entity) -> u64
    ensures { result ≡ capped (length (entity_bytes entity.now)) }
{
    let ids = three_ids_len(entity.id, entity.kind, entity.unit);
    ids.saturating_add(id_texts_len(entity.attributes.as_slice()))
}

fn value_set_len(key: &ValueKey, value: &[u8]) -> u64
    ensures { result ≡ capped (length (value_key_bytes key.now ++ text w16 value.now)) }
{
    (value_key_len(key) + 2).saturating_add(value.len() as u64)
}

// The bytes after the kind.
fn write_len(write: &Write) -> u64
    ensures { result ≡ capped (length (write_bytes write.now)) }
{
    let fields = match write {
        Write::ValueSet { key, value } => value_set_len(key, value.as_slice()),
        Write::ValueCleared { key } => value_key_len(key),
        Write::EventWritten(event) => event_len(event.get()),
        Write::EventDeleted(id) => id_len(*id),
        Write::EnrollmentWritten(enrollment) => enrollment_len(enrollment.get()),
        Write::EnrollmentDeleted(id) => id_len(*id),
        Write::EntityWritten(entity) => entity_len(entity.get()),
        Write::EntityDeleted(id) => id_len(*id),
        Write::Approve(key) => approval_key_len(key),
        Write::Unapprove(key) => approval_key_len(key),
        Write::Accept(key) => approval_key_len(key),
        Write::Unaccept(key) => approval_key_len(key),
        Write::Complete { key, .. } => reg_key_len(key) + 4,
        Write::Uncomplete { key } => reg_key_len(key),
    };
    fields.saturating_add(1)
}

fn writes_len(writes: &[Write]) -> u64
    ensures { result ≡ capped (length (listed w32 write_bytes writes.now)) }
{
    let mut len = 4u64;
    for write in writes {
        len = len.saturating_add(write_len(write));
    }
    len
}

fn head_len(change: &Change) -> u64
    ensures value { (number : ℕ) → result ≡ length (head_bytes number change.now) }
    ensures bound { result ≡ 27 }
{
    optional_id_len(change.user) + 16
}

#[tactic(auto, unfolding(crate::specs::Bytes::body_bytes))]
pub(crate) fn body_len(change: &Change) -> u64
    ensures { (number : ℕ) → result ≡ capped (length (body_bytes number change.now)) }
{
    head_len(change).saturating_add(writes_len(change.writes.as_slice()))
}

/// How many bytes the change takes, whatever its number. What fits no field counts in full, and a
/// length that fits no number of eight bytes is told as the largest one.
#[tactic(auto, unfolding(crate::specs::Bytes::change_bytes))]
pub fn encoded_len(change: &Change) -> u64
    ensures value { (number : ℕ) → result ≡ capped (length (change_bytes number change.now)) }
    ensures size { (number : ℕ) → result < 2 ^ 32 + 4 → length (body_bytes number change.now) < 2 ^ 32 }
{
    body_len(change).saturating_add(4)
}
