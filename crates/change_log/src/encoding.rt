ghost use Rattle.std.specs.Prelude.{◌≡◌, ◌++◌, ◌<◌, ◌^◌, length, IfSome, IfOk, OnOk};
ghost use Rattle.std.specs.List.{All, flat_map};
ghost use Rattle.std.specs.Int.{w16, w32, w64};
ghost use Rattle.std.specs.Int.RustNames.{FitsSigned};
ghost use Rattle.change_log.specs.Words.{signed, text, listed, IsId};
ghost use Rattle.change_log.specs.Fields.{value_key_bytes, reg_key_bytes};
ghost use Rattle.change_log.specs.Bytes.{kind_of, fields_of, write_bytes, head_bytes, body_bytes, change_bytes};
ghost use Rattle.change_log.specs.Forms.{WriteFits, ChangeFits, IsWrite, IsChange, IsValueKey, IsRegKey};

use crate::lengths::body_len;
use crate::put::{Put, put_each};
use crate::write_words::{put_u8, put_u32};
use dh_base::items::Items;
use dh_base::memory::Memory;
use dh_changes::change::{Change, Write};
use std::alloc::Global;

// The number of a kind of write.
fn kind_of(write: &Write) -> u8
    ensures { result ≡ kind_of write.now }
{
    match write {
        Write::ValueSet { .. } => 1,
        Write::ValueCleared { .. } => 2,
        Write::EventWritten(_) => 3,
        Write::EventDeleted(_) => 4,
        Write::EnrollmentWritten(_) => 5,
        Write::EnrollmentDeleted(_) => 6,
        Write::EntityWritten(_) => 7,
        Write::EntityDeleted(_) => 8,
        Write::Approve(_) => 9,
        Write::Unapprove(_) => 10,
        Write::Accept(_) => 11,
        Write::Unaccept(_) => 12,
        Write::Complete { .. } => 13,
        Write::Uncomplete { .. } => 14,
    }
}

// The fields after the kind.
fn put_fields(alloc: Global, out: &mut Vec<u8>, write: &Write) -> Result<(), Memory>
    requires { WriteFits write.now }
    ensures grown { OnOk result (out.new.items ≡ out.old.items ++ fields_of write.now) }
    ensures valid { OnOk result (IsWrite write.now) }
{
    match write {
        Write::ValueSet { key, value } => (key, value).put(alloc, out),
        Write::ValueCleared { key } => key.put(alloc, out),
        Write::EventWritten(event) => event.get().put(alloc, out),
        Write::EnrollmentWritten(enrollment) => enrollment.get().put(alloc, out),
        Write::EntityWritten(entity) => entity.get().put(alloc, out),
        Write::EventDeleted(id) | Write::EnrollmentDeleted(id) | Write::EntityDeleted(id) => {
            id.put(alloc, out)
        }
        Write::Approve(key) | Write::Unapprove(key) | Write::Accept(key) | Write::Unaccept(key) => {
            key.put(alloc, out)
        }
        Write::Complete { key, day } => (key, *day).put(alloc, out),
        Write::Uncomplete { key } => key.put(alloc, out),
    }
}

impl Put for Write {
    ghost bytes = { write_bytes };

    ghost Fits = { WriteFits };

    ghost Holds = { IsWrite };

    fn put(&self, alloc: Global, out: &mut Vec<u8>) -> Result<(), Memory> {
        put_u8(out, kind_of(self))?;
        put_fields(alloc, out, self)
    }
}

impl Put for Items<Write> {
    ghost bytes = { listed w32 write_bytes };

    ghost Fits = { λ writes. (length writes < 2 ^ 32) × All WriteFits writes };

    ghost Holds = { All IsWrite };

    fn put(&self, alloc: Global, out: &mut Vec<u8>) -> Result<(), Memory> {
        put_u32(out, self.len() as u32)?;
        put_each(alloc, out, self.as_slice())
    }
}

// The number, who made the change, and when; then the writes.
#[tactic(auto, unfolding(crate::specs::Bytes::body_bytes))]
fn put_body(alloc: Global, out: &mut Vec<u8>, change: &Change, number: u64) -> Result<(), Memory>
    requires { (length change.now.writes < 2 ^ 32) × All WriteFits change.now.writes }
    ensures grown { OnOk result (out.new.items ≡ out.old.items ++ body_bytes number change.now) }
    ensures valid { OnOk result (((number < 2 ^ 64)
        × (IfSome change.now.user IsId × FitsSigned w64 change.now.moment))
        × All IsWrite change.now.writes) }
{
    let head = (number, (change.user, change.moment));
    (head, &change.writes).put(alloc, out)
}

/// The bytes of the change under that number. They are read again as that change, whatever follows.
#[tactic(auto, unfolding(crate::specs::Bytes::change_bytes))]
pub fn encode(alloc: Global, change: &Change, number: u64) -> Result<Vec<u8>, Memory>
    requires { ChangeFits number change.now }
    ensures bytes { IfOk result (λ v. v.items ≡ change_bytes number change.now) }
    ensures valid { OnOk result (IsChange number change.now) }
{
    let len = body_len(change);
    let mut out = Vec::with_capacity(alloc, len as usize + 4)?;
    put_u32(&mut out, len as u32)?;
    put_body(alloc, &mut out, change, number)?;
    Ok(out)
}
