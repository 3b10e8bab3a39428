ghost use Rattle.std.specs.Prelude.{◌≡◌, ◌||◌, ◌==◌};
ghost use Rattle.change_log.specs.Given.{Gives};
ghost use Rattle.change_log.specs.Reading.{is_deletion, value_write_at, tracker_write_at, deletion_at, approval_at};
ghost use Rattle.change_log.specs.Reading.{registration_at, change_at};

use crate::decode_fields::read_given_day;
use crate::fault::ReadFault;
use crate::field::{Field, read_each};
use crate::read_words::{read_u8, read_u32};
use dh_base::items::Items;
use dh_base::uid::Uid;
use dh_changes::change::{Change, Write};
use dh_changes::keys::ApprovalKey;
use std::alloc::Global;

#[tactic(auto, unfolding(crate::specs::Reading::value_write_at, crate::specs::Reading::value_set_at))]
fn read_value_write(alloc: Global, kind: u8, rest: &mut &[u8]) -> Result<Write, ReadFault>
    ensures { Gives (value_write_at kind rest.old.now) result rest.new.now }
{
    match kind {
        1 => {
            let (key, value) = Field::read(alloc, rest)?;
            Ok(Write::ValueSet { key, value })
        }
        2 => Ok(Write::ValueCleared {
            key: Field::read(alloc, rest)?,
        }),
        _ => Err(ReadFault::Bad),
    }
}

#[tactic(auto, unfolding(crate::specs::Reading::tracker_write_at))]
fn read_tracker_write(alloc: Global, kind: u8, rest: &mut &[u8]) -> Result<Write, ReadFault>
    ensures { Gives (tracker_write_at kind rest.old.now) result rest.new.now }
{
    match kind {
        3 => Ok(Write::EventWritten(Field::read(alloc, rest)?)),
        5 => Ok(Write::EnrollmentWritten(Field::read(alloc, rest)?)),
        7 => Ok(Write::EntityWritten(Field::read(alloc, rest)?)),
        _ => Err(ReadFault::Bad),
    }
}

#[tactic(auto, unfolding(crate::specs::Reading::deletion_at))]
fn read_deletion(alloc: Global, kind: u8, rest: &mut &[u8]) -> Result<Write, ReadFault>
    ensures { Gives (deletion_at kind rest.old.now) result rest.new.now }
{
    let id = Uid::read(alloc, rest)?;
    match kind {
        4 => Ok(Write::EventDeleted(id)),
        6 => Ok(Write::EnrollmentDeleted(id)),
        8 => Ok(Write::EntityDeleted(id)),
        _ => Err(ReadFault::Bad),
    }
}

#[tactic(auto, unfolding(crate::specs::Reading::approval_at))]
fn read_approval(alloc: Global, kind: u8, rest: &mut &[u8]) -> Result<Write, ReadFault>
    ensures { Gives (approval_at kind rest.old.now) result rest.new.now }
{
    let key = ApprovalKey::read(alloc, rest)?;
    match kind {
        9 => Ok(Write::Approve(key)),
        10 => Ok(Write::Unapprove(key)),
        11 => Ok(Write::Accept(key)),
        12 => Ok(Write::Unaccept(key)),
        _ => Err(ReadFault::Bad),
    }
}

#[tactic(auto, unfolding(crate::specs::Reading::registration_at, crate::specs::Reading::complete_at))]
fn read_registration(alloc: Global, kind: u8, rest: &mut &[u8]) -> Result<Write, ReadFault>
    ensures { Gives (registration_at kind rest.old.now) result rest.new.now }
{
    match kind {
        13 => {
            let key = Field::read(alloc, rest)?;
            let day = read_given_day(rest)?;
            Ok(Write::Complete { key, day })
        }
        14 => Ok(Write::Uncomplete {
            key: Field::read(alloc, rest)?,
        }),
        _ => Err(ReadFault::Bad),
    }
}

fn is_deletion(kind: u8) -> bool
    ensures { result ≡ is_deletion kind }
{
    kind == 4 || kind == 6 || kind == 8
}

impl Field for Write {
    ghost use Rattle.change_log.specs.Reading.{write_at};

    ghost form = { write_at };

    #[tactic(auto, unfolding(crate::specs::Reading::write_at, crate::specs::Reading::fields_at))]
    fn read(alloc: Global, rest: &mut &[u8]) -> Result<Write, ReadFault> {
        let kind = read_u8(rest)?;
        if kind < 3 {
            return read_value_write(alloc, kind, rest);
        }
        if is_deletion(kind) {
            return read_deletion(alloc, kind, rest);
        }
        if kind < 9 {
            return read_tracker_write(alloc, kind, rest);
        }
        if kind < 13 {
            return read_approval(alloc, kind, rest);
        }
        read_registration(alloc, kind, rest)
    }
}

impl Field for Items<Write> {
    ghost use Rattle.change_log.specs.Reading.{writes_at};

    ghost form = { writes_at };

    #[tactic(auto, unfolding(crate::specs::Reading::writes_at))]
    fn read(alloc: Global, rest: &mut &[u8]) -> Result<Items<Write>, ReadFault> {
        let count = read_u32(rest)?;
        if count == 0 {
            return Err(ReadFault::Bad);
        }
        read_each(alloc, count, rest)
    }
}

// The number, who made the change, and when.
type Head = (u64, (Option<Uid>, i64));

/// A change under that number after its length.
#[tactic(auto, unfolding(crate::specs::Reading::change_at))]
pub(crate) fn read_change(alloc: Global, number: u64, rest: &mut &[u8]) -> Result<Change, ReadFault>
    ensures { Gives (change_at number rest.old.now) result rest.new.now }
{
    let (head, writes): (Head, Items<Write>) = Field::read(alloc, rest)?;
    let (found, (user, moment)) = head;
    if found == number {
        Ok(Change {
            user,
            moment,
            writes,
        })
    } else {
        Err(ReadFault::Bad)
    }
}
