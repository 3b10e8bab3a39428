ghost use Rattle.std.specs.Prelude.{◌≡◌, ℕ, List, length, take, drop, IfOk};
ghost use Rattle.std.specs.Int.{w8, w16, w32, w64};
ghost use Rattle.change_log.specs.ReadWords.{bytes_at, number_at, signed_at, text_at};
ghost use Rattle.change_log.specs.Given.{GivesAs, Gives};

use crate::fault::ReadFault;
use crate::field::{Field, read_each};
use dh_base::items::Items;
use dh_base::uid::Uid;
use dh_changes::text::Text;
use std::alloc::{AllocError, Global};

/// The next so many bytes, lent. Each reader takes what it reads from the front of `rest`.
#[tactic(auto, unfolding(crate::specs::ReadWords::bytes_at))]
pub fn read_bytes<'a>(rest: &mut &'a [u8], len: usize) -> Result<&'a [u8], ReadFault>
    ensures read { GivesAs (λ piece. piece.now) (bytes_at len rest.old.now) result rest.new.now }
    ensures len { IfOk result (λ piece. length piece.now ≡ len) }
{
    let bytes: &'a [u8] = *rest;
    if bytes.len() < len {
        return Err(ReadFault::Bad);
    }
    let (piece, beyond) = bytes.split_at(len);
    *rest = beyond;
    Ok(piece)
}

/// A number of one byte.
#[tactic(auto, unfolding(crate::specs::ReadWords::number_at))]
pub fn read_u8(rest: &mut &[u8]) -> Result<u8, ReadFault>
    ensures { Gives (number_at w8 rest.old.now) result rest.new.now }
{
    let piece = read_bytes(rest, 1)?;
    Ok(u8::from_be_bytes([piece[0]]))
}

/// A number of one byte.
impl Field for u8 {
    ghost form = { number_at w8 };

    fn read(_alloc: Global, rest: &mut &[u8]) -> Result<u8, ReadFault> {
        read_u8(rest)
    }
}

/// A number of two bytes.
#[tactic(auto, unfolding(crate::specs::ReadWords::number_at))]
pub fn read_u16(rest: &mut &[u8]) -> Result<u16, ReadFault>
    ensures { Gives (number_at w16 rest.old.now) result rest.new.now }
{
    let piece = read_bytes(rest, 2)?;
    Ok(u16::from_be_bytes([piece[0], piece[1]]))
}

/// A number of four bytes.
#[tactic(auto, unfolding(crate::specs::ReadWords::number_at))]
pub fn read_u32(rest: &mut &[u8]) -> Result<u32, ReadFault>
    ensures { Gives (number_at w32 rest.old.now) result rest.new.now }
{
    let piece = read_bytes(rest, 4)?;
    Ok(u32::from_be_bytes([piece[0], piece[1], piece[2], piece[3]]))
}

/// A number of eight bytes.
impl Field for u64 {
    ghost form = { number_at w64 };

    #[tactic(auto, unfolding(crate::specs::ReadWords::number_at))]
    fn read(_alloc: Global, rest: &mut &[u8]) -> Result<u64, ReadFault> {
        let piece = read_bytes(rest, 8)?;
        Ok(u64::from_be_bytes([
            piece[0], piece[1], piece[2], piece[3], piece[4], piece[5], piece[6], piece[7],
        ]))
    }
}

/// A number of four bytes that may be negative.
#[tactic(auto, unfolding(crate::specs::ReadWords::signed_at))]
pub fn read_i32(rest: &mut &[u8]) -> Result<i32, ReadFault>
    ensures { Gives (signed_at w32 rest.old.now) result rest.new.now }
{
    let number = read_u32(rest)?;
    Ok(number.cast_signed())
}

/// A number of eight bytes that may be negative.
impl Field for i64 {
    ghost form = { signed_at w64 };

    #[tactic(auto, unfolding(crate::specs::ReadWords::signed_at))]
    fn read(alloc: Global, rest: &mut &[u8]) -> Result<i64, ReadFault> {
        let number = u64::read(alloc, rest)?;
        Ok(number.cast_signed())
    }
}

/// A text after its length of one byte, lent.
#[tactic(auto, unfolding(crate::specs::ReadWords::text_at))]
pub fn read_short_text<'a>(rest: &mut &'a [u8]) -> Result<&'a [u8], ReadFault>
    ensures { GivesAs (λ text. text.now) (text_at w8 rest.old.now) result rest.new.now }
{
    let len = read_u8(rest)?;
    read_bytes(rest, usize::from(len))
}

/// A text after its length of two bytes, lent.
#[tactic(auto, unfolding(crate::specs::ReadWords::text_at))]
pub fn read_text<'a>(rest: &mut &'a [u8]) -> Result<&'a [u8], ReadFault>
    ensures { GivesAs (λ text. text.now) (text_at w16 rest.old.now) result rest.new.now }
{
    let len = read_u16(rest)?;
    read_bytes(rest, usize::from(len))
}

/// A text after its length of four bytes, lent.
#[tactic(auto, unfolding(crate::specs::ReadWords::text_at))]
pub fn read_long_text<'a>(rest: &mut &'a [u8]) -> Result<&'a [u8], ReadFault>
    ensures { GivesAs (λ text. text.now) (text_at w32 rest.old.now) result rest.new.now }
{
    let len = read_u32(rest)?;
    read_bytes(rest, len as usize)
}

fn owned(alloc: Global, text: &[u8]) -> Result<Items<u8>, AllocError>
    ensures { IfOk result (λ items. items ≡ text.now) }
{
    Ok(Items::from(text.to_vec(alloc)?))
}

/// A text after its length of two bytes, copied.
impl Field for Items<u8> {
    ghost form = { text_at w16 };

    fn read(alloc: Global, rest: &mut &[u8]) -> Result<Items<u8>, ReadFault> {
        let text = read_text(rest)?;
        Ok(owned(alloc, text)?)
    }
}

/// A text after its length of two bytes, copied to where a short one stands in its owner.
impl Field for Text {
    ghost form = { text_at w16 };

    fn read(alloc: Global, rest: &mut &[u8]) -> Result<Text, ReadFault> {
        let text = read_text(rest)?;
        Ok(Text::of(alloc, text)?)
    }
}

/// An identifier.
impl Field for Uid {
    ghost use Rattle.change_log.specs.ReadWords.{id_at};

    ghost form = { id_at };

    #[tactic(auto, unfolding(crate::specs::ReadWords::id_at))]
    fn read(_alloc: Global, rest: &mut &[u8]) -> Result<Uid, ReadFault> {
        let piece = read_bytes(rest, 11)?;
        match Uid::parse(piece) {
            Some(id) => Ok(id),
            None => Err(ReadFault::Bad),
        }
    }
}

/// An identifier, or `None` where eleven zero bytes stand.
impl Field for Option<Uid> {
    ghost use Rattle.change_log.specs.ReadWords.{optional_id_at};

    ghost form = { optional_id_at };

    #[tactic(auto, unfolding(crate::specs::ReadWords::optional_id_at))]
    fn read(_alloc: Global, rest: &mut &[u8]) -> Result<Option<Uid>, ReadFault> {
        let piece = read_bytes(rest, 11)?;
        if piece == [0u8; 11].as_slice() {
            return Ok(None);
        }
        match Uid::parse(piece) {
            Some(id) => Ok(Some(id)),
            None => Err(ReadFault::Bad),
        }
    }
}

/// Items' identifiers and their values after their count of two bytes.
impl Field for Items<(Uid, Items<u8>)> {
    ghost use Rattle.change_log.specs.ReadWords.{listed_at, id_text_at};

    ghost form = { listed_at w16 id_text_at };

    #[tactic(auto, unfolding(crate::specs::ReadWords::listed_at))]
    fn read(alloc: Global, rest: &mut &[u8]) -> Result<Items<(Uid, Items<u8>)>, ReadFault> {
        let count = read_u16(rest)?;
        read_each(alloc, count as u32, rest)
    }
}
