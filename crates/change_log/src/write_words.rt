ghost use Rattle.std.specs.Prelude.{◌≡◌, ◌++◌, ◌<◌, ◌+◌, ◌^◌, length, IfSome, OnOk, ⊤};
ghost use Rattle.std.specs.List.{flat_map, All};
ghost use Rattle.std.specs.Int.{w8, w16, w32, w64};
ghost use Rattle.std.specs.Int.RustNames.{FitsSigned};
ghost use Rattle.change_log.specs.Words.{number, signed, text, listed, optional_id, id_text, IsId, IsIdText, capped};

use crate::put::{Put, put_each};
use dh_base::items::Items;
use dh_base::memory::Memory;
use dh_base::uid::Uid;
use dh_changes::text::Text;
use std::alloc::Global;

/// Puts bytes at the end, as each writer does.
pub fn put_bytes(out: &mut Vec<u8>, bytes: &[u8]) -> Result<(), Memory>
    ensures { OnOk result (out.new.items ≡ out.old.items ++ bytes.now) }
{
    out.extend_from_slice(bytes)?;
    Ok(())
}

/// A number of one byte.
pub fn put_u8(out: &mut Vec<u8>, value: u8) -> Result<(), Memory>
    ensures { OnOk result (out.new.items ≡ out.old.items ++ number w8 value) }
{
    put_bytes(out, &value.to_be_bytes())
}

/// A number of two bytes.
pub fn put_u16(out: &mut Vec<u8>, value: u16) -> Result<(), Memory>
    ensures { OnOk result (out.new.items ≡ out.old.items ++ number w16 value) }
{
    put_bytes(out, &value.to_be_bytes())
}

/// A number of four bytes.
pub fn put_u32(out: &mut Vec<u8>, value: u32) -> Result<(), Memory>
    ensures { OnOk result (out.new.items ≡ out.old.items ++ number w32 value) }
{
    put_bytes(out, &value.to_be_bytes())
}

/// A number of one byte.
impl Put for u8 {
    ghost bytes = { number w8 };

    ghost Fits = { λ value. ⊤ };

    ghost Holds = { λ value. ⊤ };

    fn put(&self, _alloc: Global, out: &mut Vec<u8>) -> Result<(), Memory> {
        put_u8(out, *self)
    }
}

/// A number of eight bytes.
impl Put for u64 {
    ghost bytes = { number w64 };

    ghost Fits = { λ value. ⊤ };

    ghost Holds = { λ value. value < 2 ^ 64 };

    fn put(&self, _alloc: Global, out: &mut Vec<u8>) -> Result<(), Memory> {
        put_bytes(out, &self.to_be_bytes())
    }
}

/// A number of four bytes that may be negative.
impl Put for i32 {
    ghost bytes = { signed w32 };

    ghost Fits = { λ value. ⊤ };

    ghost Holds = { λ value. ⊤ };

    fn put(&self, _alloc: Global, out: &mut Vec<u8>) -> Result<(), Memory> {
        put_bytes(out, &self.to_be_bytes())
    }
}

/// A number of eight bytes that may be negative.
impl Put for i64 {
    ghost bytes = { signed w64 };

    ghost Fits = { λ value. ⊤ };

    ghost Holds = { FitsSigned w64 };

    fn put(&self, _alloc: Global, out: &mut Vec<u8>) -> Result<(), Memory> {
        put_bytes(out, &self.to_be_bytes())
    }
}

/// A text after its length of one byte.
pub fn put_short_text(out: &mut Vec<u8>, value: &[u8]) -> Result<(), Memory>
    requires { length value.now < 2 ^ 8 }
    ensures { OnOk result (out.new.items ≡ out.old.items ++ text w8 value.now) }
{
    put_u8(out, value.len() as u8)?;
    put_bytes(out, value)
}

/// A text after its length of two bytes.
pub fn put_text(out: &mut Vec<u8>, value: &[u8]) -> Result<(), Memory>
    requires { length value.now < 2 ^ 16 }
    ensures { OnOk result (out.new.items ≡ out.old.items ++ text w16 value.now) }
{
    put_u16(out, value.len() as u16)?;
    put_bytes(out, value)
}

/// A text after its length of two bytes.
impl Put for Items<u8> {
    ghost bytes = { text w16 };

    ghost Fits = { λ value. length value < 2 ^ 16 };

    ghost Holds = { λ value. length value < 2 ^ 16 };

    fn put(&self, _alloc: Global, out: &mut Vec<u8>) -> Result<(), Memory> {
        put_text(out, self.as_slice())
    }
}

/// The same of a short one.
impl Put for Text {
    ghost bytes = { text w16 };

    ghost Fits = { λ value. length value < 2 ^ 16 };

    ghost Holds = { λ value. length value < 2 ^ 16 };

    fn put(&self, _alloc: Global, out: &mut Vec<u8>) -> Result<(), Memory> {
        put_text(out, self.as_slice())
    }
}

/// An identifier.
impl Put for Uid {
    ghost bytes = { λ id. id };

    ghost Fits = { λ id. ⊤ };

    ghost Holds = { IsId };

    fn put(&self, _alloc: Global, out: &mut Vec<u8>) -> Result<(), Memory> {
        put_bytes(out, &self.bytes())
    }
}

/// An identifier, or eleven zero bytes.
impl Put for Option<Uid> {
    ghost bytes = { optional_id };

    ghost Fits = { λ id. ⊤ };

    ghost Holds = { λ id. IfSome id IsId };

    fn put(&self, alloc: Global, out: &mut Vec<u8>) -> Result<(), Memory> {
        match self {
            Some(id) => id.put(alloc, out),
            None => put_bytes(out, &[0; 11]),
        }
    }
}

/// The number of bytes of an identifier.
pub fn id_len(id: Uid) -> u64
    ensures value { result ≡ length id }
    ensures eleven { result ≡ 11 }
{
    id.bytes().len() as u64
}

/// Items' identifiers and their values after their count of two bytes.
impl Put for Items<(Uid, Items<u8>)> {
    ghost bytes = { listed w16 id_text };

    ghost Fits = { λ values. (length values < 2 ^ 16) × All (λ pair. length pair.1 < 2 ^ 16) values };

    ghost Holds = { λ values. (length values < 2 ^ 16) × All IsIdText values };

    fn put(&self, alloc: Global, out: &mut Vec<u8>) -> Result<(), Memory> {
        put_u16(out, self.len() as u16)?;
        put_each(alloc, out, self.as_slice())
    }
}

fn id_text_len(pair: &(Uid, Items<u8>)) -> u64
    ensures { result ≡ capped (length (id_text pair.now)) }
{
    (id_len(pair.0) + 2).saturating_add(pair.1.len() as u64)
}

/// How many bytes items' identifiers and their values take after their count.
pub fn id_texts_len(values: &[(Uid, Items<u8>)]) -> u64
    ensures { result ≡ capped (length (listed w16 id_text values.now)) }
{
    let mut len = 2u64;
    for pair in values {
        len = len.saturating_add(id_text_len(pair));
    }
    len
}
