//! `WORDS`: the bytes that the words stand for are read as change 5 and written again. A word
//! is a number of one byte after a `#`, or a text.
ghost use Rattle.change_log.specs.Forms.{ChangeFits};

use crate::out::Out;
use change_log::{Decoded, decode, encode, encoded_len};
use dh_base::memory::Memory;
use dh_changes::change::{Change, Write};
use std::alloc::Global;

const NUMBER: u64 = 5;

fn put_word(bytes: &mut Out, word: &str) {
    match word.strip_prefix('#') {
        Some(number) => put_byte(bytes, number),
        None => bytes.put(word.as_bytes()),
    }
}

fn put_byte(bytes: &mut Out, number: &str) {
    match number.parse::<u8>() {
        Ok(byte) => bytes.put(&[byte]),
        Err(_) => bytes.fail(),
    }
}

fn bytes_of(alloc: Global, words: &str) -> Option<Vec<u8>> {
    let mut bytes = Out::new(alloc);
    for word in words.split(' ') {
        put_word(&mut bytes, word);
    }
    bytes.finish()
}

fn name_of(write: &Write) -> &'static str {
    match write {
        Write::ValueSet { .. } => "value set",
        Write::ValueCleared { .. } => "value cleared",
        Write::EventWritten(_) => "event written",
        Write::EventDeleted(_) => "event deleted",
        Write::EnrollmentWritten(_) => "enrollment written",
        Write::EnrollmentDeleted(_) => "enrollment deleted",
        Write::EntityWritten(_) => "entity written",
        Write::EntityDeleted(_) => "entity deleted",
        Write::Approve(_) => "approve",
        Write::Unapprove(_) => "unapprove",
        Write::Accept(_) => "accept",
        Write::Unaccept(_) => "unaccept",
        Write::Complete { .. } => "complete",
        Write::Uncomplete { .. } => "uncomplete",
    }
}

fn put_names(out: &mut Out, change: &Change) {
    for write in change.writes.as_slice() {
        out.put(b"; ");
        out.put(name_of(write).as_bytes());
    }
}

// Whether so many bytes are written again as they were read.
fn is_again(bytes: &[u8], written: &[u8], used: usize) -> bool {
    written.len() == used && bytes.starts_with(written)
}

// Writes what a change is that was read from so many bytes.
fn put_change(out: &mut Out, change: &Change, used: usize, is_again: bool) {
    if !is_again {
        return out.put(b"other bytes");
    }
    out.put_number(used as i128);
    out.put(b" bytes");
    put_names(out, change);
}

fn put_again(out: &mut Out, bytes: &[u8], change: &Change, number: u64, used: usize)
    requires { ChangeFits number change.now }
{
    let has_len = encoded_len(change) == used as u64;
    match encode(out.alloc, change, number) {
        Ok(written) => put_change(
            out,
            change,
            used,
            has_len && is_again(bytes, &written, used),
        ),
        Err(Memory) => out.fail(),
    }
}

#[tactic(auto, using(change_log::proofs::Fits::change_fits))]
fn put_read(out: &mut Out, bytes: &[u8], number: u64) {
    match decode(out.alloc, bytes, number) {
        Ok(Decoded::Whole { change, used }) => put_again(out, bytes, &change, number, used),
        Ok(Decoded::Short) => out.put(b"short"),
        Ok(Decoded::Bad) => out.put(b"bad"),
        Err(Memory) => out.fail(),
    }
}

pub(crate) fn change_row(out: &mut Out, words: &str) {
    match bytes_of(out.alloc, words) {
        Some(bytes) => put_read(out, &bytes, NUMBER),
        None => out.fail(),
    }
}
