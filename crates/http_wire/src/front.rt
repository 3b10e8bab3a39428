//! Reading on until a head stands at the front of the bytes that are held.
ghost use Rattle.std.specs.Prelude.{◌≡◌, ◌⊎◌, ◌≤◌, ◌<◌, ◌-◌, ◌^◌, Ok, Err, IfErr, OnErr, true, false, length, drop, take};
ghost use Rattle.dh_outside.specs.Faults.{Rose};
ghost use Rattle.dh_outside.specs.Pieces.{Gains, IsSpent};
ghost use Rattle.http_wire.specs.Lines.{blank_length, opening_of, IsPassed};
ghost use Rattle.http_wire.specs.Next.{skipped};
ghost use Rattle.http_wire.specs.Reads.{Skims, Opens, is_settled, judged};
ghost use Rattle.http_wire.specs.declared.fault.WireFault.TheVariants.{ReadFault, Memory};

use crate::fault::WireFault;
use crate::lines::{Opening, blank_length, find_opening};
use dh_base::codes::Code;
use dh_outside::{Piece, Source, take_piece};

// Moves the bytes from a place on to the front. What stands after them is left over.
fn move_down(bytes: &mut [u8], from: usize)
    requires { from ≤ length bytes.old }
    ensures len { length bytes.new ≡ length bytes.old }
    ensures moved { take (length bytes.old - from) bytes.new ≡ drop from bytes.old }
{
    let count = bytes.len() - from;
    for at in 0..count {
        bytes[at] = bytes[from + at];
    }
}

/// Drops the bytes before a place.
pub(crate) fn drop_front(bytes: &mut Vec<u8>, from: usize)
    requires { from ≤ length bytes.old.items }
    ensures { bytes.new.items ≡ drop from bytes.old.items }
{
    let count = bytes.len() - from;
    move_down(bytes.as_mut_slice(), from);
    bytes.truncate(count);
}

// Drops the empty lines at the front. The bytes before `from` were looked at before; those before the answer are now.
#[tactic(auto, using(crate::proofs::OpeningLaws::passed_none))]
fn skip_front(bytes: &mut Vec<u8>, from: usize) -> usize
    requires { IsPassed bytes.old.items from }
    ensures skipped { bytes.new.items ≡ skipped bytes.old.items }
    ensures passed { IsPassed bytes.new.items result }
{
    let blank = blank_length(bytes);
    if blank == 0 {
        return from;
    }
    drop_front(bytes, blank);
    0
}

// Drops the empty lines at the front, and says what stands after them. The bytes before `from` were looked at
// before; those before its new value are now.
fn look(bytes: &mut Vec<u8>, from: &mut usize) -> Opening
    requires { IsPassed bytes.old.items from.old }
    ensures skipped { bytes.new.items ≡ skipped bytes.old.items }
    ensures opening { result ≡ opening_of bytes.new.items }
    ensures from { from.new ≡ length bytes.new.items - 2 }
{
    let passed = skip_front(bytes, *from);
    let opening = find_opening(bytes, passed);
    *from = bytes.len().saturating_sub(2);
    opening
}

/// Whether one more piece came after the bytes held. None comes where the source is over.
pub(crate) fn take_more<S: Source>(
    source: &mut S,
    bytes: &mut Vec<u8>,
    read: &mut u64,
) -> Result<bool, WireFault>
    requires { read.old ≤ 2 ^ 63 }
    ensures gains { Gains (S.left source.old) (S.left source.new) (S.source_talk source.old) (S.source_talk source.new)
        bytes.old.items bytes.new.items read.old read.new }
    ensures more { result ≡ Ok true → read.old < read.new }
    ensures none { result ≡ Ok false → bytes.new.items ≡ bytes.old.items }
    ensures nothing { OnErr result (bytes.new.items ≡ bytes.old.items) }
    ensures bound { read.new ≤ 2 ^ 63 }
    ensures over { result ≡ Ok false → IsSpent (S.left source.new) read.new }
    ensures failed { result ≡ Err ReadFault → Rose (S.source_faults source.old) (S.source_faults source.new) }
    ensures keeps { S.source_faults source.old ≤ S.source_faults source.new }
    ensures stops { IfErr result (λ e. (e ≡ ReadFault) ⊎ (e ≡ Memory)) }
{
    match take_piece(source, bytes, read) {
        Piece::More => Ok(true),
        Piece::Over => Ok(false),
        Piece::Failed => Err(WireFault::ReadFault),
        Piece::Memory => Err(WireFault::Memory),
    }
}

// Whether what stands at the front stays as more bytes come.
fn is_settled(opening: Opening) -> bool
    ensures { result ≡ is_settled opening }
{
    match opening {
        Opening::Nothing => false,
        Opening::Unfinished => false,
        Opening::TooLong => true,
        Opening::Whole(_) => true,
    }
}

// The answer where this stands at the front, and no more bytes come.
fn judged(opening: Opening) -> Result<Option<usize>, WireFault>
    ensures { result ≡ judged opening }
{
    match opening {
        Opening::Nothing => Ok(None),
        Opening::Unfinished => Err(WireFault::Truncated),
        Opening::TooLong => Err(WireFault::Refused(Code::F2)),
        Opening::Whole(end) => Ok(Some(end)),
    }
}

/// Reads on until a head stands at the front of the bytes held, after no empty line, and says how many bytes it has.
/// There is none where the source is over.
pub(crate) fn find_head<S: Source>(
    source: &mut S,
    bytes: &mut Vec<u8>,
    read: &mut u64,
) -> Result<Option<usize>, WireFault>
    requires { read.old ≤ 2 ^ 63 }
    ensures skims { Skims (S.left source.old) (S.left source.new) (S.source_talk source.old) (S.source_talk source.new)
        bytes.old.items bytes.new.items read.old read.new }
    ensures front { blank_length bytes.new.items ≡ 0 }
    ensures opens { Opens bytes.new.items (IsSpent (S.left source.new) read.new) result }
    ensures bound { read.new ≤ 2 ^ 63 }
    ensures failed { result ≡ Err ReadFault → Rose (S.source_faults source.old) (S.source_faults source.new) }
    ensures keeps { S.source_faults source.old ≤ S.source_faults source.new }
{
    let mut from = 0;
    loop {
        let opening = look(bytes, &mut from);
        if is_settled(opening) {
            return judged(opening);
        }
        if !take_more(source, bytes, read)? {
            return judged(opening);
        }
    }
}
