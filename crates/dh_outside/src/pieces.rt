// Reading piece by piece.
ghost use Rattle.std.specs.Prelude.{◌≡◌, ◌≢◌, ◌≤◌, ◌<◌, ◌^◌};
ghost use Rattle.dh_outside.specs.Faults.{Rose};
ghost use Rattle.dh_outside.specs.Pieces.{Gains, IsSpent};
ghost use Rattle.dh_outside.specs.declared.pieces.Piece.TheVariants.{More, Over, Failed, Memory};

use crate::Source;

// How many bytes one read asks for at most.
const PIECE: usize = 16384;

// A source counts as ended after so many bytes.
const MOST: u64 = 1 << 63;

/// What came of asking a source for one more piece.
#[derive(Clone, Copy, Drop)]
pub enum Piece {
    /// At least one more byte came.
    More,
    /// The source has ended, or 2^63 bytes were read.
    Over,
    /// The read failed, and the count of faults rose.
    Failed,
    /// No memory was found. Nothing was read.
    Memory,
}

/// Reads one more piece of a source after `bytes`. `read` counts the bytes that were read of this source in all.
pub fn take_piece<S: Source>(source: &mut S, bytes: &mut Vec<u8>, read: &mut u64) -> Piece
    requires { read.old ≤ 2 ^ 63 }
    ensures gains { Gains (S.left source.old) (S.left source.new) (S.source_talk source.old) (S.source_talk source.new)
        bytes.old.items bytes.new.items read.old read.new }
    ensures more { result ≡ More → read.old < read.new }
    ensures nothing { result ≢ More → bytes.new.items ≡ bytes.old.items }
    ensures same { result ≢ More → read.new ≡ read.old }
    ensures bound { read.new ≤ 2 ^ 63 }
    ensures over { result ≡ Over → IsSpent (S.left source.new) read.new }
    ensures failed { result ≡ Failed → Rose (S.source_faults source.old) (S.source_faults source.new) }
    ensures keeps { S.source_faults source.old ≤ S.source_faults source.new }
{
    let room = (MOST - *read).min(PIECE as u64) as usize;
    if room == 0 {
        return Piece::Over;
    }
    if bytes.reserve(room).is_err() {
        return Piece::Memory;
    }
    let mut piece = [0u8; PIECE];
    match source.read(&mut piece[..room]) {
        Ok(count) => {
            if count == 0 {
                return Piece::Over;
            }
            bytes.extend_from_slice(&piece[..count]).unwrap();
            *read += count as u64;
            Piece::More
        }
        Err(_) => Piece::Failed,
    }
}
