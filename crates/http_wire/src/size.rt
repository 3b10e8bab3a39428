//! The line with the size of a chunk (RFC 9112, section 7.1), byte by byte.
ghost use Rattle.std.specs.Prelude.{◌≡◌, ◌<◌, ◌+◌, ◌*◌, ◌^◌};
ghost use Rattle.std.specs.Char.{digit_value};
ghost use Rattle.http_wire.specs.Size.{behind_digits, size_step, IsSized, GoesSized};
ghost use Rattle.http_wire.specs.declared.size.SizePlace.TheVariants.{Digits};

use httparse::parse_hex_digit;

/// A place in the line before a chunk, with the size so far.
#[derive(Clone, Copy, Drop)]
pub enum SizePlace {
    /// After so many digits.
    Digits(u32, u64),
    /// After a space or a tab.
    Pad(u64),
    /// In the extension.
    Extension(u64),
    /// After the carriage return.
    End(u64),
}

/// What one more byte of the line comes to.
#[derive(Clone, Copy, Drop)]
pub enum SizeStep {
    /// The line goes on.
    Goes(SizePlace),
    /// The line is whole and gives this size.
    Gives(u64),
    /// It is no line of a chunk.
    Fails,
}

// One more digit.
#[tactic(auto, using(crate::proofs::SizeLemmas::one_more))]
fn more_digits(count: u32, size: u64, digit: u64) -> SizePlace
    requires sized { size < 16 ^ count }
    requires short { count < 16 }
    requires digit { digit < 16 }
    ensures value { result ≡ Digits (count + 1) (size * 16 + digit) }
    ensures sound { IsSized result }
{
    SizePlace::Digits(count + 1, size * 16 + digit)
}

// A byte after the digits.
fn behind_digits(size: u64, byte: u8) -> SizeStep
    ensures value { result ≡ behind_digits size byte }
    ensures sound { GoesSized result }
{
    if byte == b' ' || byte == b'\t' {
        SizeStep::Goes(SizePlace::Pad(size))
    } else if byte == b';' {
        SizeStep::Goes(SizePlace::Extension(size))
    } else if byte == b'\r' {
        SizeStep::Goes(SizePlace::End(size))
    } else {
        SizeStep::Fails
    }
}

fn digits_step(count: u32, size: u64, byte: u8) -> SizeStep
    requires { size < 16 ^ count }
    ensures value { result ≡ size_step (Digits count size) byte }
    ensures sound { GoesSized result }
{
    match parse_hex_digit(byte) {
        Some(digit) => {
            if count < 16 {
                SizeStep::Goes(more_digits(count, size, digit))
            } else {
                SizeStep::Fails
            }
        }
        None => {
            if count == 0 {
                SizeStep::Fails
            } else {
                behind_digits(size, byte)
            }
        }
    }
}

/// One more byte of the line before a chunk.
pub fn size_step(place: SizePlace, byte: u8) -> SizeStep
    requires { IsSized place }
    ensures value { result ≡ size_step place byte }
    ensures sound { GoesSized result }
{
    match place {
        SizePlace::Digits(count, size) => digits_step(count, size, byte),
        SizePlace::Pad(size) => behind_digits(size, byte),
        SizePlace::Extension(size) => {
            if byte == b'\r' {
                SizeStep::Goes(SizePlace::End(size))
            } else if byte == b'\n' {
                SizeStep::Fails
            } else {
                SizeStep::Goes(SizePlace::Extension(size))
            }
        }
        SizePlace::End(size) => {
            if byte == b'\n' {
                SizeStep::Gives(size)
            } else {
                SizeStep::Fails
            }
        }
    }
}
