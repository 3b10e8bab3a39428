//! Writing into a buffer of bytes that stands already. It takes no memory.
ghost use Rattle.std.specs.Prelude.{◌≡◌, ◌≤◌, ◌+◌, ◌++◌, length, take, decimal};

use itoa::Buffer;

/// Writes a text after the bytes that are there, and says how many there are now.
pub(crate) fn put(buffer: &mut [u8], len: usize, text: &[u8]) -> usize
    requires { len + length text.now ≤ length buffer.old }
    ensures written { take result buffer.new ≡ take len buffer.old ++ text.now }
    ensures count { result ≡ len + length text.now }
    ensures room { length buffer.new ≡ length buffer.old }
{
    let end = len + text.len();
    buffer[len..end].copy_from_slice(text);
    end
}

/// Writes a number in decimal, of at most 20 digits.
pub(crate) fn put_number(buffer: &mut [u8], len: usize, number: u64) -> usize
    requires { len + 20 ≤ length buffer.old }
    ensures written { take result buffer.new ≡ take len buffer.old ++ decimal number }
    ensures count { result ≤ len + 20 }
    ensures room { length buffer.new ≡ length buffer.old }
{
    let mut digits = Buffer::new();
    put(buffer, len, digits.format(number).as_bytes())
}
