//! Texts of values. Most are a few digits, so those stand where their owner stands.

ghost use Rattle.std.specs.Prelude.{◌≡◌, length, take, min, IfOk};
ghost use Rattle.dh_changes.specs.Text.{bytes_of};

use dh_base::items::Items;
use dh_base::memory::Memory;
use std::alloc::Global;
use std::boxed::Box;
use std::marker::Model;

/// The longest text that takes no memory of its own.
const MOST_INSIDE: usize = 14;

/// Where the bytes of a text stand: inside, the first `len` of the array; or apart, in memory of their own.
#[derive(Drop)]
pub enum Kept {
    Inside { len: u8, bytes: [u8; 14] },
    Apart(Box<Items<u8>>),
}

/// A text, which contracts see as the list of its bytes.
pub struct Text {
    kept: Kept,
}

// By hand, so that it is proved here alone and not in each crate above.
impl Drop for Text {
    fn drop(self) {
        let Text { kept: _ } = self;
    }
}

impl Model for Text {
    ghost use Rattle.std.specs.Prelude.{ℕ, List};
    ghost use Rattle.dh_changes.specs.Text.{bytes_of, Fits};

    ghost Value = { List ℕ };

    ghost view = { λ text. bytes_of text.kept };

    ghost invariant = { λ text. Fits text.kept };
}

// Copies as many bytes as there are and fit to the beginning of `into`, and says how many.
fn copy_first(bytes: &[u8], into: &mut [u8]) -> usize
    ensures count { result ≡ min (length bytes.now) (length into.old) }
    ensures first { take result into.new ≡ take result bytes.now }
{
    let count = bytes.len().min(into.len());
    into[..count].copy_from_slice(&bytes[..count]);
    count
}

impl Text {
    /// A copy of these bytes.
    pub fn of(alloc: Global, text: &[u8]) -> Result<Text, Memory>
        ensures { IfOk result (λ made. made ≡ text.now) }
    {
        if text.len() <= MOST_INSIDE {
            let mut bytes = [0u8; 14];
            let len = copy_first(text, &mut bytes);
            return Ok(Text {
                kept: Kept::Inside {
                    len: len as u8,
                    bytes,
                },
            });
        }
        let copy = Items::from(Vec::from_slice(alloc, text)?);
        Ok(Text {
            kept: Kept::Apart(Box::new(alloc, copy)?),
        })
    }

    /// The bytes, lent.
    pub fn as_slice(&self) -> &[u8]
        ensures { result.now ≡ self.now }
    {
        match &self.kept {
            Kept::Inside { len, bytes } => &bytes[..*len as usize],
            Kept::Apart(text) => text.as_slice(),
        }
    }
}
