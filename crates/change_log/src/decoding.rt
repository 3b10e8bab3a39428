ghost use Rattle.std.specs.Prelude.{◌≡◌, ℕ, List, ◌++◌, ◌<◌, length, take, IsTrue, IfOk};
ghost use Rattle.dh_changes.specs.declared.change.Change.{Change};
ghost use Rattle.change_log.specs.declared.decoded.Decoded.TheVariants.{Whole, Short};
ghost use Rattle.change_log.specs.Bytes.{change_bytes};
ghost use Rattle.change_log.specs.Forms.{IsChange};
ghost use Rattle.change_log.specs.Reading.{change_of};
ghost use Rattle.change_log.specs.Decoded.{Decodes, is_short, read_as, decoded_of};

use crate::decode_body::read_change;
use crate::decoded::Decoded;
use crate::fault::ReadFault;
use crate::read_words::read_long_text;
use dh_base::memory::Memory;
use dh_changes::change::Change;
use std::alloc::Global;

// The change that all of the bytes after a length are, if they are one.
#[tactic(auto, unfolding(crate::specs::Reading::change_of))]
fn decode_body(alloc: Global, body: &[u8], number: u64) -> Result<Decoded, Memory>
    ensures { IfOk result (λ found. found ≡ read_as body.now (change_of number body.now)) }
{
    let mut rest = body;
    match read_change(alloc, number, &mut rest) {
        Ok(change) => {
            if !rest.is_empty() {
                return Ok(Decoded::Bad);
            }
            Ok(Decoded::Whole {
                change,
                used: 4 + body.len(),
            })
        }
        Err(ReadFault::Bad) => Ok(Decoded::Bad),
        Err(ReadFault::Memory) => Err(Memory),
    }
}

#[tactic(auto, unfolding(crate::specs::Decoded::decoded_of))]
fn decode_framed(alloc: Global, bytes: &[u8], number: u64) -> Result<Decoded, Memory>
    ensures { IfOk result (λ found. found ≡ decoded_of number bytes.now) }
{
    let mut rest = bytes;
    match read_long_text(&mut rest) {
        Ok(body) => decode_body(alloc, body, number),
        Err(ReadFault::Bad) => Ok(Decoded::Short),
        Err(ReadFault::Memory) => Err(Memory),
    }
}

/// Reads the change under that number with which the bytes begin.
pub fn decode(alloc: Global, bytes: &[u8], number: u64) -> Result<Decoded, Memory>
    ensures decodes { Decodes number bytes.now result }
    ensures again { (change : Change) (rest : List ℕ) → IsChange number change
        → bytes.now ≡ change_bytes number change ++ rest
        → IfOk result (λ found. found ≡ Whole change (length (change_bytes number change))) }
    ensures short { IsTrue (is_short bytes.now) → IfOk result (λ found. found ≡ Short) }
    ensures cut { (change : Change) (len : ℕ) → IsChange number change
        → len < length (change_bytes number change)
        → bytes.now ≡ take len (change_bytes number change)
        → IfOk result (λ found. found ≡ Short) }
{
    decode_framed(alloc, bytes, number)
}
