// Reading to the end and writing to the end.
ghost use Rattle.std.specs.Prelude.{◌≡◌, ◌≤◌, ◌<◌, ◌+◌, ◌^◌, ℕ, List, length, take, IfOk, OnOk, OnErr, IsErrOf};
ghost use Rattle.std.specs.Io.KnownBytes.{Consumes, Appends, IsAtEnd};
ghost use Rattle.dh_outside.specs.Faults.{Rose};
ghost use Rattle.dh_outside.specs.Talk.{Says};
ghost use Rattle.dh_outside.specs.declared.files.FileFault.TheVariants.{Failed, TooLong};

use crate::{FileFault, Sink, Source};
use std::alloc::Global;

// How many bytes one read asks for at most.
const PIECE: usize = 16384;

/// All the bytes that a source has left, if there are at most `most`. No more than one byte past
/// `most` is read. After an error the bytes read so far are lost.
pub fn read_all<S: Source>(alloc: Global, source: &mut S, most: u64) -> Result<Vec<u8>, FileFault>
    requires { most < 2 ^ 63 }
    ensures whole { IfOk result (λ v. Consumes (S.left source.old) (S.left source.new) v.items) }
    ensures end { OnOk result (IsAtEnd (S.left source.new)) }
    ensures fits { IfOk result (λ v. length v.items ≤ most) }
    ensures too_long { IsErrOf result TooLong → ((taken : List ℕ) × (Consumes (S.left source.old) (S.left source.new) taken) × (length taken ≡ most + 1)) }
    ensures failed { IsErrOf result Failed → Rose (S.source_faults source.old) (S.source_faults source.new) }
    ensures keeps { S.source_faults source.old ≤ S.source_faults source.new }
{
    let most = most as usize;
    let mut bytes = Vec::new(alloc);
    let mut piece = [0u8; PIECE];
    while bytes.len() <= most {
        let want = (most + 1 - bytes.len()).min(PIECE);
        let count = source.read(&mut piece[..want])?;
        if count == 0 {
            return Ok(bytes);
        }
        bytes.extend_from_slice(&piece[..count])?;
    }
    Err(FileFault::TooLong)
}

/// Writes all the bytes. After an error a prefix of them is written.
pub fn write_all<O: Sink>(sink: &mut O, bytes: &[u8]) -> Result<(), crate::Failed>
    ensures whole { OnOk result (Appends (O.written sink.old) (O.written sink.new) bytes.now) }
    ensures says { OnOk result (Says (O.sink_talk sink.old) (O.sink_talk sink.new) bytes.now) }
    ensures front { OnErr result ((count : ℕ) × (count ≤ length bytes.now) × (Appends (O.written sink.old) (O.written sink.new) (take count bytes.now))
        × (Says (O.sink_talk sink.old) (O.sink_talk sink.new) (take count bytes.now))) }
    ensures failed { OnErr result (Rose (O.sink_faults sink.old) (O.sink_faults sink.new)) }
    ensures keeps { O.sink_faults sink.old ≤ O.sink_faults sink.new }
{
    let mut at = 0;
    while at < bytes.len() {
        let count = sink.write(&bytes[at..])?;
        if count == 0 {
            return Err(crate::Failed);
        }
        at += count;
    }
    Ok(())
}
