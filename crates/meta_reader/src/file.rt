//! From the bytes of a file to what it says.

ghost use Rattle.dh_base.specs.Memory.{Answers};
ghost use Rattle.json_read.specs.Views.{data_of};
ghost use Rattle.meta_reader.specs.File.{shaped_of, file_of, file_cause};

use crate::file_fault::FileFault;
use dh_base::limits::MOST_INPUT_BYTES;
use dh_metadata::parts::MetaParts;
use json::{Scratch, Value};
use json_read::fault::FormFault;
use json_read::read::read;
use meta_forms::parts::read_parts;
use std::alloc::Global;

/// The most bytes of a file.
pub const MOST_BYTES: usize = MOST_INPUT_BYTES;

fn shaped(alloc: Global, value: &Value<'_>) -> Result<MetaParts, FileFault>
    ensures { Answers file_cause (shaped_of (data_of value.now)) result }
{
    match read_parts(alloc, value) {
        Ok(parts) => Ok(parts),
        Err(FormFault::At(path)) => Err(FileFault::Shape { path }),
        Err(FormFault::Memory) => Err(FileFault::Memory),
    }
}

/// What the bytes of a metadata file say, or the first fault of its length, its syntax and its form.
#[tactic(auto, unfolding(crate::specs::File::file_of))]
pub fn read_file(alloc: Global, bytes: &[u8]) -> Result<MetaParts, FileFault>
    ensures { Answers file_cause (file_of bytes.now) result }
{
    if bytes.len() > MOST_BYTES {
        return Err(FileFault::TooLong);
    }
    let mut scratch = Scratch::new(alloc);
    match read(alloc, bytes, &mut scratch) {
        Ok(Some(value)) => shaped(alloc, &value),
        Ok(None) => Err(FileFault::NotJson),
        Err(_) => Err(FileFault::Memory),
    }
}
