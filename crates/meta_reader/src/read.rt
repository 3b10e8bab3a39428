//! From the bytes of a file to metadata.

ghost use Rattle.std.specs.Prelude.{◌≡◌};
ghost use Rattle.dh_base.specs.Memory.{Answers};
ghost use Rattle.expr_grammar.specs.Answer.{Reading};
ghost use Rattle.meta_reader.specs.Faults.{meta_cause};
ghost use Rattle.meta_reader.specs.Read.{told, metadata_by, HasOneMetadata};

use crate::build::build;
use crate::fault::{MetaFault, Which};
use crate::file::read_file;
use crate::file_fault::FileFault;
use dh_metadata::metadata::Metadata;
use std::alloc::Global;

// A fault of a file's length, syntax or form, as a fault of metadata.
fn told(fault: FileFault) -> MetaFault
    ensures { result ≡ told fault }
{
    match fault {
        FileFault::TooLong => MetaFault::Limit {
            which: Which::Bytes,
        },
        FileFault::NotJson => MetaFault::NotJson,
        FileFault::Shape { path } => MetaFault::Shape { path },
        FileFault::Memory => MetaFault::Memory,
    }
}

/// The metadata that the bytes of a file are, or the first fault: of its length, its syntax, its form, and then
/// of what it says.
pub fn read(alloc: Global, bytes: &[u8]) -> Result<Metadata, MetaFault>
    // The answer is what the file is however its expressions are read by the grammar, unless memory runs out.
    ensures value { (reading : Reading) → Answers meta_cause (metadata_by reading bytes.now) result }
    // The bytes alone say which answer that is.
    ensures one { HasOneMetadata bytes.now }
{
    match read_file(alloc, bytes) {
        Ok(parts) => build(alloc, parts),
        Err(fault) => Err(told(fault)),
    }
}
