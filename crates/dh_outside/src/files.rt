// Files by name, and a set of them in memory.
ghost use Rattle.std.specs.Prelude.{◌≡◌, ◌≤◌, ◌<◌, ◌^◌, ◌||◌, ℕ, List, Option, None, Some, is_none, length, IfOk, IfSome, IsErrOf};
ghost use Rattle.std.specs.Option.{option_map};
ghost use Rattle.dh_outside.specs.Faults.{Rose, one_more};
ghost use Rattle.dh_outside.specs.Files.{file_named, pairs_of, is_failed};
ghost use Rattle.dh_outside.specs.Memory.{FilesSeen, is_listed};
ghost use Rattle.dh_outside.specs.declared.files.FileFault.TheVariants.{Failed, TooLong, Memory};

use std::alloc::{AllocError, Global};
use std::marker::Model;

/// Why the bytes of a file or a source aren't given.
#[derive(Clone, Copy, Debug, Drop, thiserror::Error)]
pub enum FileFault {
    /// A call outside failed, and the count of faults rose.
    #[error("the outside failed")]
    Failed,
    /// There are more bytes than asked for.
    #[error("too many bytes")]
    TooLong,
    /// No memory was found.
    #[error("out of memory")]
    Memory,
}

impl From<crate::Failed> for FileFault {
    ghost from_gives = { λ _ e. e ≡ Failed };

    fn from(_: crate::Failed) -> Self {
        FileFault::Failed
    }
}

impl From<AllocError> for FileFault {
    ghost from_gives = { λ _ e. e ≡ Memory };

    fn from(_: AllocError) -> Self {
        FileFault::Memory
    }
}

/// Files by name.
pub trait FileSet {
    /// The bytes of the file of a name, where they are told.
    ghost file: { Self → List ℕ → Option (List ℕ) };

    /// How many calls have failed, as a count of 64 bits shows it. It never falls.
    ghost file_faults: { Self → ℕ };

    /// The bytes of a file, if there are at most `most`.
    fn read_file(&mut self, alloc: Global, name: &str, most: u64) -> Result<Vec<u8>, FileFault>
        requires { most < 2 ^ 63 }
        ensures bytes { IfOk result (λ v. IfSome (file self.old name.now) (λ bytes. v.items ≡ bytes)) }
        ensures fits { IfOk result (λ v. length v.items ≤ most) }
        ensures too_long { IsErrOf result TooLong → IfSome (file self.old name.now) (λ bytes. most < length bytes) }
        ensures files { (other : List ℕ) → file self.new other ≡ file self.old other }
        ensures failed { IsErrOf result Failed → Rose (file_faults self.old) (file_faults self.new) }
        ensures keeps { file_faults self.old ≤ file_faults self.new };
}

/// Files in memory. Of two of one name the first counts, and a name that isn't there is a fault.
#[derive(Drop)]
pub struct MemFiles {
    files: Vec<(Vec<u8>, Vec<u8>)>,
    failing: Vec<u64>,
    calls: u64,
    faults: u64,
}

impl Model for MemFiles {
    ghost Value = { FilesSeen };

    ghost view = { λ s. record { files = pairs_of s.files.items; failing = s.failing.items; calls = s.calls; faults = s.faults } };
}

impl MemFiles {
    /// Files given as pairs of name and bytes. `failing` lists the calls that fail, counted from 1.
    pub fn with(
        _alloc: Global,
        files: Vec<(Vec<u8>, Vec<u8>)>,
        failing: Vec<u64>,
    ) -> Result<Self, dh_base::memory::Memory>
        ensures { IfOk result (λ s. s ≡ record { files = pairs_of files.items; failing = failing.items; calls = 0; faults = 0 }) }
    {
        Ok(MemFiles {
            files,
            failing,
            calls: 0,
            faults: 0,
        })
    }
}

fn find<'a>(files: &'a [(Vec<u8>, Vec<u8>)], name: &[u8]) -> Option<&'a [u8]>
    ensures { option_map (λ bytes. bytes.now) result ≡ file_named (pairs_of files.now) name.now }
{
    for file in files {
        if file.0.as_slice() == name {
            return Some(file.1.as_slice());
        }
    }
    None
}

// The bytes of the first file of that name, if there are at most `most`.
fn copy_of(
    alloc: Global,
    files: &[(Vec<u8>, Vec<u8>)],
    name: &[u8],
    most: u64,
) -> Result<Vec<u8>, FileFault>
    ensures bytes { IfOk result (λ v. Some v.items ≡ file_named (pairs_of files.now) name.now) }
    ensures fits { IfOk result (λ v. length v.items ≤ most) }
    ensures too_long { IsErrOf result TooLong → IfSome (file_named (pairs_of files.now) name.now) (λ bytes. most < length bytes) }
    ensures failed { is_failed result ≡ is_none (file_named (pairs_of files.now) name.now) }
{
    let Some(bytes) = find(files, name) else {
        return Err(FileFault::Failed);
    };
    if bytes.len() as u64 > most {
        return Err(FileFault::TooLong);
    }
    Ok(bytes.to_vec(alloc)?)
}

impl FileSet for MemFiles {
    ghost file = { λ s name. file_named s.files name };

    ghost file_faults = { λ s. s.faults };

    fn read_file(&mut self, alloc: Global, name: &str, most: u64) -> Result<Vec<u8>, FileFault>
        requires { most < 2 ^ 63 }
        ensures bytes { IfOk result (λ v. Some v.items ≡ file_named self.old.files name.now) }
        ensures fits { IfOk result (λ v. length v.items ≤ most) }
        ensures too_long { IsErrOf result TooLong → IfSome (file_named self.old.files name.now) (λ bytes. most < length bytes) }
        ensures files { (other : List ℕ) → file_named self.new.files other ≡ file_named self.old.files other }
        ensures failed { IsErrOf result Failed → Rose self.old.faults self.new.faults }
        ensures keeps { self.old.faults ≤ self.new.faults }
        ensures exact { is_failed result ≡ (is_listed self.old.failing self.old.calls || is_none (file_named self.old.files name.now)) }
        ensures calls { self.new.calls ≡ one_more self.old.calls }
        ensures same { self.new.files ≡ self.old.files }
        ensures failing { self.new.failing ≡ self.old.failing }
    {
        self.calls = self.calls.saturating_add(1);
        let result = if self.failing.contains(&self.calls) {
            Err(FileFault::Failed)
        } else {
            copy_of(alloc, &self.files, name.as_bytes(), most)
        };
        if let Err(FileFault::Failed) = result {
            self.faults = self.faults.saturating_add(1);
        }
        result
    }
}
