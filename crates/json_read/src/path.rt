//! Faults as they are seen from before a key or a place.

ghost use Rattle.std.specs.Prelude.{◌≡◌, [], ◌∷◌, ◌++◌, IfOk};
ghost use Rattle.json_read.specs.Forms.{after_step};
ghost use Rattle.json_read.specs.Given.{IsSeenFrom, IsAt};

use crate::fault::FormFault;
use dh_base::items::Items;
use std::alloc::{AllocError, Global};

/// The fault of data that as a whole isn't in its form.
pub fn here(alloc: Global) -> FormFault
    ensures { result ≡ FormFault.At [] }
{
    FormFault::At(Items::new(alloc))
}

fn joined(alloc: Global, step: &[u8], path: &[u8]) -> Result<Vec<u8>, AllocError>
    ensures { IfOk result (λ v. v.items ≡ after_step step.now path.now) }
{
    let mut all = step.to_vec(alloc)?;
    if !path.is_empty() {
        all.push(b'.')?;
        all.extend_from_slice(path)?;
    }
    Ok(all)
}

/// A fault as it is seen from before a step.
pub fn seen_from(alloc: Global, step: &[u8], fault: FormFault) -> FormFault
    ensures { IsSeenFrom step.now fault result }
{
    match fault {
        FormFault::Memory => FormFault::Memory,
        FormFault::At(path) => match joined(alloc, step, path.as_slice()) {
            Ok(path) => FormFault::At(Items::from(path)),
            Err(_) => FormFault::Memory,
        },
    }
}

/// The fault of what stands under a key as a whole, or of the key's absence.
pub fn at_key(alloc: Global, key: &str) -> FormFault
    ensures { IsAt key.now result }
{
    match key.as_bytes().to_vec(alloc) {
        Ok(path) => FormFault::At(Items::from(path)),
        Err(_) => FormFault::Memory,
    }
}
