//! The text of a fault.

ghost use Rattle.std.specs.Prelude.{◌≡◌, IfOk};
ghost use Rattle.meta_reader.specs.Text.{with_detail, fault_text};

use dh_base::items::Items;
use dh_base::memory::Memory;
use std::alloc::{AllocError, Global};

fn with_detail(text: Vec<u8>, detail: &[u8]) -> Result<Vec<u8>, AllocError>
    ensures { IfOk result (λ longer. longer.items ≡ with_detail text.items detail.now) }
{
    let mut text = text;
    if !detail.is_empty() {
        text.push(b' ')?;
        text.extend_from_slice(detail)?;
    }
    Ok(text)
}

/// The text of a fault: its name and its details, parts separated by one space. An empty detail and its
/// space are left out.
pub fn fault_text(
    alloc: Global,
    name: &str,
    first: &[u8],
    second: &[u8],
) -> Result<Items<u8>, Memory>
    ensures { IfOk result (λ text. text ≡ fault_text name.now first.now second.now) }
{
    let name = name.as_bytes().to_vec(alloc)?;
    let longer = with_detail(name, first)?;
    let whole = with_detail(longer, second)?;
    Ok(Items::from(whole))
}
