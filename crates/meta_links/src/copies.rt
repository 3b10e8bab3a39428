//! Names and other texts, which refer to nothing.
ghost use Rattle.std.specs.Prelude.{◌≡◌, [], IfOk};

use crate::link_each::Link;
use crate::unknown::Unknown;
use dh_base::items::Items;
use dh_base::memory::Memory;
use dh_metadata::ids::Ids;
use std::alloc::Global;

/// A text.
#[derive(Drop)]
pub struct Text<'a> {
    pub text: &'a Items<u8>,
}

impl<'a> Link for Text<'a> {
    type Held = Items<u8>;

    ghost references = { λ _. [] };

    ghost held = { λ _ text. text.text.now };

    #[tactic(auto, using(crate::proofs::Walk::parts))]
    fn link(&self, alloc: Global, _ids: &Ids, _unknown: &mut Unknown) -> Result<Items<u8>, Memory> {
        copy_of(alloc, self.text)
    }
}

/// A copy of a text.
pub fn copy_of(alloc: Global, text: &Items<u8>) -> Result<Items<u8>, Memory>
    ensures { IfOk result (λ copy. copy ≡ text.now) }
{
    Ok(Items::from(text.as_slice().to_vec(alloc)?))
}

/// Copies of some texts.
pub fn copies_of(alloc: Global, texts: &[Items<u8>]) -> Result<Items<Items<u8>>, Memory>
    ensures { IfOk result (λ copies. copies ≡ texts.now) }
{
    let mut copies = Vec::new(alloc);
    for text in texts {
        copies.push(copy_of(alloc, text)?)?;
    }
    Ok(Items::from(copies))
}
