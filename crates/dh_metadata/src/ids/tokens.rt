//! Tokens that stand twice.

ghost use Rattle.std.specs.Prelude.{◌≡◌, IfOk, option_map};
ghost use Rattle.dh_metadata.specs.Ids.{user_of_repeated};

use dh_base::items::Items;
use dh_base::memory::Memory;
use dh_base::uid::Uid;
use std::alloc::Global;
use std::collections::HashSet;

/// The user of the first token that is one of those before it.
#[tactic(auto, unfolding(crate::specs::Ids::user_of_repeated))]
pub fn user_of_repeated(alloc: Global, tokens: &[(Items<u8>, Uid)]) -> Result<Option<Uid>, Memory>
    ensures { IfOk result (λ user. user ≡ user_of_repeated tokens.now) }
{
    let mut seen = HashSet::new(alloc);
    for token in tokens {
        let copy = Items::from(token.0.as_slice().to_vec(alloc)?);
        if !seen.insert(copy)? {
            return Ok(Some(token.1));
        }
    }
    Ok(None)
}
