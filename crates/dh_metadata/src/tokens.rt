//! Users by token.

ghost use Rattle.std.specs.Prelude.{IfOk, OnOk};
ghost use Rattle.dh_metadata.specs.Users.{AreTokens, TakesToken};

use dh_base::items::Items;
use dh_base::memory::Memory;
use std::alloc::Global;
use std::collections::HashMap;

/// For each token its user, the first that it is given for.
pub fn token_users(
    alloc: Global,
    tokens: &[(Items<u8>, u32)],
) -> Result<HashMap<Vec<u8>, u32>, Memory>
    ensures { IfOk result (λ users. AreTokens tokens.now users) }
{
    let mut users = HashMap::new(alloc);
    for token in tokens {
        let text = token.0.as_slice();
        if users.get(text).is_none() {
            users.insert(Vec::from_slice(alloc, text)?, token.1)?;
        }
    }
    Ok(users)
}
