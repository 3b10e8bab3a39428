//! What is looked up once, when metadata is made.

ghost use Rattle.std.specs.Prelude.{◌<◌, ◌^◌, length, IfOk};
ghost use Rattle.dh_metadata.specs.Known.{AreMade};

use crate::facts::facts;
use crate::held::Records;
use crate::levels::all_tree_levels;
use crate::sets::{SetLists, set_lists};
use crate::tokens::token_users;
use dh_base::items::Items;
use dh_base::memory::Memory;
use dh_sharing::rule::UserFacts;
use std::alloc::Global;
use std::collections::HashMap;

/// The tree levels of each workflow, the lists of data sets, what is asked of each user, and the
/// users by token.
#[derive(Drop)]
pub struct Made {
    pub levels: Vec<Items<u8>>,
    pub lists: SetLists,
    pub facts: Vec<UserFacts>,
    pub tokens: HashMap<Vec<u8>, u32>,
}

/// Looks all of it up.
pub fn make(alloc: Global, records: &Records, positions: &[Items<i64>]) -> Result<Made, Memory>
    requires sets { length records.now.data_sets < 2 ^ 32 }
    requires users { length records.now.users < 2 ^ 32 }
    requires groups { length records.now.user_groups < 2 ^ 32 }
    ensures { IfOk result (λ made. AreMade records.now positions.now made) }
{
    let levels = all_tree_levels(alloc, positions)?;
    let lists = set_lists(alloc, records)?;
    let facts = facts(alloc, records)?;
    let tokens = token_users(alloc, records.api_tokens.as_slice())?;
    Ok(Made {
        levels,
        lists,
        facts,
        tokens,
    })
}
