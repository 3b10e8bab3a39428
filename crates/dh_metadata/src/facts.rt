//! What the rule of sharing asks of each user.

ghost use Rattle.std.specs.Prelude.{◌≡◌, ◌<◌, ◌^◌, length, slice_index_or, [], IfOk};
ghost use Rattle.std.specs.List.{range_with_len};
ghost use Rattle.dh_metadata.specs.Members.{AreHolders};
ghost use Rattle.dh_metadata.specs.Users.{all_authority, is_granted, user_lists, facts_of, AreFacts};

use crate::authorities::is_granted;
use crate::held::Records;
use crate::holders::holders;
use crate::members::{GroupUsers, sorted_lists};
use crate::records::{Role, User, UserGroup};
use dh_base::items::Items;
use dh_base::memory::Memory;
use dh_sharing::rule::UserFacts;
use std::alloc::Global;

fn numbers(alloc: Global, count: usize) -> Result<Vec<u32>, Memory>
    requires { count < 2 ^ 32 }
    ensures { IfOk result (λ numbers. numbers.items ≡ range_with_len 0 count) }
{
    let mut numbers = Vec::with_capacity(alloc, count)?;
    for number in 0..count as u32 {
        numbers.push(number)?;
    }
    Ok(numbers)
}

/// For each user below the count, the user groups that the user is in.
fn groups_of(alloc: Global, groups: &[UserGroup], count: usize) -> Result<Vec<Items<u32>>, Memory>
    requires { length groups.now < 2 ^ 32 }
    ensures { IfOk result (λ all. AreHolders (user_lists groups.now) (range_with_len 0 (length groups.now)) count all.items) }
{
    let order = numbers(alloc, groups.len())?;
    let lists = sorted_lists::<GroupUsers>(alloc, groups)?;
    let all = holders(alloc, &lists, &order, count)?;
    Ok(all)
}

#[tactic(auto, unfolding(crate::specs::Users::all_authority))]
fn fact_of(
    alloc: Global,
    records: &Records,
    lists: &[Items<u32>],
    number: u32,
) -> Result<UserFacts, Memory>
    requires user { number < length records.now.users }
    requires lists { AreHolders (user_lists records.now.user_groups) (range_with_len 0 (length records.now.user_groups)) (length records.now.users) lists.now }
    ensures { IfOk result (λ fact. fact ≡ facts_of records.now number) }
{
    let groups = Vec::from_slice(alloc, lists[number as usize].as_slice())?;
    let user = &records.users.as_slice()[number as usize];
    Ok(UserFacts {
        number,
        groups: Items::from(groups),
        all: is_granted(records.user_roles.as_slice(), user, b"ALL"),
    })
}

/// What the rule of sharing asks of each user.
pub fn facts(alloc: Global, records: &Records) -> Result<Vec<UserFacts>, Memory>
    requires users { length records.now.users < 2 ^ 32 }
    requires groups { length records.now.user_groups < 2 ^ 32 }
    ensures { IfOk result (λ facts. AreFacts records.now facts.items) }
{
    let count = records.users.as_slice().len();
    let lists = groups_of(alloc, records.user_groups.as_slice(), count)?;
    let mut facts = Vec::with_capacity(alloc, count)?;
    for number in 0..count as u32 {
        facts.push(fact_of(alloc, records, &lists, number)?)?;
    }
    Ok(facts)
}
