ghost use Rattle.std.specs.Prelude.{◌≡◌, ◌==◌, ◌&&◌};
ghost use Rattle.std.specs.List.{list_any};
ghost use Rattle.dh_sharing.specs.Access.{has};
ghost use Rattle.dh_sharing.specs.Rule.{may, is_owner};

use crate::access::{Access, Right};
use dh_base::items::Items;

/// What the rule of sharing asks of a user.
#[derive(Drop)]
pub struct UserFacts {
    /// The user's number.
    pub number: u32,
    /// The numbers of the user groups that the user is in.
    pub groups: Items<u32>,
    /// Whether the user has the authority `ALL`.
    pub all: bool,
}

/// How a metadata object is shared: with its owner, with everybody, and with single users and user
/// groups, each named by its number.
#[derive(Drop)]
pub struct Sharing {
    pub owner: Option<u32>,
    pub public: Access,
    pub users: Items<(u32, Access)>,
    pub groups: Items<(u32, Access)>,
}

/// Whether the user has the right to the object: a right that any entry gives is given.
pub fn may(user: &UserFacts, right: Right, object: &Sharing) -> bool
    ensures { result ≡ may user.now right object.now }
{
    user.all
        || is_owner(user, object)
        || object.public.has(right)
        || user_may(user.number, right, object.users.as_slice())
        || group_may(user.groups.as_slice(), right, object.groups.as_slice())
}

fn is_owner(user: &UserFacts, object: &Sharing) -> bool
    ensures { result ≡ is_owner user.now object.now }
{
    match object.owner {
        None => false,
        Some(owner) => owner == user.number,
    }
}

fn user_may(number: u32, right: Right, users: &[(u32, Access)]) -> bool
    ensures { result ≡ list_any (λ entry. (entry.0 == number) && has entry.1 right) users.now }
{
    for entry in users {
        if entry.0 == number && entry.1.has(right) {
            return true;
        }
    }
    false
}

fn group_may(own: &[u32], right: Right, groups: &[(u32, Access)]) -> bool
    ensures { result ≡ list_any (λ entry. list_any (λ group. group == entry.0) own.now && has entry.1 right) groups.now }
{
    for entry in groups {
        if own.contains(&entry.0) && entry.1.has(right) {
            return true;
        }
    }
    false
}
