//! What the roles of a user allow.

ghost use Rattle.std.specs.Prelude.{◌≡◌};
ghost use Rattle.std.specs.List.{list_any};
ghost use Rattle.std.specs.Prelude.{bytes_eq};
ghost use Rattle.dh_metadata.specs.Users.{role_has, is_granted};

use crate::records::{Role, User};
use dh_base::items::Items;

fn is_one_of(authorities: &[Items<u8>], authority: &[u8]) -> bool
    ensures { result ≡ list_any (λ own. bytes_eq own authority.now) authorities.now }
{
    for own in authorities {
        if own.as_slice() == authority {
            return true;
        }
    }
    false
}

fn role_has(roles: &[Role], authority: &[u8], role: u32) -> bool
    ensures { result ≡ role_has roles.now authority.now role }
{
    match roles.get(role as usize) {
        Some(found) => is_one_of(found.authorities.as_slice(), authority),
        None => false,
    }
}

/// Whether a role of the user has the authority.
pub fn is_granted(roles: &[Role], user: &User, authority: &[u8]) -> bool
    ensures { result ≡ is_granted roles.now user.now authority.now }
{
    for role in user.user_roles.as_slice() {
        if role_has(roles, authority, *role) {
            return true;
        }
    }
    false
}
