//! The users of tokens.
ghost use Rattle.std.specs.Prelude.{◌≡◌, ℕ, List, IfOk, OnOk, map};
ghost use Rattle.std.specs.Fmt.{decimal};
ghost use lib.Chars.{codes};
ghost use Rattle.meta_links.specs.Reference.{step, one, number_of};
ghost use Rattle.dh_metadata.specs.declared.kind.Kind.TheVariants as kind;

use crate::copies::Text;
use crate::entries::Entries;
use crate::fields::One;
use crate::link_each::Link;
use crate::path::{Entry, Key, Member};
use crate::unknown::Unknown;
use dh_base::items::Items;
use dh_base::memory::Memory;
use dh_base::uid::Uid;
use dh_metadata::ids::Ids;
use dh_metadata::kind::Kind;
use std::alloc::Global;

/// Tokens, each with its user.
#[derive(Drop)]
pub struct Tokens {}

impl Entries for Tokens {
    type Entry = (Items<u8>, Uid);

    type Held = (Items<u8>, u32);

    ghost references = { λ _ place token. one (step (step (codes "apiTokens") (decimal place)) (codes "user")) kind.User token.1 };

    ghost held = { λ ids _ token. (token.0, number_of ids kind.User token.1) };

    fn link_entry(
        &self,
        alloc: Global,
        ids: &Ids,
        unknown: &mut Unknown,
        place: usize,
        entry: &(Items<u8>, Uid),
    ) -> Result<(Items<u8>, u32), Memory> {
        let list = Key { key: b"apiTokens" };
        let user = One {
            at: Member {
                object: Entry { list, place },
                name: b"user",
            },
            of: Kind::User,
            uid: entry.1,
        };
        (Text { text: &entry.0 }, user).link(alloc, ids, unknown)
    }
}
