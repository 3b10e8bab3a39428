//! The references of sharing settings.
ghost use Rattle.std.specs.Prelude.{◌≡◌, ℕ, List, IfOk, OnOk};
ghost use Rattle.meta_links.specs.Reference.{field_path, step, one, number_of};
ghost use Rattle.meta_links.specs.Table.{sharing_references};
ghost use Rattle.meta_links.specs.Held.{sharing_held};

use crate::entries::{Entries, Listed};
use crate::fields::{One, Optional};
use crate::link_each::Link;
use crate::path::{Field, Member};
use crate::unknown::Unknown;
use dh_base::items::Items;
use dh_base::memory::Memory;
use dh_base::uid::Uid;
use dh_metadata::ids::Ids;
use dh_metadata::kind::Kind;
use dh_metadata::raw::RawSharing;
use dh_sharing::access::Access;
use dh_sharing::rule::Sharing;
use std::alloc::Global;

/// How the object of a kind at a place is shared.
#[derive(Drop)]
pub struct Shared<'a> {
    pub kind: Kind,
    pub place: u32,
    pub sharing: &'a RawSharing,
}

impl<'a> Link for Shared<'a> {
    type Held = Sharing;

    ghost references = { λ shared. sharing_references shared.kind shared.place shared.sharing.now };

    ghost held = { λ ids shared. sharing_held ids shared.sharing.now };

    #[tactic(auto, unfolding(crate::specs::Table::sharing_references, crate::specs::Held::sharing_held))]
    fn link(&self, alloc: Global, ids: &Ids, unknown: &mut Unknown) -> Result<Sharing, Memory> {
        let (kind, place) = (self.kind, self.place);
        let owner = Optional {
            at: Field {
                kind,
                place,
                name: "sharing.owner",
            },
            of: Kind::User,
            uid: self.sharing.owner,
        };
        let users = Listed {
            each: SharedWith {
                at: Field {
                    kind,
                    place,
                    name: "sharing.users",
                },
                of: Kind::User,
            },
            entries: &self.sharing.users,
        };
        let groups = Listed {
            each: SharedWith {
                at: Field {
                    kind,
                    place,
                    name: "sharing.userGroups",
                },
                of: Kind::UserGroup,
            },
            entries: &self.sharing.groups,
        };
        let (owner, (users, groups)) = (owner, (users, groups)).link(alloc, ids, unknown)?;
        Ok(Sharing {
            owner,
            public: self.sharing.public,
            users,
            groups,
        })
    }
}

/// Users or user groups under their keys, with what each may do.
#[derive(Drop)]
struct SharedWith<'a> {
    at: Field<'a>,
    of: Kind,
}

impl<'a> Entries for SharedWith<'a> {
    type Entry = (Items<u8>, Uid, Access);

    type Held = (u32, Access);

    ghost references = { λ list place entry. one (step (field_path list.at.kind list.at.place list.at.name.now) entry.0) list.of entry.1 };

    ghost held = { λ ids list entry. (number_of ids list.of entry.1, entry.2) };

    fn link_entry(
        &self,
        alloc: Global,
        ids: &Ids,
        unknown: &mut Unknown,
        _place: usize,
        entry: &(Items<u8>, Uid, Access),
    ) -> Result<(u32, Access), Memory> {
        let at = Member {
            object: self.at,
            name: entry.0.as_slice(),
        };
        let (of, uid) = (self.of, entry.1);
        let number = One { at, of, uid }.link(alloc, ids, unknown)?;
        Ok((number, entry.2))
    }
}
