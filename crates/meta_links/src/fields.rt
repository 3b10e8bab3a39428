//! The references in a field of an object.
ghost use Rattle.std.specs.Prelude.{◌≡◌, ℕ, List, IfOk, OnOk, map, option_map, ◌++◌};
ghost use Rattle.std.specs.Fmt.{decimal};
ghost use lib.Chars.{codes};
ghost use Rattle.meta_links.specs.Reference.{step, field_path, one, optional, number_of};
ghost use Rattle.meta_links.specs.Table.{set_element};
ghost use Rattle.dh_metadata.specs.declared.kind.Kind.TheVariants as kind;

use crate::entries::Entries;
use crate::link_each::Link;
use crate::path::{Entry, Field, Member, Place};
use crate::unknown::Unknown;
use dh_base::memory::Memory;
use dh_base::uid::Uid;
use dh_metadata::ids::Ids;
use dh_metadata::kind::Kind;
use std::alloc::Global;

/// A reference to an object of a kind.
#[derive(Drop)]
pub struct One<P> {
    pub at: P,
    pub of: Kind,
    pub uid: Uid,
}

impl<P: Place> Link for One<P> {
    type Held = u32;

    ghost references = { λ found. one (P.path found.at) found.of found.uid };

    ghost held = { λ ids found. number_of ids found.of found.uid };

    #[tactic(auto, unfolding(crate::specs::Reference::one, crate::specs::Reference::number_of, crate::specs::Reference::first_unknown, crate::specs::Told::after))]
    fn link(&self, alloc: Global, ids: &Ids, unknown: &mut Unknown) -> Result<u32, Memory> {
        match ids.find(self.of, self.uid) {
            Some(number) => Ok(number),
            None => {
                if !unknown.is_met() {
                    unknown.meet(self.uid, self.at.path(alloc)?);
                }
                Ok(0)
            }
        }
    }
}

/// A reference that may be absent.
#[derive(Drop)]
pub struct Optional<P> {
    pub at: P,
    pub of: Kind,
    pub uid: Option<Uid>,
}

impl<P: Place + Copy> Link for Optional<P> {
    type Held = Option<u32>;

    ghost references = { λ found. optional (P.path found.at) found.of found.uid };

    ghost held = { λ ids found. option_map (number_of ids found.of) found.uid };

    #[tactic(auto, using(crate::proofs::Walk::parts), unfolding(crate::specs::Reference::optional))]
    fn link(&self, alloc: Global, ids: &Ids, unknown: &mut Unknown) -> Result<Option<u32>, Memory> {
        let (at, of) = (self.at, self.of);
        match self.uid {
            None => Ok(None),
            Some(uid) => Ok(Some(One { at, of, uid }.link(alloc, ids, unknown)?)),
        }
    }
}

/// A list of references.
#[derive(Drop)]
pub struct Several<'a> {
    pub at: Field<'a>,
    pub of: Kind,
}

impl<'a> Entries for Several<'a> {
    type Entry = Uid;

    type Held = u32;

    ghost references = { λ list place uid. one (step (field_path list.at.kind list.at.place list.at.name.now) (decimal place)) list.of uid };

    ghost held = { λ ids list uid. number_of ids list.of uid };

    fn link_entry(
        &self,
        alloc: Global,
        ids: &Ids,
        unknown: &mut Unknown,
        place: usize,
        entry: &Uid,
    ) -> Result<u32, Memory> {
        let at = Entry {
            list: self.at,
            place,
        };
        let (of, uid) = (self.of, *entry);
        One { at, of, uid }.link(alloc, ids, unknown)
    }
}

/// A list of objects with a reference under a name.
#[derive(Drop)]
pub struct SeveralIn<'a> {
    pub at: Field<'a>,
    pub name: &'a [u8],
    pub of: Kind,
}

impl<'a> Entries for SeveralIn<'a> {
    type Entry = Uid;

    type Held = u32;

    ghost references = { λ list place uid.
        one (step (step (field_path list.at.kind list.at.place list.at.name.now) (decimal place)) list.name.now) list.of uid };

    ghost held = { λ ids list uid. number_of ids list.of uid };

    fn link_entry(
        &self,
        alloc: Global,
        ids: &Ids,
        unknown: &mut Unknown,
        place: usize,
        entry: &Uid,
    ) -> Result<u32, Memory> {
        let object = Entry {
            list: self.at,
            place,
        };
        let at = Member {
            object,
            name: self.name,
        };
        let (of, uid) = (self.of, *entry);
        One { at, of, uid }.link(alloc, ids, unknown)
    }
}

/// The elements of a data set. The category combination of an element is looked up too.
#[derive(Drop)]
pub struct SetElements<'a> {
    pub at: Field<'a>,
}

impl<'a> Entries for SetElements<'a> {
    type Entry = (Uid, Option<Uid>);

    type Held = u32;

    ghost references = { λ list place element. set_element (field_path list.at.kind list.at.place list.at.name.now) place element };

    ghost held = { λ ids list element. number_of ids kind.DataElement element.0 };

    fn link_entry(
        &self,
        alloc: Global,
        ids: &Ids,
        unknown: &mut Unknown,
        place: usize,
        entry: &(Uid, Option<Uid>),
    ) -> Result<u32, Memory> {
        let object = Entry {
            list: self.at,
            place,
        };
        let element = One {
            at: Member {
                object,
                name: b"dataElement",
            },
            of: Kind::DataElement,
            uid: entry.0,
        };
        let combo = Optional {
            at: Member {
                object,
                name: b"categoryCombo",
            },
            of: Kind::CategoryCombo,
            uid: entry.1,
        };
        let (number, _) = (element, combo).link(alloc, ids, unknown)?;
        Ok(number)
    }
}
