//! How objects are shared.

ghost use Rattle.std.specs.Prelude.{◌≡◌, IfOk, codes};
ghost use Rattle.json_read.specs.Views.{data_of, members_data};
ghost use Rattle.json_read.specs.Forms.{at_step};
ghost use Rattle.json_read.specs.Given.{Gives};
ghost use Rattle.meta_forms.specs.Sharing.{open_access, member_of, step_of, members_of, members_at, sharing_fields_of, sharing_form, sharing_of};

use crate::named::Name;
use crate::part::{Field, FieldOr, Part};
use dh_base::items::Items;
use dh_base::uid::Uid;
use dh_metadata::raw::RawSharing;
use dh_sharing::access::Access;
use json::Value;
use json_read::fault::FormFault;
use json_read::form::{field, optional, require_object};
use json_read::look::{self, member};
use json_read::path::{at_key, seen_from};
use std::alloc::{AllocError, Global};
use std::collections::BTreeMap;
use std::marker::PhantomData;

// The access `rwrw----`.
fn open_access() -> Access
    ensures { result ≡ open_access }
{
    Access {
        read: true,
        write: true,
        data_read: true,
        data_write: true,
    }
}

#[tactic(auto, unfolding(crate::specs::Sharing::member_of))]
fn read_member(
    alloc: Global,
    key: &str,
    value: &Value<'_>,
) -> Result<(Items<u8>, Uid, Access), FormFault>
    ensures { Gives (member_of key.now (data_of value.now)) result }
{
    require_object(alloc, value)?;
    let id = field(alloc, value, "id")?;
    let access = Field("access", Name::<Access>(PhantomData)).read(alloc, value)?;
    let key = key.as_bytes().to_vec(alloc)?;
    Ok((Items::from(key), id, access))
}

fn step_of(alloc: Global, outer: &str, key: &str) -> Result<Vec<u8>, AllocError>
    ensures { IfOk result (λ v. v.items ≡ step_of outer.now key.now) }
{
    let mut step = outer.as_bytes().to_vec(alloc)?;
    step.push(b'.')?;
    step.extend_from_slice(key.as_bytes())?;
    Ok(step)
}

fn member_behind(
    alloc: Global,
    outer: &str,
    key: &str,
    value: &Value<'_>,
) -> Result<(Items<u8>, Uid, Access), FormFault>
    ensures { Gives (at_step (step_of outer.now key.now) (member_of key.now (data_of value.now))) result }
{
    match read_member(alloc, key, value) {
        Ok(read) => Ok(read),
        Err(fault) => {
            let step = step_of(alloc, outer, key)?;
            Err(seen_from(alloc, &step, fault))
        }
    }
}

// The members of an object, which a map holds by the byte order of their keys.
fn read_members(
    alloc: Global,
    outer: &str,
    members: &BTreeMap<&str, &Value<'_>>,
) -> Result<Items<(Items<u8>, Uid, Access)>, FormFault>
    ensures { Gives (members_of outer.now (members_data members.now.entries)) result }
{
    let mut all = Vec::new(alloc);
    for (key, value) in members.iter() {
        all.push(member_behind(alloc, outer, key, value)?)?;
    }
    Ok(Items::from(all))
}

/// The members of the object under a key, none where the key is absent.
#[derive(Drop)]
struct Members<'a>(&'a str);

impl<'a> Part for Members<'a> {
    type Read = Items<(Items<u8>, Uid, Access)>;

    ghost form = { λ members. members_at members.0.now };

    fn read(
        &self,
        alloc: Global,
        value: &Value<'_>,
    ) -> Result<Items<(Items<u8>, Uid, Access)>, FormFault> {
        match member(value, self.0) {
            Some(found) => match look::members(alloc, found) {
                Ok(Some(map)) => read_members(alloc, self.0, &map),
                Ok(None) => Err(at_key(alloc, self.0)),
                Err(_) => Err(FormFault::Memory),
            },
            None => Ok(Items::new(alloc)),
        }
    }
}

#[tactic(auto, unfolding(crate::specs::Sharing::sharing_fields_of))]
fn read_fields(alloc: Global, value: &Value<'_>) -> Result<RawSharing, FormFault>
    ensures { Gives (sharing_fields_of (data_of value.now)) result }
{
    let owner = optional(alloc, value, "owner")?;
    let names = Name::<Access>(PhantomData);
    let public = FieldOr("public", names, open_access()).read(alloc, value)?;
    let users = Members("users").read(alloc, value)?;
    let groups = Members("userGroups").read(alloc, value)?;
    Ok(RawSharing {
        owner,
        public,
        users,
        groups,
    })
}

fn read_sharing(alloc: Global, value: &Value<'_>) -> Result<RawSharing, FormFault>
    ensures { Gives (sharing_form (data_of value.now)) result }
{
    require_object(alloc, value)?;
    read_fields(alloc, value)
}

/// How an object is shared; without a sharing object everyone has the access `rwrw----`.
#[derive(Drop)]
pub struct Shared {}

impl Part for Shared {
    type Read = RawSharing;

    ghost form = { λ _. sharing_of };

    #[tactic(auto, unfolding(crate::specs::Sharing::sharing_of))]
    fn read(&self, alloc: Global, value: &Value<'_>) -> Result<RawSharing, FormFault> {
        match member(value, "sharing") {
            Some(found) => match read_sharing(alloc, found) {
                Ok(read) => Ok(read),
                Err(fault) => Err(seen_from(alloc, b"sharing", fault)),
            },
            None => Ok(RawSharing {
                owner: None,
                public: open_access(),
                users: Items::new(alloc),
                groups: Items::new(alloc),
            }),
        }
    }
}
