//! Users, their roles and groups.

use crate::entries::Entries;
use crate::object::ReadObject;
use crate::part::Part;
use dh_base::items::Items;
use dh_base::uid::Uid;
use dh_metadata::raw::{RawRole, RawUser, RawUserGroup};
use json::Value;
use json_read::fault::FormFault;
use json_read::form::listed;
use json_read::reference::Reference;
use std::alloc::Global;
use std::marker::PhantomData;

impl ReadObject for RawRole {
    type Fields = Items<Items<u8>>;

    ghost use Rattle.json_read.specs.Forms.{listed_of, text_of};
    ghost use Rattle.std.specs.Prelude.{codes};
    ghost use Rattle.meta_forms.specs.Table.{role_made};

    ghost form = { listed_of (codes "authorities") text_of };

    ghost made = { role_made };

    fn read(alloc: Global, value: &Value<'_>) -> Result<Items<Items<u8>>, FormFault> {
        listed(alloc, value, "authorities")
    }

    #[tactic(auto, unfolding(crate::specs::Table::role_made))]
    fn from_fields(place: u32, id: Uid, name: Items<u8>, authorities: Items<Items<u8>>) -> RawRole {
        RawRole {
            place,
            id,
            name,
            authorities,
        }
    }
}

impl ReadObject for RawUser {
    type Fields = ((Items<Uid>, Items<Uid>), Items<Uid>);

    ghost use Rattle.meta_forms.specs.Table.{user_fields, user_made};

    ghost form = { user_fields };

    ghost made = { user_made };

    #[tactic(auto, unfolding(crate::specs::Table::user_fields, crate::specs::Fields::references_at))]
    fn read(
        alloc: Global,
        value: &Value<'_>,
    ) -> Result<((Items<Uid>, Items<Uid>), Items<Uid>), FormFault> {
        let units = Entries::<Reference>("organisationUnits", PhantomData);
        let view_units = Entries::<Reference>("dataViewOrganisationUnits", PhantomData);
        let roles = Entries::<Reference>("userRoles", PhantomData);
        ((units, view_units), roles).read(alloc, value)
    }

    #[tactic(auto, unfolding(crate::specs::Table::user_made))]
    fn from_fields(
        place: u32,
        id: Uid,
        name: Items<u8>,
        fields: ((Items<Uid>, Items<Uid>), Items<Uid>),
    ) -> RawUser {
        let ((organisation_units, data_view_organisation_units), user_roles) = fields;
        RawUser {
            place,
            id,
            name,
            organisation_units,
            data_view_organisation_units,
            user_roles,
        }
    }
}

impl ReadObject for RawUserGroup {
    type Fields = Items<Uid>;

    ghost use Rattle.meta_forms.specs.Fields.{references_at};
    ghost use Rattle.std.specs.Prelude.{codes};
    ghost use Rattle.meta_forms.specs.Table.{user_group_made};

    ghost form = { references_at (codes "users") };

    ghost made = { user_group_made };

    #[tactic(auto, unfolding(crate::specs::Fields::references_at))]
    fn read(alloc: Global, value: &Value<'_>) -> Result<Items<Uid>, FormFault> {
        Entries::<Reference>("users", PhantomData).read(alloc, value)
    }

    #[tactic(auto, unfolding(crate::specs::Table::user_group_made))]
    fn from_fields(place: u32, id: Uid, name: Items<u8>, users: Items<Uid>) -> RawUserGroup {
        RawUserGroup {
            place,
            id,
            name,
            users,
        }
    }
}
