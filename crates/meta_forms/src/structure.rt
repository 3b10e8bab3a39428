//! Organisation units, their groups, and categories.

use crate::entries::Entries;
use crate::field::{OptionalReference, ReferenceAt};
use crate::object::ReadObject;
use crate::part::Part;
use crate::sharing::Shared;
use dh_base::items::Items;
use dh_base::uid::Uid;
use dh_metadata::raw::{
    RawCategory, RawCategoryCombo, RawCategoryOption, RawOptionCombo, RawSharing, RawUnit,
    RawUnitGroup,
};
use json::Value;
use json_read::fault::FormFault;
use json_read::reference::Reference;
use std::alloc::Global;
use std::marker::PhantomData;

impl ReadObject for RawUnit {
    type Fields = Option<Uid>;

    ghost use Rattle.meta_forms.specs.Fields.{optional_reference_at};
    ghost use Rattle.std.specs.Prelude.{codes};
    ghost use Rattle.meta_forms.specs.Table.{unit_made};

    ghost form = { optional_reference_at (codes "parent") };

    ghost made = { unit_made };

    fn read(alloc: Global, value: &Value<'_>) -> Result<Option<Uid>, FormFault> {
        OptionalReference("parent").read(alloc, value)
    }

    #[tactic(auto, unfolding(crate::specs::Table::unit_made))]
    fn from_fields(place: u32, id: Uid, name: Items<u8>, parent: Option<Uid>) -> RawUnit {
        RawUnit {
            place,
            id,
            name,
            parent,
        }
    }
}

impl ReadObject for RawUnitGroup {
    type Fields = Items<Uid>;

    ghost use Rattle.meta_forms.specs.Fields.{references_at};
    ghost use Rattle.std.specs.Prelude.{codes};
    ghost use Rattle.meta_forms.specs.Table.{unit_group_made};

    ghost form = { references_at (codes "organisationUnits") };

    ghost made = { unit_group_made };

    #[tactic(auto, unfolding(crate::specs::Fields::references_at))]
    fn read(alloc: Global, value: &Value<'_>) -> Result<Items<Uid>, FormFault> {
        Entries::<Reference>("organisationUnits", PhantomData).read(alloc, value)
    }

    #[tactic(auto, unfolding(crate::specs::Table::unit_group_made))]
    fn from_fields(
        place: u32,
        id: Uid,
        name: Items<u8>,
        organisation_units: Items<Uid>,
    ) -> RawUnitGroup {
        RawUnitGroup {
            place,
            id,
            name,
            organisation_units,
        }
    }
}

impl ReadObject for RawCategoryOption {
    type Fields = RawSharing;

    ghost use Rattle.meta_forms.specs.Sharing.{sharing_of};
    ghost use Rattle.meta_forms.specs.Table.{category_option_made};

    ghost form = { sharing_of };

    ghost made = { category_option_made };

    fn read(alloc: Global, value: &Value<'_>) -> Result<RawSharing, FormFault> {
        Shared {}.read(alloc, value)
    }

    #[tactic(auto, unfolding(crate::specs::Table::category_option_made))]
    fn from_fields(place: u32, id: Uid, name: Items<u8>, sharing: RawSharing) -> RawCategoryOption {
        RawCategoryOption {
            place,
            id,
            name,
            sharing,
        }
    }
}

impl ReadObject for RawCategory {
    type Fields = Items<Uid>;

    ghost use Rattle.meta_forms.specs.Fields.{references_at};
    ghost use Rattle.std.specs.Prelude.{codes};
    ghost use Rattle.meta_forms.specs.Table.{category_made};

    ghost form = { references_at (codes "categoryOptions") };

    ghost made = { category_made };

    #[tactic(auto, unfolding(crate::specs::Fields::references_at))]
    fn read(alloc: Global, value: &Value<'_>) -> Result<Items<Uid>, FormFault> {
        Entries::<Reference>("categoryOptions", PhantomData).read(alloc, value)
    }

    #[tactic(auto, unfolding(crate::specs::Table::category_made))]
    fn from_fields(
        place: u32,
        id: Uid,
        name: Items<u8>,
        category_options: Items<Uid>,
    ) -> RawCategory {
        RawCategory {
            place,
            id,
            name,
            category_options,
        }
    }
}

impl ReadObject for RawCategoryCombo {
    type Fields = Items<Uid>;

    ghost use Rattle.meta_forms.specs.Fields.{references_at};
    ghost use Rattle.std.specs.Prelude.{codes};
    ghost use Rattle.meta_forms.specs.Table.{category_combo_made};

    ghost form = { references_at (codes "categories") };

    ghost made = { category_combo_made };

    #[tactic(auto, unfolding(crate::specs::Fields::references_at))]
    fn read(alloc: Global, value: &Value<'_>) -> Result<Items<Uid>, FormFault> {
        Entries::<Reference>("categories", PhantomData).read(alloc, value)
    }

    #[tactic(auto, unfolding(crate::specs::Table::category_combo_made))]
    fn from_fields(
        place: u32,
        id: Uid,
        name: Items<u8>,
        categories: Items<Uid>,
    ) -> RawCategoryCombo {
        RawCategoryCombo {
            place,
            id,
            name,
            categories,
        }
    }
}

impl ReadObject for RawOptionCombo {
    type Fields = (Uid, Items<Uid>);

    ghost use Rattle.meta_forms.specs.Table.{option_combo_fields, option_combo_made};

    ghost form = { option_combo_fields };

    ghost made = { option_combo_made };

    #[tactic(auto, unfolding(crate::specs::Table::option_combo_fields, crate::specs::Fields::references_at))]
    fn read(alloc: Global, value: &Value<'_>) -> Result<(Uid, Items<Uid>), FormFault> {
        let combo = ReferenceAt("categoryCombo");
        let options = Entries::<Reference>("categoryOptions", PhantomData);
        (combo, options).read(alloc, value)
    }

    #[tactic(auto, unfolding(crate::specs::Table::option_combo_made))]
    fn from_fields(
        place: u32,
        id: Uid,
        name: Items<u8>,
        fields: (Uid, Items<Uid>),
    ) -> RawOptionCombo {
        let (category_combo, category_options) = fields;
        RawOptionCombo {
            place,
            id,
            name,
            category_combo,
            category_options,
        }
    }
}
