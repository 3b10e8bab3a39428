//! Data elements, approval, and data sets.

use crate::entries::Entries;
use crate::entry::SetElement;
use crate::field::{ComboOrDefault, OptionalReference, Whole};
use crate::named::{Name, NameOr};
use crate::object::ReadObject;
use crate::part::{Field, FieldOr, Json, Part};
use crate::sharing::Shared;
use dh_base::items::Items;
use dh_base::plain::AggType;
use dh_base::uid::Uid;
use dh_metadata::names::ValueType;
use dh_metadata::raw::{RawApprovalLevel, RawDataSet, RawElement, RawSharing, RawWorkflow};
use dh_periods::PeriodType;
use json::Value;
use json_read::fault::FormFault;
use json_read::reference::Reference;
use std::alloc::Global;
use std::marker::PhantomData;

type ElementFields = ((((ValueType, AggType), Uid), bool), RawSharing);

impl ReadObject for RawElement {
    type Fields = ElementFields;

    ghost use Rattle.meta_forms.specs.Table.{element_fields, element_made};

    ghost form = { element_fields };

    ghost made = { element_made };

    #[tactic(auto, unfolding(crate::specs::Table::element_fields))]
    fn read(alloc: Global, value: &Value<'_>) -> Result<ElementFields, FormFault> {
        let value_type = Field("valueType", NameOr(ValueType::Text));
        let aggregation = FieldOr("aggregationType", NameOr(AggType::None), AggType::Sum);
        let significant = FieldOr("zeroIsSignificant", Json::<bool>(PhantomData), false);
        let fields = (
            (((value_type, aggregation), ComboOrDefault {}), significant),
            Shared {},
        );
        fields.read(alloc, value)
    }

    #[tactic(auto, unfolding(crate::specs::Table::element_made))]
    fn from_fields(place: u32, id: Uid, name: Items<u8>, fields: ElementFields) -> RawElement {
        let ((((value_type, aggregation_type), category_combo), zero_is_significant), sharing) =
            fields;
        RawElement {
            place,
            id,
            name,
            value_type,
            aggregation_type,
            category_combo,
            zero_is_significant,
            sharing,
        }
    }
}

impl ReadObject for RawApprovalLevel {
    type Fields = (i64, i64);

    ghost use Rattle.meta_forms.specs.Table.{approval_level_fields, approval_level_made};

    ghost form = { approval_level_fields };

    ghost made = { approval_level_made };

    #[tactic(auto, unfolding(crate::specs::Table::approval_level_fields))]
    fn read(alloc: Global, value: &Value<'_>) -> Result<(i64, i64), FormFault> {
        let level = Field("level", Whole(1, 1000));
        let unit_level = Field("orgUnitLevel", Whole(1, 12));
        (level, unit_level).read(alloc, value)
    }

    #[tactic(auto, unfolding(crate::specs::Table::approval_level_made))]
    fn from_fields(place: u32, id: Uid, name: Items<u8>, fields: (i64, i64)) -> RawApprovalLevel {
        let (level, org_unit_level) = fields;
        RawApprovalLevel {
            place,
            id,
            name,
            level,
            org_unit_level,
        }
    }
}

impl ReadObject for RawWorkflow {
    type Fields = (PeriodType, Items<Uid>);

    ghost use Rattle.meta_forms.specs.Table.{workflow_fields, workflow_made};

    ghost form = { workflow_fields };

    ghost made = { workflow_made };

    #[tactic(auto, unfolding(crate::specs::Table::workflow_fields, crate::specs::Fields::references_at))]
    fn read(alloc: Global, value: &Value<'_>) -> Result<(PeriodType, Items<Uid>), FormFault> {
        let period_type = Field("periodType", Name::<PeriodType>(PhantomData));
        let levels = Entries::<Reference>("dataApprovalLevels", PhantomData);
        (period_type, levels).read(alloc, value)
    }

    #[tactic(auto, unfolding(crate::specs::Table::workflow_made))]
    fn from_fields(
        place: u32,
        id: Uid,
        name: Items<u8>,
        fields: (PeriodType, Items<Uid>),
    ) -> RawWorkflow {
        let (period_type, data_approval_levels) = fields;
        RawWorkflow {
            place,
            id,
            name,
            period_type,
            data_approval_levels,
        }
    }
}

// What a data set collects: its period type, elements and units, and its category combination.
type SetContent = (((PeriodType, Items<(Uid, Option<Uid>)>), Items<Uid>), Uid);

// How a data set is approved, and when it may be written: its workflow, periods ahead, days to expire, days to be timely.
type SetRules = (((Option<Uid>, i64), i64), i64);

impl ReadObject for RawDataSet {
    type Fields = ((SetContent, SetRules), RawSharing);

    ghost use Rattle.meta_forms.specs.Table.{data_set_fields, data_set_made};

    ghost form = { data_set_fields };

    ghost made = { data_set_made };

    fn read(
        alloc: Global,
        value: &Value<'_>,
    ) -> Result<((SetContent, SetRules), RawSharing), FormFault> {
        let period_type = Field("periodType", Name::<PeriodType>(PhantomData));
        let elements = Entries::<SetElement>("dataSetElements", PhantomData);
        let units = Entries::<Reference>("organisationUnits", PhantomData);
        let content = (((period_type, elements), units), ComboOrDefault {});
        let workflow = OptionalReference("workflow");
        let ahead = FieldOr("openFuturePeriods", Whole(0, 100_000), 0);
        let expiry = FieldOr("expiryDays", Whole(0, 100_000), 0);
        let timely = FieldOr("timelyDays", Whole(0, 100_000), 15);
        let rules = (((workflow, ahead), expiry), timely);
        ((content, rules), Shared {}).read(alloc, value)
    }

    #[tactic(auto, unfolding(crate::specs::Table::data_set_made))]
    fn from_fields(
        place: u32,
        id: Uid,
        name: Items<u8>,
        fields: ((SetContent, SetRules), RawSharing),
    ) -> RawDataSet {
        let (
            (
                (((period_type, data_set_elements), organisation_units), category_combo),
                (((workflow, open_future_periods), expiry_days), timely_days),
            ),
            sharing,
        ) = fields;
        RawDataSet {
            place,
            id,
            name,
            period_type,
            data_set_elements,
            organisation_units,
            category_combo,
            workflow,
            open_future_periods,
            expiry_days,
            timely_days,
            sharing,
        }
    }
}
