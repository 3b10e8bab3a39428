//! Constants, indicators and validation rules.

use crate::entry::{ConstantValue, RuleSide};
use crate::field::{ReferenceAt, Whole};
use crate::named::Name;
use crate::object::ReadObject;
use crate::part::{Field, FieldOr, Json, Part};
use crate::sharing::Shared;
use dh_base::items::Items;
use dh_base::plain::Strategy;
use dh_base::uid::Uid;
use dh_metadata::names::Operator;
use dh_metadata::raw::{RawConstant, RawIndicator, RawIndicatorType, RawRule, RawSharing};
use dh_periods::PeriodType;
use json::Value;
use json_read::fault::FormFault;
use json_read::form::field;
use std::alloc::Global;
use std::marker::PhantomData;

impl ReadObject for RawConstant {
    type Fields = ConstantValue;

    ghost use Rattle.json_read.specs.Forms.{field_of};
    ghost use Rattle.std.specs.Prelude.{codes};
    ghost use Rattle.meta_forms.specs.Entries.{constant_form};
    ghost use Rattle.meta_forms.specs.Table.{constant_object_made};

    ghost form = { field_of (codes "value") constant_form };

    ghost made = { constant_object_made };

    fn read(alloc: Global, value: &Value<'_>) -> Result<ConstantValue, FormFault> {
        field(alloc, value, "value")
    }

    #[tactic(auto, unfolding(crate::specs::Table::constant_object_made))]
    fn from_fields(place: u32, id: Uid, name: Items<u8>, constant: ConstantValue) -> RawConstant {
        RawConstant {
            place,
            id,
            name,
            value: constant.value,
        }
    }
}

impl ReadObject for RawIndicatorType {
    type Fields = i64;

    ghost use Rattle.json_read.specs.Forms.{field_of};
    ghost use Rattle.std.specs.Prelude.{codes, negsuc, pos};
    ghost use Rattle.meta_forms.specs.Fields.{whole_of};
    ghost use Rattle.meta_forms.specs.Table.{indicator_type_made};

    ghost form = { field_of (codes "factor") (whole_of (negsuc 999999999) (pos 1000000000)) };

    ghost made = { indicator_type_made };

    fn read(alloc: Global, value: &Value<'_>) -> Result<i64, FormFault> {
        Field("factor", Whole(-1_000_000_000, 1_000_000_000)).read(alloc, value)
    }

    #[tactic(auto, unfolding(crate::specs::Table::indicator_type_made))]
    fn from_fields(place: u32, id: Uid, name: Items<u8>, factor: i64) -> RawIndicatorType {
        RawIndicatorType {
            place,
            id,
            name,
            factor,
        }
    }
}

// What an indicator computes: its numerator and denominator, its type, and whether it is of a year.
type Ratio = (((Items<u8>, Items<u8>), Uid), bool);

impl ReadObject for RawIndicator {
    type Fields = ((Ratio, i64), RawSharing);

    ghost use Rattle.meta_forms.specs.Table.{indicator_fields, indicator_made};

    ghost form = { indicator_fields };

    ghost made = { indicator_made };

    #[tactic(auto, unfolding(crate::specs::Table::indicator_fields, crate::specs::Table::ratio_of))]
    fn read(alloc: Global, value: &Value<'_>) -> Result<((Ratio, i64), RawSharing), FormFault> {
        let numerator = Field("numerator", Json::<Items<u8>>(PhantomData));
        let denominator = Field("denominator", Json::<Items<u8>>(PhantomData));
        let of_type = ReferenceAt("indicatorType");
        let annualized = FieldOr("annualized", Json::<bool>(PhantomData), false);
        let ratio = (((numerator, denominator), of_type), annualized);
        let decimals = FieldOr("decimals", Whole(0, 5), 1);
        ((ratio, decimals), Shared {}).read(alloc, value)
    }

    #[tactic(auto, unfolding(crate::specs::Table::indicator_made))]
    fn from_fields(
        place: u32,
        id: Uid,
        name: Items<u8>,
        fields: ((Ratio, i64), RawSharing),
    ) -> RawIndicator {
        let (((((numerator, denominator), indicator_type), annualized), decimals), sharing) =
            fields;
        RawIndicator {
            place,
            id,
            name,
            numerator,
            denominator,
            indicator_type,
            annualized,
            decimals,
            sharing,
        }
    }
}

type RuleFields = (
    (
        ((Operator, PeriodType), (Items<u8>, Strategy)),
        (Items<u8>, Strategy),
    ),
    RawSharing,
);

impl ReadObject for RawRule {
    type Fields = RuleFields;

    ghost use Rattle.meta_forms.specs.Table.{rule_fields, rule_made};

    ghost form = { rule_fields };

    ghost made = { rule_made };

    #[tactic(auto, unfolding(crate::specs::Table::rule_fields))]
    fn read(alloc: Global, value: &Value<'_>) -> Result<RuleFields, FormFault> {
        let operator = Field("operator", Name::<Operator>(PhantomData));
        let period_type = Field("periodType", Name::<PeriodType>(PhantomData));
        let left_side = RuleSide("leftSide");
        let right_side = RuleSide("rightSide");
        let rule = (((operator, period_type), left_side), right_side);
        (rule, Shared {}).read(alloc, value)
    }

    #[tactic(auto, unfolding(crate::specs::Table::rule_made))]
    fn from_fields(place: u32, id: Uid, name: Items<u8>, fields: RuleFields) -> RawRule {
        let ((((operator, period_type), left_side), right_side), sharing) = fields;
        RawRule {
            place,
            id,
            name,
            operator,
            period_type,
            left_side,
            right_side,
            sharing,
        }
    }
}
