//! Tracked entities and programs.

use crate::entries::Entries;
use crate::entry::{ProgramAttribute, StageElement};
use crate::field::{OptionalReference, ReferenceAt, Whole};
use crate::named::{Name, NameOr};
use crate::object::ReadObject;
use crate::part::{Field, FieldOr, Json, OptionalField, Part};
use crate::sharing::Shared;
use dh_base::items::Items;
use dh_base::plain::AggType;
use dh_base::uid::Uid;
use dh_metadata::names::{AnalyticsType, ProgramType, ValueType};
use dh_metadata::raw::{
    RawAttribute, RawEntityType, RawProgram, RawProgramIndicator, RawSharing, RawStage,
};
use json::Value;
use json_read::fault::FormFault;
use std::alloc::Global;
use std::marker::PhantomData;

impl ReadObject for RawEntityType {
    type Fields = RawSharing;

    ghost use Rattle.meta_forms.specs.Sharing.{sharing_of};
    ghost use Rattle.meta_forms.specs.Table.{entity_type_made};

    ghost form = { sharing_of };

    ghost made = { entity_type_made };

    fn read(alloc: Global, value: &Value<'_>) -> Result<RawSharing, FormFault> {
        Shared {}.read(alloc, value)
    }

    #[tactic(auto, unfolding(crate::specs::Table::entity_type_made))]
    fn from_fields(place: u32, id: Uid, name: Items<u8>, sharing: RawSharing) -> RawEntityType {
        RawEntityType {
            place,
            id,
            name,
            sharing,
        }
    }
}

impl ReadObject for RawAttribute {
    type Fields = ValueType;

    ghost use Rattle.json_read.specs.Forms.{field_of};
    ghost use Rattle.std.specs.Prelude.{codes};
    ghost use Rattle.meta_forms.specs.Fields.{name_or_other};
    ghost use Rattle.dh_metadata.specs.Names.{value_type_named};
    ghost use Rattle.dh_metadata.specs.declared.names.ValueType.TheVariants as value_type;
    ghost use Rattle.meta_forms.specs.Table.{tracked_attribute_made};

    ghost form = { field_of (codes "valueType") (name_or_other value_type_named value_type.Text) };

    ghost made = { tracked_attribute_made };

    fn read(alloc: Global, value: &Value<'_>) -> Result<ValueType, FormFault> {
        Field("valueType", NameOr(ValueType::Text)).read(alloc, value)
    }

    #[tactic(auto, unfolding(crate::specs::Table::tracked_attribute_made))]
    fn from_fields(place: u32, id: Uid, name: Items<u8>, value_type: ValueType) -> RawAttribute {
        RawAttribute {
            place,
            id,
            name,
            value_type,
        }
    }
}

type ProgramFields = (((ProgramType, Option<Uid>), Items<Uid>), RawSharing);

impl ReadObject for RawProgram {
    type Fields = ProgramFields;

    ghost use Rattle.meta_forms.specs.Table.{program_fields, program_made};

    ghost form = { program_fields };

    ghost made = { program_made };

    #[tactic(auto, unfolding(crate::specs::Table::program_fields, crate::specs::Entries::attributes_of))]
    fn read(alloc: Global, value: &Value<'_>) -> Result<ProgramFields, FormFault> {
        let program_type = Field("programType", Name::<ProgramType>(PhantomData));
        let entity_type = OptionalReference("trackedEntityType");
        let attributes = Entries::<ProgramAttribute>("programTrackedEntityAttributes", PhantomData);
        (((program_type, entity_type), attributes), Shared {}).read(alloc, value)
    }

    #[tactic(auto, unfolding(crate::specs::Table::program_made))]
    fn from_fields(place: u32, id: Uid, name: Items<u8>, fields: ProgramFields) -> RawProgram {
        let (((program_type, tracked_entity_type), program_tracked_entity_attributes), sharing) =
            fields;
        RawProgram {
            place,
            id,
            name,
            program_type,
            tracked_entity_type,
            program_tracked_entity_attributes,
            sharing,
        }
    }
}

impl ReadObject for RawStage {
    type Fields = (Uid, Items<Uid>);

    ghost use Rattle.meta_forms.specs.Table.{stage_fields, stage_made};

    ghost form = { stage_fields };

    ghost made = { stage_made };

    #[tactic(auto, unfolding(crate::specs::Table::stage_fields, crate::specs::Entries::stage_elements_of))]
    fn read(alloc: Global, value: &Value<'_>) -> Result<(Uid, Items<Uid>), FormFault> {
        let program = ReferenceAt("program");
        let elements = Entries::<StageElement>("programStageDataElements", PhantomData);
        (program, elements).read(alloc, value)
    }

    #[tactic(auto, unfolding(crate::specs::Table::stage_made))]
    fn from_fields(place: u32, id: Uid, name: Items<u8>, fields: (Uid, Items<Uid>)) -> RawStage {
        let (program, program_stage_data_elements) = fields;
        RawStage {
            place,
            id,
            name,
            program,
            program_stage_data_elements,
        }
    }
}

// What a program indicator computes of an event: its program, expression and filter.
type Formula = ((Uid, Items<u8>), Option<Items<u8>>);

// How the figures of a program indicator are made into one: by its aggregation, of events or enrollments, with its decimals.
type Figure = ((AggType, AnalyticsType), i64);

impl ReadObject for RawProgramIndicator {
    type Fields = ((Formula, Figure), RawSharing);

    ghost use Rattle.meta_forms.specs.Table.{program_indicator_fields, program_indicator_made};

    ghost form = { program_indicator_fields };

    ghost made = { program_indicator_made };

    #[tactic(auto, unfolding(crate::specs::Table::program_indicator_fields, crate::specs::Table::formula_of, crate::specs::Table::figure_of))]
    fn read(
        alloc: Global,
        value: &Value<'_>,
    ) -> Result<((Formula, Figure), RawSharing), FormFault> {
        let program = ReferenceAt("program");
        let expression = Field("expression", Json::<Items<u8>>(PhantomData));
        let filter = OptionalField("filter", Json::<Items<u8>>(PhantomData));
        let formula = ((program, expression), filter);
        let sums = Name::<AggType>(PhantomData);
        let aggregation = FieldOr("aggregationType", sums, AggType::Sum);
        let kinds = Name::<AnalyticsType>(PhantomData);
        let analytics = FieldOr("analyticsType", kinds, AnalyticsType::Event);
        let decimals = FieldOr("decimals", Whole(0, 5), 1);
        let figure = ((aggregation, analytics), decimals);
        ((formula, figure), Shared {}).read(alloc, value)
    }

    #[tactic(auto, unfolding(crate::specs::Table::program_indicator_made))]
    fn from_fields(
        place: u32,
        id: Uid,
        name: Items<u8>,
        fields: ((Formula, Figure), RawSharing),
    ) -> RawProgramIndicator {
        let (
            (((program, expression), filter), ((aggregation_type, analytics_type), decimals)),
            sharing,
        ) = fields;
        RawProgramIndicator {
            place,
            id,
            name,
            program,
            expression,
            filter,
            aggregation_type,
            analytics_type,
            decimals,
            sharing,
        }
    }
}
