//! Objects as a metadata file has them: references are identifiers, expressions are texts.
//!
//! `place` is the object's place in the list of its key, from 0, objects that were passed over counted.

use crate::names::{AnalyticsType, Operator, ProgramType, ValueType};
use dh_base::decimal::Micros;
use dh_base::items::Items;
use dh_base::plain::{AggType, Strategy};
use dh_base::uid::Uid;
use dh_periods::PeriodType;
use dh_sharing::access::Access;

/// How an object is shared. An entry has its key in the file first.
#[derive(Drop)]
pub struct RawSharing {
    pub owner: Option<Uid>,
    pub public: Access,
    pub users: Items<(Items<u8>, Uid, Access)>,
    pub groups: Items<(Items<u8>, Uid, Access)>,
}

/// An organisation unit.
#[derive(Drop)]
pub struct RawUnit {
    pub place: u32,
    pub id: Uid,
    pub name: Items<u8>,
    pub parent: Option<Uid>,
}

/// A group of organisation units.
#[derive(Drop)]
pub struct RawUnitGroup {
    pub place: u32,
    pub id: Uid,
    pub name: Items<u8>,
    pub organisation_units: Items<Uid>,
}

/// A category option.
#[derive(Drop)]
pub struct RawCategoryOption {
    pub place: u32,
    pub id: Uid,
    pub name: Items<u8>,
    pub sharing: RawSharing,
}

/// A category.
#[derive(Drop)]
pub struct RawCategory {
    pub place: u32,
    pub id: Uid,
    pub name: Items<u8>,
    pub category_options: Items<Uid>,
}

/// A category combination.
#[derive(Drop)]
pub struct RawCategoryCombo {
    pub place: u32,
    pub id: Uid,
    pub name: Items<u8>,
    pub categories: Items<Uid>,
}

/// A category option combination.
#[derive(Drop)]
pub struct RawOptionCombo {
    pub place: u32,
    pub id: Uid,
    pub name: Items<u8>,
    pub category_combo: Uid,
    pub category_options: Items<Uid>,
}

/// A data element.
#[derive(Drop)]
pub struct RawElement {
    pub place: u32,
    pub id: Uid,
    pub name: Items<u8>,
    pub value_type: ValueType,
    pub aggregation_type: AggType,
    pub category_combo: Uid,
    pub zero_is_significant: bool,
    pub sharing: RawSharing,
}

/// An approval level. `level` is from 1 to 1,000, `org_unit_level` from 1 to 12.
#[derive(Drop)]
pub struct RawApprovalLevel {
    pub place: u32,
    pub id: Uid,
    pub name: Items<u8>,
    pub level: i64,
    pub org_unit_level: i64,
}

/// An approval workflow.
#[derive(Drop)]
pub struct RawWorkflow {
    pub place: u32,
    pub id: Uid,
    pub name: Items<u8>,
    pub period_type: PeriodType,
    pub data_approval_levels: Items<Uid>,
}

/// A data set. An entry of `data_set_elements` is an element and, where it is named, a category
/// combination. The three whole numbers are from 0 to 100,000.
#[derive(Drop)]
pub struct RawDataSet {
    pub place: u32,
    pub id: Uid,
    pub name: Items<u8>,
    pub period_type: PeriodType,
    pub data_set_elements: Items<(Uid, Option<Uid>)>,
    pub organisation_units: Items<Uid>,
    pub category_combo: Uid,
    pub workflow: Option<Uid>,
    pub open_future_periods: i64,
    pub expiry_days: i64,
    pub timely_days: i64,
    pub sharing: RawSharing,
}

/// A constant.
#[derive(Drop)]
pub struct RawConstant {
    pub place: u32,
    pub id: Uid,
    pub name: Items<u8>,
    pub value: Micros,
}

/// An indicator type. `factor` is at most 1,000,000,000 in size.
#[derive(Drop)]
pub struct RawIndicatorType {
    pub place: u32,
    pub id: Uid,
    pub name: Items<u8>,
    pub factor: i64,
}

/// An indicator. `decimals` is from 0 to 5.
#[derive(Drop)]
pub struct RawIndicator {
    pub place: u32,
    pub id: Uid,
    pub name: Items<u8>,
    pub numerator: Items<u8>,
    pub denominator: Items<u8>,
    pub indicator_type: Uid,
    pub annualized: bool,
    pub decimals: i64,
    pub sharing: RawSharing,
}

/// A validation rule. A side is its expression and its missing-value strategy.
#[derive(Drop)]
pub struct RawRule {
    pub place: u32,
    pub id: Uid,
    pub name: Items<u8>,
    pub operator: Operator,
    pub period_type: PeriodType,
    pub left_side: (Items<u8>, Strategy),
    pub right_side: (Items<u8>, Strategy),
    pub sharing: RawSharing,
}

/// A type of tracked entities.
#[derive(Drop)]
pub struct RawEntityType {
    pub place: u32,
    pub id: Uid,
    pub name: Items<u8>,
    pub sharing: RawSharing,
}

/// An attribute of tracked entities.
#[derive(Drop)]
pub struct RawAttribute {
    pub place: u32,
    pub id: Uid,
    pub name: Items<u8>,
    pub value_type: ValueType,
}

/// A program.
#[derive(Drop)]
pub struct RawProgram {
    pub place: u32,
    pub id: Uid,
    pub name: Items<u8>,
    pub program_type: ProgramType,
    pub tracked_entity_type: Option<Uid>,
    pub program_tracked_entity_attributes: Items<Uid>,
    pub sharing: RawSharing,
}

/// A stage of a program.
#[derive(Drop)]
pub struct RawStage {
    pub place: u32,
    pub id: Uid,
    pub name: Items<u8>,
    pub program: Uid,
    pub program_stage_data_elements: Items<Uid>,
}

/// A program indicator. `decimals` is from 0 to 5.
#[derive(Drop)]
pub struct RawProgramIndicator {
    pub place: u32,
    pub id: Uid,
    pub name: Items<u8>,
    pub program: Uid,
    pub expression: Items<u8>,
    pub filter: Option<Items<u8>>,
    pub aggregation_type: AggType,
    pub analytics_type: AnalyticsType,
    pub decimals: i64,
    pub sharing: RawSharing,
}

/// A user role.
#[derive(Drop)]
pub struct RawRole {
    pub place: u32,
    pub id: Uid,
    pub name: Items<u8>,
    pub authorities: Items<Items<u8>>,
}

/// A user.
#[derive(Drop)]
pub struct RawUser {
    pub place: u32,
    pub id: Uid,
    pub name: Items<u8>,
    pub organisation_units: Items<Uid>,
    pub data_view_organisation_units: Items<Uid>,
    pub user_roles: Items<Uid>,
}

/// A user group.
#[derive(Drop)]
pub struct RawUserGroup {
    pub place: u32,
    pub id: Uid,
    pub name: Items<u8>,
    pub users: Items<Uid>,
}
