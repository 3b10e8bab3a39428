//! Objects as they are held: a reference is the number of its object, from 0 in the order of the file.
//! The built-in category combination and option combination have the number 0 of their kinds.

use crate::names::{AnalyticsType, Operator, ProgramType, ValueType};
use dh_base::decimal::Micros;
use dh_base::items::Items;
use dh_base::plain::{AggType, Strategy};
use dh_base::uid::Uid;
use dh_periods::PeriodType;
use dh_sharing::rule::Sharing;
use expr_lang::Expr;

/// An organisation unit.
#[derive(Drop)]
pub struct Unit {
    pub id: Uid,
    pub name: Items<u8>,
    pub parent: Option<u32>,
}

/// A group of organisation units.
#[derive(Drop)]
pub struct UnitGroup {
    pub id: Uid,
    pub name: Items<u8>,
    pub organisation_units: Items<u32>,
}

/// A category option.
#[derive(Drop)]
pub struct CategoryOption {
    pub id: Uid,
    pub name: Items<u8>,
    pub sharing: Sharing,
}

/// A category.
#[derive(Drop)]
pub struct Category {
    pub id: Uid,
    pub name: Items<u8>,
    pub category_options: Items<u32>,
}

/// A category combination.
#[derive(Drop)]
pub struct CategoryCombo {
    pub id: Uid,
    pub name: Items<u8>,
    pub categories: Items<u32>,
}

/// A category option combination.
#[derive(Drop)]
pub struct OptionCombo {
    pub id: Uid,
    pub name: Items<u8>,
    pub category_combo: u32,
    pub category_options: Items<u32>,
}

/// A data element.
#[derive(Drop)]
pub struct Element {
    pub id: Uid,
    pub name: Items<u8>,
    pub value_type: ValueType,
    pub aggregation_type: AggType,
    pub category_combo: u32,
    pub zero_is_significant: bool,
    pub sharing: Sharing,
}

/// An approval level. `level` is from 1 to 1,000, `org_unit_level` from 1 to 12.
#[derive(Drop)]
pub struct ApprovalLevel {
    pub id: Uid,
    pub name: Items<u8>,
    pub level: i64,
    pub org_unit_level: i64,
}

/// An approval workflow.
#[derive(Drop)]
pub struct Workflow {
    pub id: Uid,
    pub name: Items<u8>,
    pub period_type: PeriodType,
    pub data_approval_levels: Items<u32>,
}

/// A data set. The three whole numbers are from 0 to 100,000.
#[derive(Drop)]
pub struct DataSet {
    pub id: Uid,
    pub name: Items<u8>,
    pub period_type: PeriodType,
    pub data_set_elements: Items<u32>,
    pub organisation_units: Items<u32>,
    pub category_combo: u32,
    pub workflow: Option<u32>,
    pub open_future_periods: i64,
    pub expiry_days: i64,
    pub timely_days: i64,
    pub sharing: Sharing,
}

/// A constant.
#[derive(Drop)]
pub struct Constant {
    pub id: Uid,
    pub name: Items<u8>,
    pub value: Micros,
}

/// An indicator type. `factor` is at most 1,000,000,000 in size.
#[derive(Drop)]
pub struct IndicatorType {
    pub id: Uid,
    pub name: Items<u8>,
    pub factor: i64,
}

/// An indicator. `decimals` is from 0 to 5.
#[derive(Drop)]
pub struct Indicator {
    pub id: Uid,
    pub name: Items<u8>,
    pub numerator: Expr,
    pub denominator: Expr,
    pub indicator_type: u32,
    pub annualized: bool,
    pub decimals: i64,
    pub sharing: Sharing,
}

/// A validation rule. A side is its expression and its missing-value strategy.
#[derive(Drop)]
pub struct Rule {
    pub id: Uid,
    pub name: Items<u8>,
    pub operator: Operator,
    pub period_type: PeriodType,
    pub left_side: (Expr, Strategy),
    pub right_side: (Expr, Strategy),
    pub sharing: Sharing,
}

/// A type of tracked entities.
#[derive(Drop)]
pub struct EntityType {
    pub id: Uid,
    pub name: Items<u8>,
    pub sharing: Sharing,
}

/// An attribute of tracked entities.
#[derive(Drop)]
pub struct Attribute {
    pub id: Uid,
    pub name: Items<u8>,
    pub value_type: ValueType,
}

/// A program.
#[derive(Drop)]
pub struct Program {
    pub id: Uid,
    pub name: Items<u8>,
    pub program_type: ProgramType,
    pub tracked_entity_type: Option<u32>,
    pub program_tracked_entity_attributes: Items<u32>,
    pub sharing: Sharing,
}

/// A stage of a program.
#[derive(Drop)]
pub struct Stage {
    pub id: Uid,
    pub name: Items<u8>,
    pub program: u32,
    pub program_stage_data_elements: Items<u32>,
}

/// A program indicator. `decimals` is from 0 to 5.
#[derive(Drop)]
pub struct ProgramIndicator {
    pub id: Uid,
    pub name: Items<u8>,
    pub program: u32,
    pub expression: Expr,
    pub filter: Option<Expr>,
    pub aggregation_type: AggType,
    pub analytics_type: AnalyticsType,
    pub decimals: i64,
    pub sharing: Sharing,
}

/// A user role.
#[derive(Drop)]
pub struct Role {
    pub id: Uid,
    pub name: Items<u8>,
    pub authorities: Items<Items<u8>>,
}

/// A user.
#[derive(Drop)]
pub struct User {
    pub id: Uid,
    pub name: Items<u8>,
    pub organisation_units: Items<u32>,
    pub data_view_organisation_units: Items<u32>,
    pub user_roles: Items<u32>,
}

/// A user group.
#[derive(Drop)]
pub struct UserGroup {
    pub id: Uid,
    pub name: Items<u8>,
    pub users: Items<u32>,
}

/// The references of an indicator.
#[derive(Drop)]
pub struct IndicatorLinks {
    pub indicator_type: u32,
    pub sharing: Sharing,
}

/// The references of a program indicator.
#[derive(Drop)]
pub struct ProgramIndicatorLinks {
    pub program: u32,
    pub sharing: Sharing,
}
