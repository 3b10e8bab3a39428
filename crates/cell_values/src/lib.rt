//! The value of a cell: an element, a reporting rate, a constant, a group of units or days over some periods and units, from the rows
//! of a store that a user sees; and what a user sees, by units, sharing and approval.
#![tactic(auto)]

mod aggregated;
mod assigned;
mod cell;
mod counts;
mod cuts;
mod due;
mod element;
mod gathered;
mod groups;
mod item;
mod period_days;
mod periods;
mod places;
mod rates;
mod reports;
mod seer;
mod totals;

pub use cell::{CellPeriods, CellUnits, Operand, Source};
pub use due::Due;
pub use element::{ElementPlan, element_groups, element_plan, element_value, planned_value};
pub use item::{ItemPlan, Way, item_groups, item_plans, item_values};
pub use rates::{RateAsked, RatePlan, planned_rate, rate_due, rate_plan};
pub use reports::{Report, Reports};
pub use seer::Seer;
