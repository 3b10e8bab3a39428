//! What a query's text asks.

use crate::Axis;
use crate::item::{DxItem, UnitItem};
use dh_base::items::Items;
use dh_periods::Period;

/// What the pairs up to one ask.
#[derive(Drop)]
pub struct Draft {
    pub dx: Option<Items<DxItem>>,
    pub periods: Option<Axis<Period>>,
    pub units: Option<Axis<UnitItem>>,
    pub meta: bool,
}

/// What a query's text asks, before any metadata is asked.
#[derive(Drop)]
pub struct Form {
    pub dx: Items<DxItem>,
    pub periods: Axis<Period>,
    pub units: Axis<UnitItem>,
    /// Whether the answer tells names and dimensions.
    pub meta: bool,
}
