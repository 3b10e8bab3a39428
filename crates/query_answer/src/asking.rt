//! What a query is answered from.

use crate::parts::{PeriodPart, UnitPart};
use cell_values::Source;
use query_lang::Query;

/// What a query is answered from, and its periods and units as its cells take them.
#[derive(Drop)]
pub struct Asking<'a, S> {
    pub source: &'a Source<'a, S>,
    pub query: &'a Query,
    pub periods: &'a [PeriodPart],
    pub units: &'a [UnitPart],
}
