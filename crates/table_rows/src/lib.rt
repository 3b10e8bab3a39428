//! Rows of the analytics tables: values, events and registrations, their order, and what a store of them promises to
//! those who ask it. `ListRows` is the plain store, over three lists. `aggregate` makes one value of the samples that
//! are taken of rows, by the aggregation type of a data element.
#![tactic(auto)]

mod checks;
mod ends;
mod event;
mod kinds;
mod list_rows;
mod plain;
mod ranked;
mod row;
mod sample;
mod store;
mod sum;
mod sums;

pub use checks::is_store;
pub use event::{EventRow, EventsAsked, ItemValue, RegRow, put_event};
pub use kinds::{aggregate, value_of_sum};
pub use list_rows::ListRows;
pub use plain::add_group;
pub use ranked::{Ranked, rise};
pub use row::{Group, Row, RowKey, meets, position_of};
pub use sample::{Sample, Series, is_sorted};
pub use store::RowStore;
pub use sum::Sum;
