//! Stores of rows that keep running sums beside them, and tables cut by year: a part of each year, found by the year that a group's
//! period begins in, and the parts together as one store. Which rows a log leaves is said where tables are built.
#![tactic(auto)]

mod by_year;
mod cut;
mod days;
mod find;
mod gather;
mod groups;
mod part;
mod range;
mod ranked;
mod rows;
mod running;
mod search;
mod steps;
mod summed;
mod tables;
mod year_days;
mod year_gather;

pub use cut::{part_from, tables_of};
pub use groups::groups_of;
pub use part::Partition;
pub use range::{Part, rows_of_part, sum_of_part};
pub use rows::Rows;
pub use running::RunningRows;
pub use search::{Bound, place_of};
pub use steps::Steps;
pub use summed::{SummedRows, with_sums};
pub use tables::Tables;
pub use year_days::day_year;
