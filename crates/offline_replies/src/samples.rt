//! The report on sample data: how many records and changes a number of drawn values leaves, and their total.

mod counts;
pub mod draws;
pub mod file;
pub mod ids;
mod load;
mod report;
mod run;
mod sets;
mod total;

pub use run::generated;
