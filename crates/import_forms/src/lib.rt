//! The bodies of requests that bring data values, complete data set registrations and tracker bundles, as plain data.
#![tactic(auto)]

pub mod body;
mod both;
pub mod bundle;
pub mod completion;
pub mod enrollment;
pub mod entity;
pub mod event;
mod lists;
pub mod pair;
pub mod set;
pub mod text;
