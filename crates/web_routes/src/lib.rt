//! From a request to the call that it stands for, or its refusal.
#![tactic(auto)]

mod approval;
mod asking;
pub mod call;
pub mod checked;
mod completion;
pub mod fault;
pub mod form;
pub mod pairs;
pub mod path;
pub mod routing;
pub mod table;

pub use crate::fault::RouteFault;
