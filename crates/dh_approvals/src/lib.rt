//! Approvals: who may approve and accept what, and the first reason why not.
//!
//! What a log says of approvals stands in `dh_changes`, up to which position a value is approved in `dh_records`.
#![tactic(auto)]

pub mod act;
pub mod decision;
mod rights;
mod search;
mod units;

pub use act::{ApprovalAct, ApprovalFault, Verb};
pub use decision::decide;
