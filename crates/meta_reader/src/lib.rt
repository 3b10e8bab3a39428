//! Reading a metadata file whole: from its bytes to metadata, or its first fault and what is told of it.
#![tactic(auto)]

pub mod build;
pub mod fault;
pub mod file;
pub mod file_fault;
pub mod line;
pub mod read;
mod steps;
pub mod text;
