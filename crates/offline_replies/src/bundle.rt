//! The reply to a query over a bundle: a metadata file with data values.

pub mod bytes;
mod over;
pub mod reply;
