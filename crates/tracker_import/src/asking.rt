//! What objects are judged by.

use dh_changes::outcome::{ImportStrategy, Who};
use dh_changes::world::World;
use dh_metadata::metadata::Metadata;

/// What objects are judged by: the log, the metadata, who asks, and what is to be done.
#[derive(Clone, Copy)]
pub struct Asking<'a> {
    pub world: &'a World,
    pub meta: &'a Metadata,
    pub who: Who,
    pub strategy: ImportStrategy,
}
