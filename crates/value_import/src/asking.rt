//! What values and completions are judged by.

use dh_changes::outcome::Who;
use dh_changes::world::World;
use dh_metadata::metadata::Metadata;

/// What values and completions are judged by: the log, the metadata, who asks, and the day.
#[derive(Clone, Copy)]
pub struct Asking<'a> {
    pub world: &'a World,
    pub meta: &'a Metadata,
    pub who: Who,
    pub today: i32,
}
