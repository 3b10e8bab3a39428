//! What one object of a bundle comes to.

use dh_base::codes::Code;
use dh_base::items::Items;
use dh_changes::change::Write;

/// What one object of a bundle comes to.
#[derive(Drop)]
pub enum Judged {
    /// Refused for a conflict.
    Refused(Code),
    /// Neither refused nor written, which no object comes to.
    Nothing,
    /// Written where it wasn't there.
    Created(Items<Write>),
    /// Written where it was there.
    Updated(Items<Write>),
    /// Taken away, with what hung on it.
    Deleted(Items<Write>),
}
