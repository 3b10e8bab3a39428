//! What one data value or one completion comes to.

use dh_base::codes::Code;
use dh_changes::change::Write;

/// What one data value or one completion comes to.
#[derive(Drop)]
pub enum Judged {
    /// Refused for a conflict.
    Refused(Code),
    /// Passed over without a conflict.
    Ignored,
    /// Written under a key that held nothing.
    Imported(Write),
    /// Written under a key that held something.
    Updated(Write),
    /// Taken away.
    Deleted(Write),
    /// Written and not counted.
    Uncounted(Write),
}
