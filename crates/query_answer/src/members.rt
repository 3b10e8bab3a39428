//! Members of a JSON object, one after the other. A call takes the members that are there and hands them on, so that
//! its caller holds nothing where it may have to return early.

ghost use Rattle.std.specs.Prelude.{◌≡◌, IfOk};
ghost use Rattle.serde_json.specs.Data.{put as with_member};
ghost use Rattle.serde_json.specs.View.{view, members_view};

use serde_json::{Map, Value, put};
use std::alloc::{AllocError, Global};

/// The members and one more.
pub(crate) fn with_value(
    alloc: Global,
    members: Map<String, Value>,
    name: &str,
    value: Value,
) -> Result<Map<String, Value>, AllocError>
    ensures { IfOk result (λ more. members_view more.entries ≡ with_member name.now (view value) (members_view members.entries)) }
{
    let mut members = members;
    put(&mut members, alloc, name, value)?;
    Ok(members)
}
