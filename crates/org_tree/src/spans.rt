ghost use Rattle.std.specs.Prelude.{◌≡◌, ◌==◌, if◌then◌else◌, ◌+◌, ◌^◌, ◌<◌, ◌≤◌, length, slice_index, Some, IfOk};
ghost use Rattle.org_tree.specs.Families.{InFamilies, Spans, AreSpans};
ghost use Rattle.org_tree.specs.Units.{IsTree, parent_of};

use crate::rows::parent;
use dh_base::uid::Uid;
use std::alloc::{AllocError, Global};

/// Where each unit's children stand in the list by families: the first place, and the one after the last.
pub fn spans(
    alloc: Global,
    units: &[(Uid, Option<u32>)],
    kin: &[u32],
) -> Result<Vec<(u32, u32)>, AllocError>
    requires tree { IsTree units.now }
    requires kin { InFamilies units.now kin.now }
    ensures { IfOk result (λ spans. AreSpans units.now kin.now (length units.now) spans.items) }
{
    let mut spans = vec![in alloc; (0u32, 0u32); units.len()]?;
    for i in 0..kin.len() as u32 {
        take_in(&mut spans, units, kin, i);
    }
    Ok(spans)
}

/// Takes the next place of the list into the span of the parent of the unit there.
fn take_in(spans: &mut [(u32, u32)], units: &[(Uid, Option<u32>)], kin: &[u32], place: u32)
    requires tree { IsTree units.now }
    requires kin { InFamilies units.now kin.now }
    requires in_range { place < length units.now }
    requires spans { AreSpans units.now kin.now place spans.old }
    ensures { AreSpans units.now kin.now (place + 1) spans.new }
{
    match parent(units, kin[place as usize]) {
        None => {}
        Some(above) => {
            let span = spans[above as usize];
            spans[above as usize] = widened(span, place);
        }
    }
}

/// The span with one place more; an empty one begins there.
fn widened(span: (u32, u32), place: u32) -> (u32, u32)
    requires { place + 1 < 2 ^ 32 }
    ensures end { result.1 ≡ place + 1 }
    ensures first { result.0 ≡ (if span.0 == span.1 then place else span.0) }
{
    if span.0 == span.1 {
        (place, place + 1)
    } else {
        (span.0, place + 1)
    }
}
