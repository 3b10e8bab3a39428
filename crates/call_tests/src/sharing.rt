//! The ranges of units that a user may view.

use dh_sharing::ranges::ViewRanges;
use std::alloc::Global;

fn are_joined(alloc: Global) -> Option<bool> {
    let ranges = ViewRanges::of(alloc, &[(9, 12), (2, 4), (4, 6), (20, 20)]).ok()?;
    Some(ranges.parts() == [(2, 6), (9, 12)].as_slice())
}

#[test]
fn ranges_that_touch_are_joined(rt: HostRuntime) {
    assert!(rt; are_joined(rt.alloc()) == Some(true));
}
