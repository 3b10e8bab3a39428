//! Identifiers by place.

use dh_base::uid::Uid;
use dh_metadata::ids::index::UidIndex;
use std::alloc::Global;

fn place(alloc: Global) -> Option<u32> {
    let id = Uid::parse(b"OuFacilityA")?;
    let ids = vec![in alloc; Uid::parse(b"OuCountry01")?, id].ok()?;
    if ids.len() > 2 {
        return None;
    }
    UidIndex::of(alloc, ids).ok()?.find(id)
}

#[test]
fn an_identifier_has_its_place(rt: HostRuntime) {
    assert!(rt; place(rt.alloc()) == Some(1));
}
