//! The tree of organisation units.

use dh_base::uid::Uid;
use org_tree::own_ids::own_ids;
use org_tree::tree::Tree;
use std::alloc::Global;

// A country with two districts.
fn built(alloc: Global) -> Option<Tree> {
    let units = [
        (Uid::parse(b"OuDistrictB")?, Some(1)),
        (Uid::parse(b"OuCountry01")?, None),
        (Uid::parse(b"OuDistrictA")?, Some(1)),
    ];
    if !own_ids(alloc, &units).ok()? {
        return None;
    }
    Tree::build(alloc, &units).ok()
}

fn walk(alloc: Global) -> Option<(u32, u32, u32)> {
    let tree = built(alloc)?;
    if tree.count() != 3 {
        return None;
    }
    Some((tree.unit_at(0), tree.unit_at(1), tree.unit_at(2)))
}

#[test]
fn units_stand_in_the_order_of_the_walk(rt: HostRuntime) {
    assert!(rt; walk(rt.alloc()) == Some((1, 2, 0)));
}
