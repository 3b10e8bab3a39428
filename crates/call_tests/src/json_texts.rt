//! JSON data over its text, and the path of a fault in it.

use dh_base::items::Items;
use json::Scratch;
use json_read::fault::FormFault;
use json_read::form::listed;
use json_read::look::{member, text};
use json_read::read::read;
use json_read::reference::Reference;
use std::alloc::Global;

fn is_last(alloc: Global) -> Option<bool> {
    let mut scratch = Scratch::new(alloc);
    let data = read(alloc, br#"{"a":1,"a":"\u00e4"}"#, &mut scratch).ok()??;
    Some(member(&data, "a").and_then(text) == Some("\u{e4}"))
}

#[test]
fn the_last_of_equal_members_is_found(rt: HostRuntime) {
    assert!(rt; is_last(rt.alloc()) == Some(true));
}

fn is_fault_at(read: &Result<Items<Reference>, FormFault>, path: &[u8]) -> bool {
    matches!(read, Err(FormFault::At(found)) if found.as_slice() == path)
}

fn fault_has_path(alloc: Global) -> Option<bool> {
    let mut scratch = Scratch::new(alloc);
    let data = read(alloc, br#"{"a":[{"id":"1"}]}"#, &mut scratch).ok()??;
    Some(is_fault_at(&listed(alloc, &data, "a"), b"a.0.id"))
}

#[test]
fn a_fault_has_the_path_to_its_place(rt: HostRuntime) {
    assert!(rt; fault_has_path(rt.alloc()) == Some(true));
}
