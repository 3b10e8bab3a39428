//! What a world holds after a change: what its last writes say, and lists by identifier.
use dh_base::items::Items;
use dh_base::uid::Uid;
use dh_changes::change::{Change, Write};
use dh_changes::keys::ValueKey;
use dh_changes::text::Text;
use dh_changes::tracker::Event;
use dh_changes::world::World;
use dh_periods::Period;
use std::alloc::Global;
use std::process::Abort;

fn uid(rt: &impl Abort, text: &[u8]) -> Uid {
    Uid::parse(text).expect(rt, "an identifier")
}

fn key(rt: &impl Abort) -> ValueKey {
    let unit = uid(rt, b"GenFacil000");
    ValueKey {
        element: unit,
        period: Period::parse(b"202401").expect(rt, "a month"),
        unit,
        combo: unit,
        attribute: unit,
    }
}

fn set(rt: &impl Abort, alloc: Global, text: &[u8]) -> Write {
    Write::ValueSet {
        key: key(rt),
        value: Text::of(alloc, text).expect(rt, "memory"),
    }
}

fn event(rt: &impl Abort, alloc: Global, id: &[u8]) -> Write {
    let enrollment = uid(rt, b"EnrollmentA");
    let event = Event {
        id: uid(rt, id),
        enrollment: Some(enrollment),
        program: enrollment,
        stage: enrollment,
        unit: enrollment,
        status: 0,
        occurred: Some(19_800),
        scheduled: None,
        values: Items::new(alloc),
    };
    Write::event(alloc, event).expect(rt, "memory")
}

fn change(rt: &impl Abort, alloc: Global) -> Change {
    let mut writes = Items::new(alloc);
    writes.push(set(rt, alloc, b"5")).expect(rt, "memory");
    writes.push(set(rt, alloc, b"6")).expect(rt, "memory");
    writes
        .push(event(rt, alloc, b"EventXXXXXB"))
        .expect(rt, "memory");
    writes
        .push(event(rt, alloc, b"EventXXXXXA"))
        .expect(rt, "memory");
    Change {
        user: None,
        moment: 0,
        writes,
    }
}

fn world(rt: &impl Abort, alloc: Global) -> World {
    let change = change(rt, alloc);
    let mut world = World::new(alloc);
    world
        .reserve(alloc, change.writes.as_slice())
        .expect(rt, "memory");
    world.apply(&change);
    world
}

#[test]
fn a_world_holds_what_was_written_last(rt: HostRuntime) {
    let world = world(&rt, rt.alloc());
    assert!(rt; world.value(&key(&rt)) == Some(b"6".as_slice()));
    let events = world
        .events_of(rt.alloc(), uid(&rt, b"EnrollmentA"))
        .expect(&rt, "memory");
    assert!(rt; events.len() == 2);
    assert!(rt; events.as_slice()[0] == uid(&rt, b"EventXXXXXA"));
}
