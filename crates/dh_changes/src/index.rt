ghost use Rattle.std.specs.Prelude.{◌≡◌, ℕ, List, [], true, Some, None, OnOk};
ghost use Rattle.std.specs.Option.{is_some, option_copied};
ghost use Rattle.std.specs.HashMap.{get};
ghost use Rattle.dh_changes.specs.Said.{same_id};
ghost use Rattle.dh_changes.specs.Maps.{held, Grows, is_noted};
ghost use Rattle.dh_changes.specs.Holds.{contents, HoldSame};
ghost use Rattle.dh_changes.specs.Hanging.{event_parent, enrollment_parent};
ghost use Rattle.dh_changes.specs.Index.{is_linked, IsLinked, IsReady, Keeps, Puts};

use crate::children::note;
use crate::held::{enter, look, put};
use crate::keys::{ApprovalKey, RegKey, ValueKey};
use crate::said::{ApprovalState, Said};
use crate::text::Text;
use crate::tracker::{Enrollment, Entity, Event};
use dh_base::items::Items;
use dh_base::memory::Memory;
use dh_base::uid::Uid;
use std::alloc::Global;
use std::collections::HashMap;

/// What each key holds. A key that is entered may hold nothing.
#[derive(Drop)]
pub struct Index {
    pub values: HashMap<ValueKey, Option<Text>>,
    pub events: HashMap<Uid, Option<Event>>,
    pub enrollments: HashMap<Uid, Option<Enrollment>>,
    pub entities: HashMap<Uid, Option<Entity>>,
    pub approvals: HashMap<ApprovalKey, ApprovalState>,
    pub registrations: HashMap<RegKey, Option<i32>>,
    /// At least the events that hang on an enrollment; some may be gone or stand twice.
    pub events_of: HashMap<Uid, Items<Uid>>,
    /// At least the enrollments that hang on an entity; some may be gone or stand twice.
    pub enrollments_of: HashMap<Uid, Items<Uid>>,
}

/// An object that may hang on another.
pub trait Hangs: Sized {
    ghost use Rattle.std.specs.Prelude.{ℕ, List, Option};

    /// The identifier of the other, of an object that is there and hangs on one.
    ghost parent: { Option Self → Option (List ℕ) };

    /// The other.
    fn parent_of(object: Option<&Self>) -> Option<Uid>
        ensures { result ≡ parent (option_copied object.entry) };
}

impl Hangs for Event {
    ghost parent = { event_parent };

    fn parent_of(event: Option<&Event>) -> Option<Uid> {
        match event {
            Some(event) => event.enrollment,
            None => None,
        }
    }
}

impl Hangs for Enrollment {
    ghost parent = { enrollment_parent };

    fn parent_of(enrollment: Option<&Enrollment>) -> Option<Uid> {
        match enrollment {
            Some(enrollment) => Some(enrollment.entity),
            None => None,
        }
    }
}

// Notes a child under its parent, unless it is noted there as what it was before.
fn link(
    alloc: Global,
    children: &mut HashMap<Uid, Items<Uid>>,
    before: Option<Uid>,
    parent: Option<Uid>,
    child: Uid,
) -> Result<(), Memory>
    requires { is_linked children.old before child ≡ true }
    ensures linked { OnOk result (is_linked children.new parent child ≡ true) }
    ensures stays { (p c : List ℕ) → is_noted children.old p c ≡ true → is_noted children.new p c ≡ true }
{
    match parent {
        None => Ok(()),
        Some(parent) => match before {
            Some(other) if other == parent => Ok(()),
            _ => note(alloc, children, &parent, child),
        },
    }
}

// Enters an object, and notes it under its parent.
fn enter_child<V: Hangs + Drop>(
    alloc: Global,
    children: &mut HashMap<Uid, Items<Uid>>,
    objects: &mut HashMap<Uid, Option<V>>,
    id: Uid,
    object: Option<&V>,
) -> Result<(), Memory>
    requires { is_linked children.old (V.parent (held same_id None objects.old id)) id ≡ true }
    ensures grows { Grows same_id None objects.old objects.new }
    ensures there { OnOk result (is_some (get same_id objects.new id) ≡ true) }
    ensures linked { OnOk result (is_linked children.new (V.parent (option_copied object.entry)) id ≡ true) }
    ensures stays { (p c : List ℕ) → is_noted children.old p c ≡ true → is_noted children.new p c ≡ true }
{
    let before = V::parent_of(look(objects, &id));
    link(alloc, children, before, V::parent_of(object), id)?;
    enter(objects, &id, None)
}

/// Enters the key of what will be said, and notes a child under its parent.
pub fn make_ready(alloc: Global, index: &mut Index, said: &Said) -> Result<(), Memory>
    requires { IsLinked index.old }
    ensures same { HoldSame (contents index.new) [] (contents index.old) [] }
    ensures keeps { Keeps index.old index.new }
    ensures ready { OnOk result (IsReady index.new said.now) }
{
    match said {
        Said::Value { key, .. } => enter(&mut index.values, key, None),
        Said::Event { id, event } => enter_child(
            alloc,
            &mut index.events_of,
            &mut index.events,
            *id,
            event.as_ref(),
        ),
        Said::Enrollment { id, enrollment } => enter_child(
            alloc,
            &mut index.enrollments_of,
            &mut index.enrollments,
            *id,
            enrollment.as_ref(),
        ),
        Said::Entity { id, .. } => enter(&mut index.entities, id, None),
        Said::Approval { key, .. } => enter(&mut index.approvals, key, ApprovalState::None),
        Said::Registration { key, .. } => enter(&mut index.registrations, key, None),
    }
}

/// Has the key hold what is said of it. It takes no memory.
pub fn take_in(index: &mut Index, said: Said)
    requires { IsReady index.old said }
    ensures { Puts index.old said index.new }
{
    match said {
        Said::Value { key, value } => put(&mut index.values, key, value),
        Said::Event { id, event } => put(&mut index.events, id, event),
        Said::Enrollment { id, enrollment } => put(&mut index.enrollments, id, enrollment),
        Said::Entity { id, entity } => put(&mut index.entities, id, entity),
        Said::Approval { key, state } => put(&mut index.approvals, key, state),
        Said::Registration { key, day } => put(&mut index.registrations, key, day),
    }
}
