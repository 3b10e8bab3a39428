ghost use Rattle.std.specs.Prelude.{◌≡◌, ◌++◌, [], List, map, reverse, OnOk, OnErr, IfOk};
ghost use Rattle.std.specs.Option.{option_copied};
ghost use Rattle.dh_changes.specs.declared.change.Write.{Write};
ghost use Rattle.dh_changes.specs.Said as says;
ghost use Rattle.dh_changes.specs.Holds.{contents, empty, HoldSame, IsAfter};
ghost use Rattle.dh_changes.specs.Index.{IsLinked, AllReady};
ghost use Rattle.dh_changes.specs.Facts as known;
ghost use Rattle.dh_changes.specs.World.{facts};

use crate::change::{Change, Write};
use crate::hanging::live;
use crate::held::look;
use crate::index::{Index, make_ready, take_in};
use crate::keys::{ApprovalKey, RegKey, ValueKey};
use crate::said::{ApprovalState, Said, said_by};
use crate::tracker::{Enrollment, Entity, Event};
use dh_base::items::Items;
use dh_base::memory::Memory;
use dh_base::uid::Uid;
use std::alloc::Global;
use std::collections::HashMap;
use std::marker::Model;

/// What the log holds under each key after its writes so far.
pub struct World {
    index: Index,
    // What a change will say, the last first.
    waiting: Vec<Said>,
}

// By hand, so that it is proved here alone and not in each crate above.
impl Drop for World {
    fn drop(self) {
        let World {
            index: _,
            waiting: _,
        } = self;
    }
}

impl Model for World {
    ghost use Rattle.std.specs.Prelude.{reverse};
    ghost use Rattle.dh_changes.specs.World.{Shown};
    ghost use Rattle.dh_changes.specs.Holds.{contents};
    ghost use Rattle.dh_changes.specs.Index.{IsLinked, AllReady};

    ghost Value = { Shown };

    ghost view = { λ world. record { held = contents world.index; reserved = reverse world.waiting.items } };

    ghost invariant = { λ world. IsLinked world.index × AllReady world.index (reverse world.waiting.items) };
}

fn empty_index(alloc: Global) -> Index
    ensures nothing { HoldSame (contents result) [] empty [] }
    ensures linked { IsLinked result }
{
    Index {
        values: HashMap::new(alloc),
        events: HashMap::new(alloc),
        enrollments: HashMap::new(alloc),
        entities: HashMap::new(alloc),
        approvals: HashMap::new(alloc),
        registrations: HashMap::new(alloc),
        events_of: HashMap::new(alloc),
        enrollments_of: HashMap::new(alloc),
    }
}

// Puts what each of the writes says into an empty list.
fn say_all(alloc: Global, waiting: &mut Vec<Said>, writes: &[Write]) -> Result<(), Memory>
    requires { waiting.old.items ≡ [] }
    ensures { OnOk result (waiting.new.items ≡ map says.said_by writes.now) }
{
    for write in writes {
        waiting.push(said_by(alloc, write)?)?;
    }
    Ok(())
}

// Makes room for all that waits.
fn make_all_ready(alloc: Global, index: &mut Index, waiting: &[Said]) -> Result<(), Memory>
    requires { IsLinked index.old }
    ensures same { HoldSame (contents index.new) [] (contents index.old) [] }
    ensures linked { IsLinked index.new }
    ensures ready { OnOk result (AllReady index.new waiting.now) }
{
    for said in waiting {
        make_ready(alloc, index, said)?;
    }
    Ok(())
}

fn prepare_all(
    alloc: Global,
    index: &mut Index,
    waiting: &mut Vec<Said>,
    writes: &[Write],
) -> Result<(), Memory>
    requires linked { IsLinked index.old }
    requires empty { waiting.old.items ≡ [] }
    ensures same { HoldSame (contents index.new) [] (contents index.old) [] }
    ensures linked { IsLinked index.new }
    ensures ready { OnOk result (AllReady index.new waiting.new.items) }
    ensures ok { OnOk result (waiting.new.items ≡ map says.said_by writes.now) }
{
    say_all(alloc, waiting, writes)?;
    make_all_ready(alloc, index, waiting)
}

fn reserve_in(
    alloc: Global,
    index: &mut Index,
    waiting: &mut Vec<Said>,
    writes: &[Write],
) -> Result<(), Memory>
    requires linked { IsLinked index.old }
    ensures same { HoldSame (contents index.new) [] (contents index.old) [] }
    ensures linked { IsLinked index.new }
    ensures ready { AllReady index.new (reverse waiting.new.items) }
    ensures ok { OnOk result (reverse waiting.new.items ≡ map says.said_by writes.now) }
    ensures err { OnErr result (waiting.new.items ≡ []) }
{
    waiting.clear();
    match prepare_all(alloc, index, waiting, writes) {
        Ok(()) => {
            waiting.reverse();
            Ok(())
        }
        Err(fault) => {
            waiting.clear();
            Err(fault)
        }
    }
}

// Takes in what waits, which needs no memory.
fn take_in_all(index: &mut Index, waiting: &mut Vec<Said>)
    requires linked { IsLinked index.old }
    requires ready { AllReady index.old (reverse waiting.old.items) }
    ensures after { IsAfter (contents index.old) (reverse waiting.old.items) (contents index.new) }
    ensures linked { IsLinked index.new }
    ensures none { waiting.new.items ≡ [] }
{
    while let Some(said) = waiting.pop() {
        take_in(index, said);
    }
}

impl World {
    /// A world that holds nothing. It takes no memory.
    #[tactic(auto, unfolding(crate::specs::World::facts))]
    pub fn new(alloc: Global) -> World
        ensures nothing { facts result ≡ known.facts_in [] }
        ensures reserved { result.reserved ≡ [] }
    {
        World {
            index: empty_index(alloc),
            waiting: Vec::new(alloc),
        }
    }

    /// Makes room for these writes and copies what they say, in place of those before. What each
    /// key holds stays as it was, also if memory runs out.
    #[tactic(auto, unfolding(crate::specs::World::facts))]
    pub fn reserve(&mut self, alloc: Global, writes: &[Write]) -> Result<(), Memory>
        ensures same { facts self.new ≡ facts self.old }
        ensures ok { OnOk result (self.new.reserved ≡ map says.said_by writes.now) }
        ensures err { OnErr result (self.new.reserved ≡ []) }
    {
        reserve_in(alloc, &mut self.index, &mut self.waiting, writes)
    }

    /// Has each key hold what the change's last write of it says. It takes no memory.
    #[tactic(auto, unfolding(crate::specs::World::facts))]
    pub fn apply(&mut self, change: &Change)
        requires { self.old.reserved ≡ map says.said_by change.now.writes }
        ensures after { IsAfter self.old.held (map says.said_by change.now.writes) self.new.held }
        ensures log { (log : List Write) → facts self.old ≡ known.facts_in log → facts self.new ≡ known.facts_in (log ++ change.now.writes) }
        ensures reserved { self.new.reserved ≡ [] }
    {
        let _change = change;
        take_in_all(&mut self.index, &mut self.waiting);
    }

    /// The text of a data value.
    #[tactic(auto, unfolding(crate::specs::World::facts))]
    pub fn value(&self, key: &ValueKey) -> Option<&[u8]>
        ensures { option_copied result ≡ (facts self.now).value key.now }
    {
        match look(&self.index.values, key) {
            Some(text) => Some(text.as_slice()),
            None => None,
        }
    }

    /// The event of this identifier.
    #[tactic(auto, unfolding(crate::specs::World::facts))]
    pub fn event(&self, id: Uid) -> Option<&Event>
        ensures { option_copied result ≡ (facts self.now).event id }
    {
        look(&self.index.events, &id)
    }

    /// The enrollment of this identifier.
    #[tactic(auto, unfolding(crate::specs::World::facts))]
    pub fn enrollment(&self, id: Uid) -> Option<&Enrollment>
        ensures { option_copied result ≡ (facts self.now).enrollment id }
    {
        look(&self.index.enrollments, &id)
    }

    /// The tracked entity of this identifier.
    #[tactic(auto, unfolding(crate::specs::World::facts))]
    pub fn entity(&self, id: Uid) -> Option<&Entity>
        ensures { option_copied result ≡ (facts self.now).entity id }
    {
        look(&self.index.entities, &id)
    }

    /// How far the approval under this key has come.
    #[tactic(auto, unfolding(crate::specs::World::facts))]
    pub fn approval(&self, key: &ApprovalKey) -> ApprovalState
        ensures { result ≡ (facts self.now).approval key.now }
    {
        match self.index.approvals.get(key) {
            Some(state) => *state,
            None => ApprovalState::None,
        }
    }

    /// The day of a complete data set registration, counted from 1 January 1970.
    #[tactic(auto, unfolding(crate::specs::World::facts))]
    pub fn registration(&self, key: &RegKey) -> Option<i32>
        ensures { result ≡ (facts self.now).registration key.now }
    {
        look(&self.index.registrations, key).copied()
    }

    /// The enrollments that hang on an entity, ascending by identifier. It looks at the enrollments
    /// that were ever written for the entity, and at no others.
    #[tactic(auto, unfolding(crate::specs::World::facts))]
    pub fn enrollments_of(&self, alloc: Global, entity: Uid) -> Result<Items<Uid>, Memory>
        ensures { IfOk result (λ ids. ids ≡ (facts self.now).enrollments_of entity) }
    {
        live(
            alloc,
            &self.index.enrollments_of,
            &self.index.enrollments,
            entity,
        )
    }

    /// The events that hang on an enrollment, ascending by identifier. It looks at the events that
    /// were ever written for the enrollment, and at no others.
    #[tactic(auto, unfolding(crate::specs::World::facts))]
    pub fn events_of(&self, alloc: Global, enrollment: Uid) -> Result<Items<Uid>, Memory>
        ensures { IfOk result (λ ids. ids ≡ (facts self.now).events_of enrollment) }
    {
        live(alloc, &self.index.events_of, &self.index.events, enrollment)
    }
}
