//! The log over its keeper.
ghost use Rattle.std.specs.Prelude.{◌≡◌, ◌<◌, [], map, length};
ghost use Rattle.std.specs.Arc.{arc_value};
ghost use Rattle.std.specs.List.{All};
ghost use Rattle.change_log.specs.Forms.{WriteFits};
ghost use Rattle.dh_changes.specs.World.{facts};
ghost use Rattle.dh_changes.specs.Facts.{facts_in};
ghost use Rattle.change_log.specs.Log.{writes_of, IsWhole, AreLimits, Appends, NeverFails};

use crate::held::{Held, bring, count_of, nothing_held};
use crate::limits::{AppendFault, Limits};
use dh_base::items::Items;
use dh_base::uid::Uid;
use dh_changes::change::{Change, Write};
use dh_changes::world::World;
use dh_outside::Keeper;
use std::alloc::Global;
use std::marker::Model;
use std::sync::Arc;

/// A log whose changes are kept, with the index of what it says.
pub struct ChangeLog<K: Keeper> {
    held: Held,
    keeper: K,
    limits: Limits,
}

// By hand, so that it is proved here alone and not in each crate above.
impl<K: Keeper + Drop> Drop for ChangeLog<K> {
    fn drop(self) {
        let ChangeLog {
            held: _,
            keeper: _,
            limits: _,
        } = self;
    }
}

impl<K: Keeper> Model for ChangeLog<K> {
    ghost use Rattle.change_log.specs.Log.{LogSeen};
    ghost use Rattle.change_log.specs.Held.{seen, IsKept};

    ghost Value = { LogSeen };

    ghost view = { λ log. seen log.held (K.acknowledged log.keeper) (K.kept log.keeper) (K.keeper_faults log.keeper) log.limits };

    ghost invariant = { λ log. IsKept log.held (seen log.held (K.acknowledged log.keeper) (K.kept log.keeper) (K.keeper_faults log.keeper) log.limits) };
}

impl<K: Keeper> ChangeLog<K> {
    /// An empty log, over a keeper that is empty. It takes no memory.
    pub fn new(alloc: Global, keeper: K, limits: Limits) -> ChangeLog<K>
        requires empty { K.acknowledged keeper ≡ 0 }
        requires limits { AreLimits limits }
        ensures log { result ≡ record { changes = []; acknowledged = 0; kept = K.kept keeper; faults = K.keeper_faults keeper; limits = limits } }
        ensures whole { IsWhole result }
    {
        ChangeLog {
            held: nothing_held(alloc),
            keeper,
            limits,
        }
    }

    /// Brings a change of these writes, and answers its number. All memory is taken before the
    /// keeper is called, so after the keeper's word that the bytes are kept nothing fails.
    pub fn append(
        &mut self,
        alloc: Global,
        user: Option<Uid>,
        moment: i64,
        writes: Items<Write>,
    ) -> Result<u64, AppendFault>
        requires some { 0 < length writes }
        requires fits { All WriteFits writes }
        ensures appends { Appends self.old (record { user = user; moment = moment; writes = writes }) result self.new }
        ensures sure { NeverFails K.keeper_faults → self.old.faults ≡ 0 → self.new.faults ≡ 0 }
        ensures whole { IsWhole self.new }
    {
        let change = Change {
            user,
            moment,
            writes,
        };
        bring(
            alloc,
            &mut self.held,
            &mut self.keeper,
            &self.limits,
            change,
        )
    }

    /// What the changes say of each key.
    pub fn world(&self) -> &World
        ensures { facts result.now ≡ facts_in (writes_of self.now.changes) }
    {
        &self.held.world
    }

    /// The changes, the first of them with the number 1.
    pub fn changes(&self) -> &[Arc<Change>]
        ensures { map arc_value result.now ≡ self.now.changes }
    {
        self.held.changes.as_slice()
    }

    /// How many changes there are.
    pub fn count(&self) -> u64
        ensures { result ≡ length self.now.changes }
    {
        count_of(&self.held)
    }

    /// The limits.
    pub fn limits(&self) -> Limits
        ensures { result ≡ self.now.limits }
    {
        self.limits
    }
}
