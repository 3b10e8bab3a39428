//! The engine: the machine as a value, over a keeper that stores the log.
ghost use Rattle.std.specs.Prelude.{◌≡◌, ◌≤◌, true, IsTrue, List, length, take, None, option_map, IfOk};
ghost use Rattle.std.specs.Arc.{arc_value};
ghost use Rattle.dh_changes.specs.declared.change.Change.{Change};
ghost use Rattle.change_log.specs.Log.{AreLimits, NeverFails};
ghost use Rattle.value_import.specs.Outcomes.{IsKnown};
ghost use Rattle.engine.specs.Machine.{start, Step, is_begun, has_ticket, number_in};
ghost use Rattle.engine.specs.Machine.Act.{changed, begun, swapped, dropped, looked};
ghost use Rattle.table_rows.specs.Store.{contents_in};
ghost use Rattle.engine.specs.MetaAfter.{meta_after, IsAfter, published_meta};
ghost use Rattle.engine.specs.Stands.{Stands};
ghost use Rattle.engine.specs.Tables.{no_tables, tables_of};
ghost use Rattle.engine.specs.Seen.{IsSound, Brought, BeginsPart, IsCutOf, IsPartOf, Lays, part_after, part_without, update_in, published_in};

use crate::ChangeRequest;
use crate::bring::bring;
use crate::machine::{ChangeFault, Cut, CutFault, LookFault, Report, Staged, Standing, View};
use crate::served::serve_none;
use crate::swaps::swap;
use crate::updates::{Shown, cut, drop_staged, hand_in, look, staged_of};
use change_log::{ChangeLog, Limits};
use dh_base::memory::Memory;
use dh_base::plain::CutKind;
use dh_changes::outcome::Who;
use dh_metadata::metadata::Metadata;
use dh_outside::Keeper;
use dh_records::access;
use std::alloc::Global;
use std::marker::Model;
use std::sync::Arc;
use table_sums::Partition;

fn ticket_of(staged: Option<Staged>) -> Option<u64>
    ensures { result ≡ option_map (λ update. update.ticket) staged }
{
    match staged {
        Some(update) => Some(update.ticket),
        None => None,
    }
}

fn meta_after(meta: &Metadata) -> &Metadata
    ensures value { (log : List Change) → result.now ≡ meta_after meta.now log }
    ensures after { (log : List Change) → IsAfter meta.now log result.now }
{
    access::meta_after(meta)
}

/// The log with its tables.
pub struct Engine<K: Keeper> {
    log: ChangeLog<K>,
    meta: Arc<Metadata>,
    shown: Shown,
}

// By hand, so that it is proved here alone and not in each crate above.
impl<K: Keeper + Drop> Drop for Engine<K> {
    fn drop(self) {
        let Engine {
            log: _,
            meta: _,
            shown: _,
        } = self;
    }
}

impl<K: Keeper> Model for Engine<K> {
    ghost use Rattle.std.specs.Arc.{arc_value};
    ghost use Rattle.std.specs.Coded.{codes};
    ghost use Rattle.expr_lang.specs.contracts.expr.Expr as expression;
    ghost use Rattle.engine.specs.Seen.{Seen, seen_of, AreParts};

    ghost Value = { Seen };

    // The metadata have expressions.
    ghost coded = { Prim.hlevel (codes, expression.the_row.coded) };

    ghost view = { λ engine. seen_of engine.log (arc_value engine.meta) engine.shown };

    ghost invariant = { λ engine. AreParts engine.log (arc_value engine.meta) engine.shown };
}

impl<K: Keeper> Engine<K> {
    /// An engine in the start state, over a keeper that is empty.
    pub fn new(
        alloc: Global,
        meta: Arc<Metadata>,
        keeper: K,
        limits: Limits,
    ) -> Result<Engine<K>, Memory>
        requires empty { K.acknowledged keeper ≡ 0 }
        requires limits { AreLimits limits }
        ensures { IfOk result (λ engine. engine ≡ record {
          state = start;
          tables = no_tables;
          part = None;
          limits = limits;
          meta = arc_value meta;
          acknowledged = 0;
          kept = K.kept keeper;
          faults = K.keeper_faults keeper;
        }) }
    {
        let tables = serve_none(alloc, &meta)?;
        let log = ChangeLog::new(alloc, keeper, limits);
        let shown = Shown {
            tables,
            published: 0,
            base_cut: 0,
            ticket: 0,
            full: None,
            latest: None,
            slots: None,
        };
        Ok(Engine { log, meta, shown })
    }

    /// Changes the log as the request says. The reply's body is made before the keeper is called,
    /// and after the keeper's word that the bytes are kept nothing fails.
    pub fn change(
        &mut self,
        alloc: Global,
        who: Who,
        moment: i64,
        request: &ChangeRequest,
    ) -> Result<Report, ChangeFault>
        requires { IsKnown self.old.meta who }
        ensures step { Step self.old.meta self.old.limits self.old.state (changed (record { who = who; moment = moment; request = request.now }) result)
            self.new.state }
        ensures brought { Brought self.old result self.new }
        ensures sure { NeverFails K.keeper_faults → self.old.faults ≡ 0 → self.new.faults ≡ 0 }
        ensures sound { IsSound self.new }
    {
        bring(alloc, &mut self.log, &self.meta, who, moment, request)
    }

    /// Begins an update of the tables.
    pub fn cut(&mut self, alloc: Global, kind: CutKind) -> Result<Cut, CutFault>
        ensures step { Step self.old.meta self.old.limits self.old.state (begun kind (update_in result)) self.new.state }
        ensures same { self.new ≡ record self.old { state = self.new.state; tables = self.new.tables; part = self.new.part } }
        ensures tables { self.new.tables ≡ self.old.tables }
        ensures part { BeginsPart self.old.state kind (update_in result) self.old.part self.new.part }
        ensures given { IfOk result (IsCutOf self.old.meta self.old.state kind) }
        ensures sound { IsSound self.new }
    {
        let limits = self.log.limits();
        cut(
            alloc,
            &mut self.shown,
            &limits,
            &self.meta,
            self.log.world(),
            self.log.changes(),
            kind,
        )
    }

    /// Takes in the part of one year of the full update with this ticket. It takes no memory, and nothing of it is seen
    /// before the update is published; a part of a year of which the update has none is dropped.
    pub fn hand_in(&mut self, ticket: u64, part: Partition)
        requires begun { has_ticket ticket self.old.state.full ≡ true }
        requires part { IsPartOf self.old.meta (take (number_in self.old.state.full) self.old.state.log) part }
        ensures same { self.new ≡ self.old }
        ensures sound { IsSound self.new }
    {
        let _ticket = ticket;
        hand_in(&mut self.shown, part);
    }

    /// Publishes the update with this ticket, and answers how many changes the tables then stand for:
    /// those of the update, or those that are published already if these are more. It builds the parts
    /// that weren't handed in. Out of memory the update is still begun, without the parts.
    pub fn swap(&mut self, alloc: Global, ticket: u64) -> Result<u64, Memory>
        requires { IsTrue (is_begun self.old.state ticket) }
        ensures step { Step self.old.meta self.old.limits self.old.state (swapped ticket result) self.new.state }
        ensures same { self.new ≡ record self.old { state = self.new.state; tables = self.new.tables; part = self.new.part } }
        ensures laid { Lays self.old.state ticket result self.old.part self.old.tables self.new.tables }
        ensures part { self.new.part ≡ part_after self.old.state ticket result self.old.part }
        ensures rises { IfOk result (λ number. self.old.state.published ≤ number) }
        ensures sound { IsSound self.new }
    {
        swap(
            alloc,
            &mut self.shown,
            &self.meta,
            self.log.changes(),
            ticket,
        )
    }

    /// Takes away the update with this ticket. It takes no memory, and the tables stay.
    pub fn drop_update(&mut self, ticket: u64)
        requires { IsTrue (is_begun self.old.state ticket) }
        ensures step { Step self.old.meta self.old.limits self.old.state (dropped ticket) self.new.state }
        ensures same { self.new ≡ record self.old { state = self.new.state; tables = self.new.tables; part = self.new.part } }
        ensures tables { self.new.tables ≡ self.old.tables }
        ensures part { self.new.part ≡ part_without self.old.state ticket self.old.part }
        ensures sound { IsSound self.new }
    {
        drop_staged(&mut self.shown, ticket);
    }

    /// The tables, if so many changes are published.
    pub fn look(&self, asked: u64) -> Result<View, LookFault>
        ensures step { Step self.now.meta self.now.limits self.now.state (looked asked (published_in result)) self.now.state }
        ensures tables { IfOk result (λ view. contents_in (arc_value view.tables).all ≡ tables_of self.now.meta (take view.published self.now.state.log)) }
        ensures served { IfOk result (λ view. arc_value view.tables ≡ self.now.tables) }
        ensures stands { Stands self.now.meta self.now.state.log self.now.state.base_cut self.now.state.published self.now.tables }
        ensures published { IfOk result (λ view. view.published ≡ self.now.state.published) }
    {
        look(&self.shown, asked)
    }

    /// How the machine stands.
    pub fn standing(&self) -> Standing
        ensures changes { result.changes ≡ length self.now.state.log }
        ensures published { result.published ≡ self.now.state.published }
        ensures full { result.full ≡ option_map (λ update. update.ticket) self.now.state.full }
        ensures latest { result.latest ≡ option_map (λ update. update.ticket) self.now.state.latest }
    {
        Standing {
            changes: self.log.count(),
            published: self.shown.published,
            full: ticket_of(self.shown.full),
            latest: ticket_of(staged_of(&self.shown, CutKind::Latest)),
        }
    }

    /// The metadata, with rights and the tree as the published changes leave them.
    pub fn published_meta(&self) -> &Metadata
        ensures value { result.now ≡ published_meta self.now }
        ensures after { IsAfter self.now.meta (take self.now.state.published self.now.state.log) result.now }
    {
        meta_after(&self.meta)
    }

    /// The metadata, with rights and the tree as all changes leave them.
    pub fn latest_meta(&self) -> &Metadata
        ensures value { result.now ≡ meta_after self.now.meta self.now.state.log }
        ensures after { IsAfter self.now.meta self.now.state.log result.now }
    {
        meta_after(&self.meta)
    }

    /// The metadata.
    pub fn meta(&self) -> &Metadata
        ensures { result.now ≡ self.now.meta }
    {
        &self.meta
    }
}
