//! The tables that are served, and the updates that are begun.
ghost use Rattle.std.specs.Prelude.{◌≡◌, ◌≤◌, ◌<◌, ◌^◌, ◌+◌, ◌-◌, List, length, map, take, drop, Some, IfOk, None, option_map};
ghost use Rattle.std.specs.Arc.{arc_value};
ghost use Rattle.std.specs.List.{All};
ghost use Rattle.dh_changes.specs.declared.change.Change.{Change};
ghost use Rattle.change_log.specs.Forms.{WriteFits};
ghost use Rattle.dh_metadata.specs.declared.held.Records.{Records};
ghost use Rattle.change_log.specs.Log.{writes_of};
ghost use Rattle.engine.specs.Machine.{by_kind, has_ticket, kind_by, number_in, after_drop};
ghost use Rattle.dh_changes.specs.Facts.{facts_in};
ghost use Rattle.dh_changes.specs.World.{facts};
ghost use Rattle.engine.specs.Tables.{tables_of};
ghost use Rattle.table_rows.specs.Store.{contents_in};
ghost use Rattle.engine.specs.Histories.{IsInOrder};
ghost use Rattle.engine.specs.Seen.{state_of, staged_latest, part_in, part_without, BeginsPart, update_in, published_in, IsCutOf, IsPartOf, FitSlots, Shows};
ghost use Rattle.engine.specs.Seen.{refused_by, Cuts, Looks};
ghost use Rattle.dh_base.specs.declared.plain.CutKind.TheVariants.{Full, Latest};
ghost use Rattle.dh_base.specs.declared.limits.TheConstants.{MOST_RECORDS, MOST_UPDATES};

use crate::machine::{Cut, CutFault, LookFault, Staged, View};
use crate::served::latest_part;
use crate::tables::Tables;
use change_log::Limits;
use dh_base::items::Items;
use dh_base::memory::Memory;
use dh_base::plain::CutKind;
use dh_changes::change::Change;
use dh_changes::world::World;
use dh_metadata::metadata::Metadata;
use std::alloc::Global;
use std::sync::Arc;
use table_build::slots::{Plan, Slot, plan_of, put_part};
use table_latest::Latest as LatestPart;
use table_sums::Partition;

/// A latest update that is begun, with its part.
#[derive(Drop)]
pub(crate) struct LatestUpdate {
    pub(crate) staged: Staged,
    pub(crate) part: Arc<LatestPart>,
}

#[derive(Drop)]
pub(crate) struct Shown {
    pub(crate) tables: Arc<Tables>,
    // How many changes the tables stand for.
    pub(crate) published: u64,
    // How many changes the yearly parts stand for.
    pub(crate) base_cut: u64,
    // The last ticket that was given.
    pub(crate) ticket: u64,
    pub(crate) full: Option<Staged>,
    pub(crate) latest: Option<LatestUpdate>,
    // The years of the full update, with the parts that were handed in.
    pub(crate) slots: Option<Vec<Slot>>,
}

fn copied(alloc: Global, changes: &[Arc<Change>]) -> Result<Vec<Arc<Change>>, Memory>
    ensures { IfOk result (λ copy. map arc_value copy.items ≡ map arc_value changes.now) }
{
    let mut copy = Vec::new(alloc);
    for change in changes {
        copy.push(Arc::try_clone(change)?)?;
    }
    Ok(copy)
}

// The update of a kind that is begun.
pub(crate) fn staged_of(shown: &Shown, kind: CutKind) -> Option<Staged>
    ensures { result ≡ by_kind kind shown.now.full (staged_latest shown.now.latest) }
{
    match kind {
        CutKind::Full => shown.full,
        CutKind::Latest => match &shown.latest {
            Some(update) => Some(update.staged),
            None => None,
        },
    }
}

// Why no update may be begun.
fn refusal(staged: Option<Staged>, ticket: u64, limit: u64) -> Option<CutFault>
    ensures { result ≡ refused_by staged ticket limit }
{
    match staged {
        Some(update) => Some(CutFault::Busy {
            ticket: update.ticket,
        }),
        None => {
            if ticket == limit {
                Some(CutFault::UpdatesSpent { limit })
            } else {
                None
            }
        }
    }
}

// Begins a full update with the next ticket.
fn stage_full(shown: &mut Shown, number: u64, slots: Vec<Slot>) -> u64
    requires { shown.old.ticket < 2 ^ 64 - 1 }
    ensures ticket { result ≡ shown.old.ticket + 1 }
    ensures new { shown.new ≡ record shown.old {
      ticket = shown.old.ticket + 1;
      full = Some (record { ticket = shown.old.ticket + 1; number = number });
      slots = Some slots;
    } }
{
    let ticket = shown.ticket + 1;
    shown.ticket = ticket;
    shown.full = Some(Staged { ticket, number });
    shown.slots = Some(slots);
    ticket
}

// Begins a latest update with the next ticket.
fn stage_latest(shown: &mut Shown, number: u64, part: Arc<LatestPart>) -> u64
    requires { shown.old.ticket < 2 ^ 64 - 1 }
    ensures ticket { result ≡ shown.old.ticket + 1 }
    ensures new { shown.new ≡ record shown.old {
      ticket = shown.old.ticket + 1;
      latest = Some (record { staged = record { ticket = shown.old.ticket + 1; number = number }; part = part });
    } }
{
    let ticket = shown.ticket + 1;
    shown.ticket = ticket;
    shown.latest = Some(LatestUpdate {
        staged: Staged { ticket, number },
        part,
    });
    ticket
}

fn begin_full(
    alloc: Global,
    shown: &mut Shown,
    limits: &Limits,
    meta: &Metadata,
    world: &World,
    changes: &[Arc<Change>],
) -> Result<Cut, CutFault>
    requires order { IsInOrder limits.now (state_of (map arc_value changes.now) shown.old) }
    requires limits { limits.now.updates ≤ MOST_UPDATES }
    requires free { refused_by shown.old.full shown.old.ticket limits.now.updates ≡ None }
    requires world { facts world.now ≡ facts_in (writes_of (map arc_value changes.now)) }
    requires few { length (writes_of (map arc_value changes.now)) ≤ MOST_RECORDS }
    requires fits { All WriteFits (writes_of (map arc_value changes.now)) }
    requires shows { Shows meta.now (map arc_value changes.now) shown.old }
    ensures step { Cuts limits.now (state_of (map arc_value changes.now) shown.old) Full (update_in result) (state_of (map arc_value changes.now) shown.new) }
    ensures given { IfOk result (IsCutOf meta.now (state_of (map arc_value changes.now) shown.old) Full) }
    ensures part { BeginsPart (state_of (map arc_value changes.now) shown.old) Full (update_in result) (option_map part_in shown.old.latest)
        (option_map part_in shown.new.latest) }
    ensures shows { Shows meta.now (map arc_value changes.now) shown.new }
    ensures tables { shown.new.tables ≡ shown.old.tables }
{
    let Ok(copy) = copied(alloc, changes) else {
        return Err(CutFault::Memory);
    };
    let Ok(Plan { years, slots }) = plan_of(alloc, meta, world, changes) else {
        return Err(CutFault::Memory);
    };
    let number = changes.len() as u64;
    let ticket = stage_full(shown, number, slots);
    Ok(Cut {
        ticket,
        kind: CutKind::Full,
        number,
        years,
        changes: copy,
    })
}

// The part of a latest update is made at its cut, of what the log records now.
fn begin_latest(
    alloc: Global,
    shown: &mut Shown,
    limits: &Limits,
    meta: &Metadata,
    world: &World,
    changes: &[Arc<Change>],
) -> Result<Cut, CutFault>
    requires order { IsInOrder limits.now (state_of (map arc_value changes.now) shown.old) }
    requires limits { limits.now.updates ≤ MOST_UPDATES }
    requires free { refused_by (staged_latest shown.old.latest) shown.old.ticket limits.now.updates ≡ None }
    requires world { facts world.now ≡ facts_in (writes_of (map arc_value changes.now)) }
    requires few { length (writes_of (map arc_value changes.now)) ≤ MOST_RECORDS }
    requires fits { All WriteFits (writes_of (map arc_value changes.now)) }
    requires shows { Shows meta.now (map arc_value changes.now) shown.old }
    ensures step { Cuts limits.now (state_of (map arc_value changes.now) shown.old) Latest (update_in result) (state_of (map arc_value changes.now) shown.new) }
    ensures given { IfOk result (IsCutOf meta.now (state_of (map arc_value changes.now) shown.old) Latest) }
    ensures part { BeginsPart (state_of (map arc_value changes.now) shown.old) Latest (update_in result) (option_map part_in shown.old.latest)
        (option_map part_in shown.new.latest) }
    ensures shows { Shows meta.now (map arc_value changes.now) shown.new }
    ensures tables { shown.new.tables ≡ shown.old.tables }
{
    let Ok(copy) = copied(alloc, &changes[shown.base_cut as usize..]) else {
        return Err(CutFault::Memory);
    };
    let Ok(part) = latest_part(alloc, meta, world, changes, shown.tables.base()) else {
        return Err(CutFault::Memory);
    };
    let number = changes.len() as u64;
    let ticket = stage_latest(shown, number, part);
    Ok(Cut {
        ticket,
        kind: CutKind::Latest,
        number,
        years: Items::new(alloc),
        changes: copy,
    })
}

// Begins an update of a kind.
#[tactic(auto, using(crate::proofs::Orders::refused_cuts))]
pub(crate) fn cut(
    alloc: Global,
    shown: &mut Shown,
    limits: &Limits,
    meta: &Metadata,
    world: &World,
    changes: &[Arc<Change>],
    kind: CutKind,
) -> Result<Cut, CutFault>
    requires order { IsInOrder limits.now (state_of (map arc_value changes.now) shown.old) }
    requires limits { limits.now.updates ≤ MOST_UPDATES }
    requires world { facts world.now ≡ facts_in (writes_of (map arc_value changes.now)) }
    requires few { length (writes_of (map arc_value changes.now)) ≤ MOST_RECORDS }
    requires fits { All WriteFits (writes_of (map arc_value changes.now)) }
    requires shows { Shows meta.now (map arc_value changes.now) shown.old }
    ensures step { Cuts limits.now (state_of (map arc_value changes.now) shown.old) kind (update_in result) (state_of (map arc_value changes.now) shown.new) }
    ensures given { IfOk result (IsCutOf meta.now (state_of (map arc_value changes.now) shown.old) kind) }
    ensures part { BeginsPart (state_of (map arc_value changes.now) shown.old) kind (update_in result) (option_map part_in shown.old.latest)
        (option_map part_in shown.new.latest) }
    ensures shows { Shows meta.now (map arc_value changes.now) shown.new }
    ensures tables { shown.new.tables ≡ shown.old.tables }
{
    if let Some(fault) = refusal(staged_of(shown, kind), shown.ticket, limits.updates) {
        return Err(fault);
    }
    match kind {
        CutKind::Full => begin_full(alloc, shown, limits, meta, world, changes),
        CutKind::Latest => begin_latest(alloc, shown, limits, meta, world, changes),
    }
}

// Keeps a part for the full update.
pub(crate) fn hand_in(shown: &mut Shown, part: Partition)
    ensures same { shown.new ≡ record shown.old { slots = shown.new.slots } }
    ensures kept { (meta : Records) → (changes : List Change) → IsPartOf meta changes part → FitSlots meta changes shown.old.slots
        → FitSlots meta changes shown.new.slots }
{
    match &mut shown.slots {
        Some(slots) => put_part(slots, part),
        None => drop(part),
    }
}

fn has_ticket(staged: Option<Staged>, ticket: u64) -> bool
    ensures { result ≡ has_ticket ticket staged }
{
    match staged {
        Some(update) => update.ticket == ticket,
        None => false,
    }
}

pub(crate) fn kind_of(shown: &Shown, ticket: u64) -> CutKind
    ensures { result ≡ kind_by ticket shown.now.full }
{
    if has_ticket(shown.full, ticket) {
        CutKind::Full
    } else {
        CutKind::Latest
    }
}

pub(crate) fn number_in(staged: Option<Staged>) -> u64
    ensures { result ≡ number_in staged }
{
    match staged {
        Some(update) => update.number,
        None => 0,
    }
}

// The tables that are published, if they stand for so many changes.
pub(crate) fn look(shown: &Shown, asked: u64) -> Result<View, LookFault>
    ensures step { (log : List Change) → Looks (state_of log shown.now) asked (published_in result) }
    ensures tables { (meta : Records) → (log : List Change) → contents_in (arc_value shown.now.tables).all ≡ tables_of meta (take shown.now.published log)
        → IfOk result (λ view. contents_in (arc_value view.tables).all ≡ tables_of meta (take view.published log)) }
    ensures served { IfOk result (λ view. arc_value view.tables ≡ arc_value shown.now.tables) }
    ensures published { IfOk result (λ view. view.published ≡ shown.now.published) }
{
    if shown.published < asked {
        return Err(LookFault::NotYet {
            published: shown.published,
        });
    }
    match Arc::try_clone(&shown.tables) {
        Ok(tables) => Ok(View {
            published: shown.published,
            tables,
        }),
        Err(_) => Err(LookFault::Memory),
    }
}

// Takes away the full update, and the parts that were handed in for it.
fn end_full(shown: &mut Shown)
    ensures { shown.new ≡ record shown.old { full = None; slots = None } }
{
    shown.full = None;
    shown.slots = None;
}

// Takes away the latest update, with its part.
pub(crate) fn end_latest(shown: &mut Shown)
    ensures { shown.new ≡ record shown.old { latest = None } }
{
    shown.latest = None;
}

// Takes away the update with this ticket.
pub(crate) fn drop_staged(shown: &mut Shown, ticket: u64)
    ensures state { (log : List Change) → state_of log shown.new ≡ after_drop (state_of log shown.old) ticket }
    ensures shows { (meta : Records) → (log : List Change) → Shows meta log shown.old → Shows meta log shown.new }
    ensures tables { shown.new.tables ≡ shown.old.tables }
    ensures part { (log : List Change) → option_map part_in shown.new.latest
        ≡ part_without (state_of log shown.old) ticket (option_map part_in shown.old.latest) }
{
    match kind_of(shown, ticket) {
        CutKind::Full => end_full(shown),
        CutKind::Latest => end_latest(shown),
    }
}
