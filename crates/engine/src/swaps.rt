//! An update is published.
ghost use Rattle.std.specs.Prelude.{◌≡◌, ◌≤◌, true, false, IsTrue, length, map, take, max, option_map, IfOk, None};
ghost use Rattle.std.specs.Arc.{arc_value};
ghost use Rattle.std.specs.List.{All};
ghost use Rattle.change_log.specs.Forms.{WriteFits};
ghost use Rattle.change_log.specs.Log.{writes_of};
ghost use Rattle.engine.specs.Machine.{has_ticket, is_begun, number_in, number_of};
ghost use Rattle.engine.specs.Seen.{state_of, staged_latest, over_from, part_in, part_after, FitSlots, Lays, Shows, Swaps};
ghost use Rattle.engine.specs.Stands.{GoesTo, Stands};
ghost use Rattle.dh_base.specs.declared.limits.TheConstants.{MOST_RECORDS};

use crate::served::serve;
use crate::tables::{Tables, base_of_first};
use crate::updates::{LatestUpdate, Shown, end_latest, kind_of, number_in, staged_of};
use dh_base::memory::Memory;
use dh_base::plain::CutKind;
use dh_changes::change::Change;
use dh_metadata::metadata::Metadata;
use std::alloc::Global;
use std::sync::Arc;
use table_latest::Latest as LatestPart;

// The latest part that is served, if the tables go on to so many changes or further.
fn over_from(shown: &Shown, number: u64) -> Result<Option<Arc<LatestPart>>, Memory>
    ensures { IfOk result (λ over. option_map arc_value over ≡ over_from shown.now.published number (arc_value shown.now.tables).latest) }
{
    if shown.published < number {
        return Ok(None);
    }
    match shown.tables.latest() {
        Some(latest) => Ok(Some(Arc::try_clone(latest)?)),
        None => Ok(None),
    }
}

// The tables of new yearly parts. A latest part that goes on beyond them stays over them.
fn tables_after_full(
    alloc: Global,
    shown: &mut Shown,
    meta: &Metadata,
    changes: &[Arc<Change>],
    number: u64,
) -> Result<Arc<Tables>, Memory>
    requires few { length (writes_of (map arc_value changes.now)) ≤ MOST_RECORDS }
    requires fits { All WriteFits (writes_of (map arc_value changes.now)) }
    requires within { max shown.old.published number ≤ length changes.now }
    requires base { shown.old.base_cut ≤ number }
    requires slots { FitSlots meta.now (take number (map arc_value changes.now)) shown.old.slots }
    requires over { GoesTo meta.now (map arc_value changes.now) shown.old.base_cut shown.old.published (arc_value shown.old.tables).latest }
    ensures same { shown.new ≡ record shown.old { slots = None } }
    ensures stands { IfOk result (λ tables. Stands meta.now (map arc_value changes.now) number (max shown.old.published number) (arc_value tables)) }
    ensures latest { IfOk result (λ tables. (arc_value tables).latest ≡ over_from shown.old.published number (arc_value shown.old.tables).latest) }
{
    let published = shown.published.max(number);
    let slots = shown.slots.take();
    let base = base_of_first(alloc, meta, changes, number, slots)?;
    let over = over_from(shown, number)?;
    let tables = serve(alloc, meta, changes, published, &base, &over)?;
    Ok(tables)
}

// Publishes the full update with these tables.
fn publish_full(shown: &mut Shown, tables: Arc<Tables>, number: u64, published: u64)
    ensures same { shown.new ≡ record shown.old { tables = shown.new.tables; published = published; base_cut = number; full = None; slots = None } }
    ensures tables { arc_value shown.new.tables ≡ arc_value tables }
{
    shown.tables = tables;
    shown.published = published;
    shown.base_cut = number;
    shown.full = None;
    shown.slots = None;
}

#[tactic(auto, using(crate::proofs::StandLemmas::laid_full, crate::proofs::StandLemmas::ended_full))]
fn swap_full(
    alloc: Global,
    shown: &mut Shown,
    meta: &Metadata,
    changes: &[Arc<Change>],
    ticket: u64,
) -> Result<u64, Memory>
    requires begun { has_ticket ticket shown.old.full ≡ true }
    requires within { max shown.old.published (number_in shown.old.full) ≤ length changes.now }
    requires few { length (writes_of (map arc_value changes.now)) ≤ MOST_RECORDS }
    requires fits { All WriteFits (writes_of (map arc_value changes.now)) }
    requires shows { Shows meta.now (map arc_value changes.now) shown.old }
    ensures step { Swaps (state_of (map arc_value changes.now) shown.old) ticket result (state_of (map arc_value changes.now) shown.new) }
    ensures shows { Shows meta.now (map arc_value changes.now) shown.new }
    ensures laid { Lays (state_of (map arc_value changes.now) shown.old) ticket result (option_map part_in shown.old.latest) (arc_value shown.old.tables)
        (arc_value shown.new.tables) }
    ensures part { option_map part_in shown.new.latest
        ≡ part_after (state_of (map arc_value changes.now) shown.old) ticket result (option_map part_in shown.old.latest) }
{
    let number = number_in(shown.full);
    let published = shown.published.max(number);
    let tables = tables_after_full(alloc, shown, meta, changes, number)?;
    publish_full(shown, tables, number, published);
    Ok(published)
}

// The part of the latest update.
fn begun_part(latest: &Option<LatestUpdate>) -> Result<Option<Arc<LatestPart>>, Memory>
    ensures { IfOk result (λ part. option_map arc_value part ≡ option_map part_in latest.now) }
{
    match latest {
        Some(update) => Ok(Some(Arc::try_clone(&update.part)?)),
        None => Ok(None),
    }
}

// The same yearly parts under the part of the latest update.
fn tables_after_latest(
    alloc: Global,
    shown: &Shown,
    meta: &Metadata,
    changes: &[Arc<Change>],
    number: u64,
) -> Result<Arc<Tables>, Memory>
    requires few { length (writes_of (map arc_value changes.now)) ≤ MOST_RECORDS }
    requires fits { All WriteFits (writes_of (map arc_value changes.now)) }
    requires within { number ≤ length changes.now }
    requires below { shown.now.base_cut ≤ number }
    requires stands { Stands meta.now (map arc_value changes.now) shown.now.base_cut shown.now.published (arc_value shown.now.tables) }
    requires over { GoesTo meta.now (map arc_value changes.now) shown.now.base_cut number (option_map part_in shown.now.latest) }
    ensures stands { IfOk result (λ tables. Stands meta.now (map arc_value changes.now) shown.now.base_cut number (arc_value tables)) }
    ensures base { IfOk result (λ tables. (arc_value tables).base ≡ (arc_value shown.now.tables).base) }
    ensures latest { IfOk result (λ tables. (arc_value tables).latest ≡ option_map part_in shown.now.latest) }
{
    let over = begun_part(&shown.latest)?;
    let tables = serve(alloc, meta, changes, number, shown.tables.base(), &over)?;
    Ok(tables)
}

// Publishes the latest update with these tables.
fn publish_latest(shown: &mut Shown, tables: Arc<Tables>, number: u64)
    ensures same { shown.new ≡ record shown.old { tables = shown.new.tables; published = number; latest = None } }
    ensures tables { shown.new.tables ≡ tables }
{
    shown.tables = tables;
    shown.published = number;
    shown.latest = None;
}

// Where yearly parts of more changes were published meanwhile, the tables stay.
#[tactic(auto, using(crate::proofs::StandLemmas::laid_latest, crate::proofs::StandLemmas::laid_overtaken, crate::proofs::StandLemmas::ended_latest))]
fn swap_latest(
    alloc: Global,
    shown: &mut Shown,
    meta: &Metadata,
    changes: &[Arc<Change>],
    ticket: u64,
) -> Result<u64, Memory>
    requires begun { has_ticket ticket (staged_latest shown.old.latest) ≡ true }
    requires other { has_ticket ticket shown.old.full ≡ false }
    requires within { number_in (staged_latest shown.old.latest) ≤ length changes.now }
    requires below { shown.old.base_cut ≤ shown.old.published }
    requires few { length (writes_of (map arc_value changes.now)) ≤ MOST_RECORDS }
    requires fits { All WriteFits (writes_of (map arc_value changes.now)) }
    requires shows { Shows meta.now (map arc_value changes.now) shown.old }
    ensures step { Swaps (state_of (map arc_value changes.now) shown.old) ticket result (state_of (map arc_value changes.now) shown.new) }
    ensures shows { Shows meta.now (map arc_value changes.now) shown.new }
    ensures laid { Lays (state_of (map arc_value changes.now) shown.old) ticket result (option_map part_in shown.old.latest) (arc_value shown.old.tables)
        (arc_value shown.new.tables) }
    ensures part { option_map part_in shown.new.latest
        ≡ part_after (state_of (map arc_value changes.now) shown.old) ticket result (option_map part_in shown.old.latest) }
{
    let number = number_in(staged_of(shown, CutKind::Latest));
    if number < shown.published {
        end_latest(shown);
        return Ok(shown.published);
    }
    let tables = tables_after_latest(alloc, shown, meta, changes, number)?;
    publish_latest(shown, tables, number);
    Ok(number)
}

// Publishes the update with this ticket.
pub(crate) fn swap(
    alloc: Global,
    shown: &mut Shown,
    meta: &Metadata,
    changes: &[Arc<Change>],
    ticket: u64,
) -> Result<u64, Memory>
    requires begun { IsTrue (is_begun (state_of (map arc_value changes.now) shown.old) ticket) }
    requires there { max shown.old.published (number_of (state_of (map arc_value changes.now) shown.old) ticket) ≤ length changes.now }
    requires below { shown.old.base_cut ≤ shown.old.published }
    requires few { length (writes_of (map arc_value changes.now)) ≤ MOST_RECORDS }
    requires fits { All WriteFits (writes_of (map arc_value changes.now)) }
    requires shows { Shows meta.now (map arc_value changes.now) shown.old }
    ensures step { Swaps (state_of (map arc_value changes.now) shown.old) ticket result (state_of (map arc_value changes.now) shown.new) }
    ensures shows { Shows meta.now (map arc_value changes.now) shown.new }
    ensures laid { Lays (state_of (map arc_value changes.now) shown.old) ticket result (option_map part_in shown.old.latest) (arc_value shown.old.tables)
        (arc_value shown.new.tables) }
    ensures part { option_map part_in shown.new.latest
        ≡ part_after (state_of (map arc_value changes.now) shown.old) ticket result (option_map part_in shown.old.latest) }
{
    match kind_of(shown, ticket) {
        CutKind::Full => swap_full(alloc, shown, meta, changes, ticket),
        CutKind::Latest => swap_latest(alloc, shown, meta, changes, ticket),
    }
}
