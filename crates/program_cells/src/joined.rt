//! The places of the events of several units.
ghost use Rattle.std.specs.Prelude.{◌≡◌, ◌++◌, ◌||◌, ◌≤◌, ◌<◌, [], ℕ, List, length, get_or, IfOk, OnOk, IfSome};
ghost use Rattle.dh_metadata.specs.Members.{has};
ghost use Rattle.table_rows.specs.declared.event.EventRow.{EventRow};
ghost use Rattle.program_cells.specs.Kept.{is_placed_in};
ghost use Rattle.program_cells.specs.Places.{ArePlaces, order_of, is_between, passes_at, places_from};

use dh_base::items::Items;
use dh_base::memory::Memory;
use std::alloc::Global;

fn add_unit(found: &mut Vec<usize>, places: &[Items<usize>], unit: usize) -> Result<(), Memory>
    requires { unit < length places.now }
    ensures { OnOk result (found.new.items ≡ found.old.items ++ get_or places.now unit []) }
{
    found.extend_from_slice(places[unit].as_slice())?;
    Ok(())
}

/// Adds the places of the events of the units from the one up to below the other.
fn add_units(
    found: &mut Vec<usize>,
    places: &[Items<usize>],
    from: usize,
    to: usize,
) -> Result<(), Memory>
    requires order { from ≤ to }
    requires there { to ≤ length places.now }
    ensures { (events : List EventRow) → ArePlaces order_of events places.now → OnOk result ((place : ℕ)
        → has found.new.items place ≡ (has found.old.items place || passes_at (λ event. is_between from to (order_of event)) events place)) }
{
    for unit in from..to {
        add_unit(found, places, unit)?;
    }
    Ok(())
}

/// The places of the events whose units lie in the ranges, in whatever order, if there is a list for each of these units.
fn joined(
    alloc: Global,
    places: &[Items<usize>],
    parts: &[(u32, u32)],
) -> Result<Option<Vec<usize>>, Memory>
    ensures { (events : List EventRow) → ArePlaces order_of events places.now → IfOk result (λ all. IfSome all (λ found. (place : ℕ)
        → has found.items place ≡ passes_at (is_placed_in parts.now) events place)) }
{
    let mut found = Vec::new(alloc);
    for part in parts {
        let from = part.0 as usize;
        let to = part.1 as usize;
        if from > to {
            return Ok(None);
        }
        if to > places.len() {
            return Ok(None);
        }
        add_units(&mut found, places, from, to)?;
    }
    Ok(Some(found))
}

/// The places of the events whose units lie in the ranges, ascending. There is no answer where these are more than `most`, or the ranges
/// have units for which there is no list: then it is as well to look at each event.
pub(crate) fn joined_places(
    alloc: Global,
    places: &[Items<usize>],
    parts: &[(u32, u32)],
    most: usize,
) -> Result<Option<Vec<usize>>, Memory>
    ensures { (events : List EventRow) → ArePlaces order_of events places.now
        → IfOk result (λ all. IfSome all (λ own. own.items ≡ places_from 0 (is_placed_in parts.now) events)) }
{
    let Some(mut own) = joined(alloc, places, parts)? else {
        return Ok(None);
    };
    if own.len() > most {
        return Ok(None);
    }
    own.sort()?;
    own.dedup();
    Ok(Some(own))
}
