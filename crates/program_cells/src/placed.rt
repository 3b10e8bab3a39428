//! Events that are found by their unit.
ghost use Rattle.std.specs.Prelude.{◌≡◌, ◌++◌, ◌∷◌, [], ◌<◌, ℕ, List, length, get_or, set, map, nat_eq, slice_get, IfOk, OnOk, IfSome};
ghost use Rattle.std.specs.Option.{option_to_list};
ghost use Rattle.std.specs.List.{filter, filter_map};
ghost use Rattle.dh_sharing.specs.Ranges.{is_within};
ghost use Rattle.table_rows.specs.declared.event.EventRow.{EventRow};
ghost use Rattle.program_cells.specs.Cells.{alone};
ghost use Rattle.program_cells.specs.Kept.{is_placed_in};
ghost use Rattle.program_cells.specs.Places.{ArePlaces, order_of, places_from};

use crate::joined::joined_places;
use crate::under::{events_in, places_in};
use dh_base::items::Items;
use dh_base::memory::Memory;
use dh_sharing::ranges::ViewRanges;
use std::alloc::Global;
use std::marker::Model;
use std::slice::from_ref;
use table_rows::EventRow;

/// Events in an order of their own. Those of one unit are found without a look at the others. Contracts see the list of them.
#[derive(Drop)]
pub struct PlacedEvents<'a> {
    events: Vec<&'a EventRow>,
    // for each of the first units in the order of the tree, where its events stand
    places: Vec<Items<usize>>,
}

impl<'a> Model for PlacedEvents<'a> {
    ghost use Rattle.std.specs.Prelude.{List, map};
    ghost use Rattle.table_rows.specs.declared.event.EventRow.{EventRow};
    ghost use Rattle.program_cells.specs.Places.{ArePlaces, order_of};

    ghost Value = { List EventRow };

    ghost view = { λ placed. map (λ event. event.now) placed.events.items };

    ghost invariant = { λ placed. ArePlaces order_of (map (λ event. event.now) placed.events.items) placed.places.items };
}

fn add(lists: &mut Vec<Items<usize>>, unit: usize, at: usize) -> Result<(), Memory>
    requires { unit < length lists.old.items }
    ensures { OnOk result (lists.new.items ≡ set lists.old.items unit (get_or lists.old.items unit [] ++ at ∷ [])) }
{
    lists[unit].push(at)
}

/// Puts the place of an event to those of its unit.
pub(crate) fn put(lists: &mut Vec<Items<usize>>, event: &EventRow, at: usize) -> Result<(), Memory>
    ensures { (before : List EventRow) → at ≡ length before → ArePlaces order_of before lists.old.items
        → OnOk result (ArePlaces order_of (before ++ event.now ∷ []) lists.new.items) }
{
    let unit = event.order as usize;
    if unit < lists.len() {
        add(lists, unit, at)
    } else {
        Ok(())
    }
}

/// An empty list for each of so many units, among which so many events are spread.
pub(crate) fn lists_for(
    alloc: Global,
    events: usize,
    count: u32,
) -> Result<Vec<Items<usize>>, Memory>
    ensures { IfOk result (λ lists. ArePlaces order_of [] lists.items) }
{
    let room = events / (count as usize + 1);
    let mut lists = Vec::new(alloc);
    for _unit in 0..count {
        let list = Vec::with_capacity(alloc, room)?;
        lists.push(Items::from(list))?;
    }
    Ok(lists)
}

/// The places of the events of each of so many units.
fn places_of(alloc: Global, events: &[&EventRow], count: u32) -> Result<Vec<Items<usize>>, Memory>
    ensures { IfOk result (λ places. ArePlaces order_of (map (λ event. event.now) events.now) places.items) }
{
    let mut places = lists_for(alloc, events.len(), count)?;
    for at in 0..events.len() {
        put(&mut places, events[at], at)?;
    }
    Ok(places)
}

/// The unit that the ranges hold, if they hold one alone.
fn only_unit(parts: &[(u32, u32)]) -> Option<u32>
    ensures { IfSome result (λ unit. (n : ℕ) → is_within parts.now n ≡ nat_eq n unit) }
{
    if parts.len() != 1 {
        return None;
    }
    let (from, to) = parts[0];
    if from < to && to - from == 1 {
        Some(from)
    } else {
        None
    }
}

/// The places of the events in the ranges, if one list has them all.
fn own_places<'a>(places: &'a [Items<usize>], parts: &[(u32, u32)]) -> Option<&'a [usize]>
    ensures members { (events : List EventRow) → ArePlaces order_of events places.now
        → IfSome result (λ own. filter_map (slice_get events) own.now ≡ filter (is_placed_in parts.now) events) }
    ensures places { (events : List EventRow) → ArePlaces order_of events places.now
        → IfSome result (λ own. own.now ≡ places_from 0 (is_placed_in parts.now) events) }
{
    let unit = only_unit(parts)? as usize;
    if unit < places.len() {
        Some(places[unit].as_slice())
    } else {
        None
    }
}

fn put_at<'a>(
    kept: &mut Vec<&'a [EventRow]>,
    events: &[&'a EventRow],
    place: usize,
) -> Result<(), Memory>
    ensures { OnOk result (map (λ subject. subject.now) kept.new.items
        ≡ map (λ subject. subject.now) kept.old.items ++ map alone (option_to_list (slice_get (map (λ event. event.now) events.now) place))) }
{
    if place < events.len() {
        kept.push(from_ref(events[place]))?;
    }
    Ok(())
}

/// The events at these places, each alone.
fn events_at<'a>(
    alloc: Global,
    events: &[&'a EventRow],
    places: &[usize],
) -> Result<Vec<&'a [EventRow]>, Memory>
    ensures { IfOk result (λ kept. map (λ subject. subject.now) kept.items
        ≡ map alone (filter_map (slice_get (map (λ event. event.now) events.now)) places.now)) }
{
    let mut kept = Vec::with_capacity(alloc, places.len())?;
    for place in places {
        put_at(&mut kept, events, *place)?;
    }
    Ok(kept)
}

// A cell of several units has its events by their places where these are at most one in so many of all.
const FEW: usize = 8;

/// The events whose units lie in the ranges, each alone.
fn events_of_several<'a>(
    alloc: Global,
    events: &[&'a EventRow],
    places: &[Items<usize>],
    ranges: &ViewRanges,
) -> Result<Vec<&'a [EventRow]>, Memory>
    requires { ArePlaces order_of (map (λ event. event.now) events.now) places.now }
    ensures { IfOk result (λ kept. map (λ subject. subject.now) kept.items
        ≡ map alone (filter (is_placed_in ranges.now) (map (λ event. event.now) events.now))) }
{
    match joined_places(alloc, places, ranges.parts(), events.len() / FEW)? {
        Some(own) => events_at(alloc, events, &own),
        None => events_in(alloc, ranges, events),
    }
}

fn put_item<T: Copy>(kept: &mut Vec<T>, items: &[T], place: usize) -> Result<(), Memory>
    ensures { OnOk result (kept.new.items ≡ kept.old.items ++ option_to_list (slice_get items.now place)) }
{
    if place < items.len() {
        kept.push(items[place])?;
    }
    Ok(())
}

/// The items at these places.
pub(crate) fn items_at<T: Copy>(
    alloc: Global,
    items: &[T],
    places: &[usize],
) -> Result<Vec<T>, Memory>
    ensures { IfOk result (λ kept. kept.items ≡ filter_map (slice_get items.now) places.now) }
{
    let mut kept = Vec::with_capacity(alloc, places.len())?;
    for place in places {
        put_item(&mut kept, items, *place)?;
    }
    Ok(kept)
}

impl<'a> PlacedEvents<'a> {
    ghost use Rattle.std.specs.Prelude.{◌≡◌, [], map, IfOk, IfSome};
    ghost use Rattle.program_cells.specs.Places.{ArePlaces, order_of, places_from};
    ghost use Rattle.std.specs.List.{filter};
    ghost use Rattle.program_cells.specs.Cells.{alone};
    ghost use Rattle.program_cells.specs.Kept.{is_placed_in};

    /// No events.
    pub fn none(alloc: Global) -> PlacedEvents<'a>
        ensures { result ≡ [] }
    {
        PlacedEvents {
            events: Vec::new(alloc),
            places: Vec::new(alloc),
        }
    }

    /// These events. Those of each of the first `count` units in the order of the tree are found at once.
    pub(crate) fn of(
        alloc: Global,
        events: Vec<&'a EventRow>,
        count: u32,
    ) -> Result<PlacedEvents<'a>, Memory>
        ensures { IfOk result (λ placed. placed ≡ map (λ event. event.now) events.entry.items) }
    {
        let places = places_of(alloc, &events, count)?;
        Ok(PlacedEvents { events, places })
    }

    /// These events, where it is known where those of each unit stand.
    pub(crate) fn at(events: Vec<&'a EventRow>, places: Vec<Items<usize>>) -> PlacedEvents<'a>
        requires { ArePlaces order_of (map (λ event. event.now) events.items) places.items }
        ensures { result ≡ map (λ event. event.now) events.entry.items }
    {
        PlacedEvents { events, places }
    }

    /// The events whose units lie in the ranges, each alone.
    pub(crate) fn within(
        &self,
        alloc: Global,
        ranges: &ViewRanges,
    ) -> Result<Vec<&'a [EventRow]>, Memory>
        ensures { IfOk result (λ kept. map (λ subject. subject.now) kept.items ≡ map alone (filter (is_placed_in ranges.now) self.now)) }
    {
        match own_places(&self.places, ranges.parts()) {
            Some(own) => events_at(alloc, &self.events, own),
            None => events_of_several(alloc, &self.events, &self.places, ranges),
        }
    }

    /// The events.
    pub(crate) fn list(&self) -> &[&'a EventRow]
        ensures { map (λ event. event.now) result.now ≡ self.now }
    {
        &self.events
    }

    /// The places of the events whose units lie in the ranges, if one list has them all.
    pub(crate) fn own_places(&self, ranges: &ViewRanges) -> Option<&[usize]>
        ensures { IfSome result (λ own. own.now ≡ places_from 0 (is_placed_in ranges.now) self.now) }
    {
        own_places(&self.places, ranges.parts())
    }

    /// The places of the events whose units lie in the ranges.
    pub(crate) fn places_within(
        &self,
        alloc: Global,
        ranges: &ViewRanges,
    ) -> Result<Vec<usize>, Memory>
        ensures { IfOk result (λ own. own.items ≡ places_from 0 (is_placed_in ranges.now) self.now) }
    {
        let most = self.events.len() / FEW;
        match joined_places(alloc, &self.places, ranges.parts(), most)? {
            Some(own) => Ok(own),
            None => places_in(alloc, ranges, &self.events),
        }
    }
}
