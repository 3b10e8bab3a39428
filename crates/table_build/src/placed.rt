//! The rows of the values that changes leave: each write puts its row at the row's place, over what was put there before. So the rows
//! are put in the order of their places, and of each place the last is kept.
ghost use Rattle.std.specs.Prelude.{◌≡◌, ◌++◌, true, map, OnOk, IfOk};
ghost use Rattle.std.specs.Arc.{arc_value};
ghost use Rattle.std.specs.List.{filter, filter_map};
ghost use Rattle.std.specs.Option.{option_copied};
ghost use Rattle.dh_changes.specs.Facts.{facts_in};
ghost use Rattle.dh_changes.specs.World.{facts};
ghost use Rattle.table_rows.specs.Order.{key_cmp};
ghost use Rattle.table_rows.specs.Store.{have_own_places};
ghost use Rattle.table_build.specs.Last.{is_again};
ghost use Rattle.table_build.specs.Log.{writes_of, values_named};
ghost use Rattle.table_build.specs.Placed as known;
ghost use Rattle.table_build.specs.Values as values;

use crate::in_year::is_value_key_in;
use crate::lists::put_found;
use crate::named::Named;
use crate::values::{objects_of, row_with};
use dh_base::memory::Memory;
use dh_changes::change::{Change, Write};
use dh_changes::keys::ValueKey;
use dh_changes::world::World;
use dh_metadata::metadata::Metadata;
use dh_records::access::tree_of;
use std::alloc::Global;
use std::marker::Model;
use std::sync::Arc;
use table_rows::{Row, RowKey};

/// What a write puts at the place of a value's row: the row, or none where the value is cleared. The place is that of the row.
#[derive(Drop)]
pub(crate) struct PlacedRow {
    row: Row,
    is_there: bool,
}

impl Model for PlacedRow {
    ghost use Rattle.std.specs.Prelude.{cond, Some, None};
    ghost use Rattle.table_rows.specs.Rows.{key_of};
    ghost use Rattle.table_build.specs.Placed.{Placed};

    ghost Value = { Placed };

    ghost view = { λ placed. record { place = key_of placed.row; row = cond placed.is_there (Some placed.row) None } };
}

fn is_wanted(key: &ValueKey, year: &Option<i32>) -> bool
    ensures { result ≡ known.is_wanted year.now key.now }
{
    match year {
        Some(year) => is_value_key_in(key, year),
        None => true,
    }
}

#[tactic(auto, unfolding(crate::specs::Placed::placed_at, crate::specs::Placed::placed_with, crate::specs::Values::row_with))]
fn placed_at(
    meta: &Metadata,
    world: &World,
    key: &ValueKey,
    text: Option<&[u8]>,
    year: &Option<i32>,
) -> Option<PlacedRow>
    ensures { result ≡ known.placed_at meta.now (facts world.now) year.now key.now (option_copied text.entry) }
{
    if !is_wanted(key, year) {
        return None;
    }
    let objects = objects_of(meta, key)?;
    match text {
        Some(text) => Some(PlacedRow {
            row: row_with(meta, world, key, text, objects),
            is_there: true,
        }),
        None => Some(PlacedRow {
            row: row_with(meta, world, key, &[], objects),
            is_there: false,
        }),
    }
}

#[tactic(auto, unfolding(crate::specs::Placed::placed_by))]
fn placed_by(meta: &Metadata, world: &World, write: &Write, year: &Option<i32>) -> Option<PlacedRow>
    ensures { result ≡ known.placed_by meta.now (facts world.now) year.now write.now }
{
    match write {
        Write::ValueSet { key, value } => {
            placed_at(meta, world, key, Some(value.as_slice()), year)
        },
        Write::ValueCleared { key } => placed_at(meta, world, key, None, year),
        _ => None,
    }
}

fn count_writes(writes: &[Write], year: &Option<i32>) -> usize {
    let mut count: usize = 0;
    for write in writes {
        if let Some(key) = ValueKey::named_by(write) {
            if is_wanted(&key, year) {
                count = count.saturating_add(1);
            }
        }
    }
    count
}

// For how many rows room is taken at once, so that the list doesn't move while it grows.
fn count_placed(changes: &[Arc<Change>], year: &Option<i32>) -> usize {
    let mut count: usize = 0;
    for change in changes {
        count = count.saturating_add(count_writes(change.writes.as_slice(), year));
    }
    count
}

fn place_writes(
    placed: &mut Vec<PlacedRow>,
    meta: &Metadata,
    world: &World,
    writes: &[Write],
    year: &Option<i32>,
) -> Result<(), Memory>
    ensures { OnOk result (placed.new.items
        ≡ placed.old.items ++ filter_map (known.placed_by meta.now (facts world.now) year.now) writes.now) }
{
    for write in writes {
        if let Some(row) = placed_by(meta, world, write, year) {
            placed.push(row)?;
        }
    }
    Ok(())
}

// What the writes put at places, in the order of the writes.
fn place_changes(
    alloc: Global,
    meta: &Metadata,
    world: &World,
    changes: &[Arc<Change>],
    year: &Option<i32>,
) -> Result<Vec<PlacedRow>, Memory>
    ensures { IfOk result (λ placed. placed.items
        ≡ filter_map (known.placed_by meta.now (facts world.now) year.now) (writes_of (map arc_value changes.now))) }
{
    let mut placed = Vec::new(alloc);
    placed.reserve(count_placed(changes, year))?;
    for change in changes {
        place_writes(&mut placed, meta, world, change.writes.as_slice(), year)?;
    }
    Ok(placed)
}

fn place_of(placed: &PlacedRow) -> RowKey
    ensures { result ≡ placed.now.place }
{
    placed.row.key()
}

fn is_again(placed: &PlacedRow, later: &[PlacedRow]) -> bool
    ensures { result ≡ is_again key_cmp (λ (p : known.Placed). p.place) placed.now later.now }
{
    match later.first() {
        Some(next) => place_of(placed).compare(&place_of(next)).is_eq(),
        None => false,
    }
}

fn row_left(placed: &PlacedRow, later: &[PlacedRow]) -> Option<Row>
    ensures { result ≡ known.row_left placed.now later.now }
{
    if is_again(placed, later) || !placed.is_there {
        None
    } else {
        Some(placed.row)
    }
}

// The rows that a list in the order of its places leaves.
fn rows_last(alloc: Global, placed: &[PlacedRow]) -> Result<Vec<Row>, Memory>
    ensures { IfOk result (λ rows. rows.items ≡ known.rows_last placed.now) }
{
    let mut rows = Vec::new(alloc);
    rows.reserve(placed.len())?;
    for i in 0..placed.len() {
        put_found(&mut rows, row_left(&placed[i], &placed[i + 1..]))?;
    }
    Ok(rows)
}

/// The rows of the values that the changes leave, of one year or of all, in row order. Of what is held it needs the approvals
/// alone, and keeps no values by their keys.
pub(crate) fn rows_left(
    alloc: Global,
    meta: &Metadata,
    world: &World,
    changes: &[Arc<Change>],
    year: &Option<i32>,
) -> Result<Vec<Row>, Memory>
    requires { (facts world.now).approval ≡ (facts_in (writes_of (map arc_value changes.now))).approval }
    ensures rows { IfOk result (λ rows. rows.items ≡ values.rows_of meta.now (facts_in (writes_of (map arc_value changes.now)))
        (filter (known.is_wanted year.now) (values_named (writes_of (map arc_value changes.now))))) }
    ensures own_places { IfOk result (λ rows. have_own_places rows.items ≡ true) }
{
    // since the units are a tree, no two have one order
    let _units = tree_of(world, meta).count();
    let mut placed = place_changes(alloc, meta, world, changes, year)?;
    // a stable sort, so that the last write of a place stays the last
    placed.sort_by_key(|row| place_of(row))?;
    let rows = rows_last(alloc, &placed)?;
    Ok(rows)
}
