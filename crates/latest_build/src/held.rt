//! The places of values' keys in tables, and the rows there. Each key's objects are looked up once, for both; a stable sort by places
//! brings both into order. What a key holds that the last writes name is what the last of them says, so it isn't looked up.
ghost use Rattle.std.specs.Prelude.{◌≡◌, ◌<◌, ◌≤◌, ◌++◌, [], List, true, length, map, take, drop, Some, None, OnOk, IfOk, IfSome};
ghost use Rattle.std.specs.Arc.{arc_value};
ghost use Rattle.std.specs.List.{filter_map};
ghost use Rattle.std.specs.Option.{option_copied, option_to_list};
ghost use Rattle.std.specs.Ordering.{is_eq};
ghost use Rattle.dh_changes.specs.declared.change.Write.{Write as LogWrite};
ghost use Rattle.org_tree.specs.Units.{IsTree};
ghost use Rattle.dh_metadata.specs.Objects.{find_of};
ghost use Rattle.dh_records.specs.Access.{tree};
ghost use Rattle.dh_metadata.specs.declared.kind.Kind.TheVariants.{CategoryOptionCombo};
ghost use Rattle.dh_changes.specs.Facts.{facts_in};
ghost use Rattle.dh_changes.specs.World.{facts};
ghost use Rattle.table_rows.specs.Order.{row_cmp, key_cmp};
ghost use Rattle.table_rows.specs.Rows.{key_of};
ghost use Rattle.table_rows.specs.Store.{rises};
ghost use Rattle.table_build.specs.Last.{is_again};
ghost use Rattle.table_build.specs.Log.{writes_of, values_named};
ghost use Rattle.table_build.specs.Ordered.{in_order, put_all};
ghost use Rattle.table_build.specs.Values as values;
ghost use Rattle.table_latest.specs.Keys.{place_cmp};
ghost use Rattle.latest_build.specs.Held as known;
ghost use Rattle.latest_build.specs.Places.{value_places};
ghost use Rattle.latest_build.specs.Told.{held_as, held_told, held_by_write};

use dh_base::memory::Memory;
use dh_base::uid::Uid;
use dh_changes::change::{Change, Write};
use dh_changes::keys::ValueKey;
use dh_changes::world::World;
use dh_metadata::kind::Kind;
use dh_metadata::metadata::Metadata;
use std::alloc::Global;
use std::collections::BTreeMap;
use std::marker::Model;
use std::sync::Arc;
use table_build::lists::put_found;
use table_build::values::{ValueObjects, attribute_of, row_with};
use table_latest::{RowPlace, place_of};
use table_rows::{Row, RowKey};

/// The place of a key, which is that of the row, and whether the row is there.
#[derive(Drop)]
struct HeldRow {
    row: Row,
    is_there: bool,
}

impl Model for HeldRow {
    ghost use Rattle.std.specs.Prelude.{cond, Some, None};
    ghost use Rattle.table_latest.specs.Keys.{place_of};
    ghost use Rattle.latest_build.specs.Held.{Held};

    ghost Value = { Held };

    ghost view = { λ held. record { place = place_of held.row; row = cond held.is_there (Some held.row) None } };
}

/// An option combination that was looked up.
#[derive(Clone, Copy)]
struct KnownCombo {
    id: Uid,
    number: u32,
}

/// The places of keys, ascending, each once, and the rows of what the keys hold, in row order.
#[derive(Drop)]
pub(crate) struct HeldRows {
    pub places: Vec<RowPlace>,
    pub rows: Vec<Row>,
}

// The number of an option combination, which often is the one that was looked up before.
fn combo_like(meta: &Metadata, id: Uid, last: &Option<KnownCombo>) -> Option<u32>
    requires { IfSome last.now (λ combo. find_of meta.now CategoryOptionCombo combo.id ≡ Some combo.number) }
    ensures { result ≡ find_of meta.now CategoryOptionCombo id }
{
    match last {
        Some(combo) => {
            if combo.id == id {
                Some(combo.number)
            } else {
                meta.find(Kind::CategoryOptionCombo, id)
            }
        }
        None => meta.find(Kind::CategoryOptionCombo, id),
    }
}

// What a text leaves at the place of a key, or what is left there where there is none.
#[tactic(auto, unfolding(crate::specs::Told::held_as, table_build::specs::Values::row_with))]
fn held_as(
    meta: &Metadata,
    world: &World,
    key: &ValueKey,
    text: Option<&[u8]>,
    objects: ValueObjects,
) -> HeldRow
    requires of { values.objects_of meta.now key.now ≡ Some objects }
    requires element { objects.element < length meta.now.data_elements }
    requires unit { objects.unit < length meta.now.organisation_units }
    ensures { result ≡ held_as meta.now (facts world.now) key.now (option_copied text.entry) objects }
{
    match text {
        Some(text) => HeldRow {
            row: row_with(meta, world, key, text, objects),
            is_there: true,
        },
        None => HeldRow {
            row: row_with(meta, world, key, &[], objects),
            is_there: false,
        },
    }
}

// The objects of a key, whose option combination is then the one that was looked up last.
#[tactic(auto, unfolding(table_build::specs::Values::objects_of))]
fn objects_next(
    last: &mut Option<KnownCombo>,
    meta: &Metadata,
    key: &ValueKey,
) -> Option<ValueObjects>
    requires { IfSome last.old (λ combo. find_of meta.now CategoryOptionCombo combo.id ≡ Some combo.number) }
    ensures value { result ≡ values.objects_of meta.now key.now }
    ensures element { IfSome result (λ objects. objects.element < length meta.now.data_elements) }
    ensures unit { IfSome result (λ objects. objects.unit < length meta.now.organisation_units) }
    ensures last { IfSome last.new (λ combo. find_of meta.now CategoryOptionCombo combo.id ≡ Some combo.number) }
{
    let element = meta.find(Kind::DataElement, key.element)?;
    let unit = meta.find(Kind::OrganisationUnit, key.unit)?;
    let combo = combo_like(meta, key.combo, last)?;
    *last = Some(KnownCombo {
        id: key.combo,
        number: combo,
    });
    let attribute = attribute_of(meta, key, combo)?;
    Some(ValueObjects {
        element,
        unit,
        combo,
        attribute,
    })
}

#[tactic(auto, unfolding(crate::specs::Told::held_told))]
fn put_told(
    held: &mut Vec<HeldRow>,
    last: &mut Option<KnownCombo>,
    meta: &Metadata,
    world: &World,
    key: &ValueKey,
    text: Option<&[u8]>,
) -> Result<(), Memory>
    requires { IfSome last.old (λ combo. find_of meta.now CategoryOptionCombo combo.id ≡ Some combo.number) }
    ensures put { OnOk result (held.new.items ≡ held.old.items ++ option_to_list (held_told meta.now (facts world.now) key.now (option_copied text.entry))) }
    ensures last { OnOk result (IfSome last.new (λ combo. find_of meta.now CategoryOptionCombo combo.id ≡ Some combo.number)) }
{
    if let Some(objects) = objects_next(last, meta, key) {
        held.push(held_as(meta, world, key, text, objects))?;
    }
    Ok(())
}

#[tactic(auto, unfolding(crate::specs::Told::held_by_write))]
fn put_write(
    held: &mut Vec<HeldRow>,
    last: &mut Option<KnownCombo>,
    meta: &Metadata,
    world: &World,
    write: &Write,
) -> Result<(), Memory>
    requires { IfSome last.old (λ combo. find_of meta.now CategoryOptionCombo combo.id ≡ Some combo.number) }
    ensures put { OnOk result (held.new.items ≡ held.old.items ++ option_to_list (held_by_write meta.now (facts world.now) write.now)) }
    ensures last { OnOk result (IfSome last.new (λ combo. find_of meta.now CategoryOptionCombo combo.id ≡ Some combo.number)) }
{
    match write {
        Write::ValueSet { key, value } => {
            put_told(held, last, meta, world, key, Some(value.as_slice()))
        }
        Write::ValueCleared { key } => put_told(held, last, meta, world, key, None),
        _ => Ok(()),
    }
}

fn put_writes(
    held: &mut Vec<HeldRow>,
    last: &mut Option<KnownCombo>,
    meta: &Metadata,
    world: &World,
    writes: &[Write],
) -> Result<(), Memory>
    requires { IfSome last.old (λ combo. find_of meta.now CategoryOptionCombo combo.id ≡ Some combo.number) }
    ensures put { OnOk result (held.new.items ≡ held.old.items ++ filter_map (held_by_write meta.now (facts world.now)) writes.now) }
    ensures last { OnOk result (IfSome last.new (λ combo. find_of meta.now CategoryOptionCombo combo.id ≡ Some combo.number)) }
{
    for write in writes {
        put_write(held, last, meta, world, write)?;
    }
    Ok(())
}

fn put_changes(
    held: &mut Vec<HeldRow>,
    last: &mut Option<KnownCombo>,
    meta: &Metadata,
    world: &World,
    changes: &[Arc<Change>],
) -> Result<(), Memory>
    requires { IfSome last.old (λ combo. find_of meta.now CategoryOptionCombo combo.id ≡ Some combo.number) }
    ensures put { OnOk result (held.new.items
        ≡ held.old.items ++ filter_map (held_by_write meta.now (facts world.now)) (writes_of (map arc_value changes.now))) }
    ensures last { OnOk result (IfSome last.new (λ combo. find_of meta.now CategoryOptionCombo combo.id ≡ Some combo.number)) }
{
    for change in changes {
        put_writes(held, last, meta, world, change.writes.as_slice())?;
    }
    Ok(())
}

fn put_keys(
    held: &mut Vec<HeldRow>,
    last: &mut Option<KnownCombo>,
    meta: &Metadata,
    world: &World,
    keys: &[ValueKey],
) -> Result<(), Memory>
    requires { IfSome last.old (λ combo. find_of meta.now CategoryOptionCombo combo.id ≡ Some combo.number) }
    ensures { OnOk result (held.new.items ≡ held.old.items ++ filter_map (known.held_at meta.now (facts world.now)) keys.now) }
{
    for key in keys {
        put_told(held, last, meta, world, key, world.value(key))?;
    }
    Ok(())
}

fn place_in(held: &HeldRow) -> RowPlace
    ensures { result ≡ held.now.place }
{
    place_of(&held.row)
}

// What the writes say and the other keys hold, in the order of the places. Of several with one place the last counts.
fn held_in_order(
    alloc: Global,
    meta: &Metadata,
    world: &World,
    last: &[Arc<Change>],
    keys: &[ValueKey],
    named: usize,
) -> Result<Vec<HeldRow>, Memory>
    requires { named ≤ length keys.now }
    ensures places { IfOk result (λ held. known.places_last held.items ≡ known.places_held
        (filter_map (held_by_write meta.now (facts world.now)) (writes_of (map arc_value last.now))
        ++ filter_map (known.held_at meta.now (facts world.now)) (drop named keys.now))) }
    ensures rows { IfOk result (λ held. known.rows_last held.items ≡ known.rows_held
        (filter_map (held_by_write meta.now (facts world.now)) (writes_of (map arc_value last.now))
        ++ filter_map (known.held_at meta.now (facts world.now)) (drop named keys.now))) }
{
    let mut held = Vec::new(alloc);
    held.reserve(keys.len())?;
    let mut combo = None;
    put_changes(&mut held, &mut combo, meta, world, last)?;
    // those that the writes name stand first
    let (_, more) = keys.split_at(named);
    put_keys(&mut held, &mut combo, meta, world, more)?;
    held.sort_by_key(|row| place_in(row))?;
    Ok(held)
}

fn has_place_of(held: &HeldRow, other: &HeldRow) -> bool
    ensures { result ≡ is_eq (place_cmp held.now.place other.now.place) }
{
    place_in(held).cmp(&place_in(other)).is_eq()
}

fn is_again(held: &HeldRow, later: &[HeldRow]) -> bool
    ensures { result ≡ is_again place_cmp known.place_in held.now later.now }
{
    match later.first() {
        Some(next) => has_place_of(held, next),
        None => false,
    }
}

fn place_left(held: &HeldRow, later: &[HeldRow]) -> Option<RowPlace>
    ensures { result ≡ known.place_left held.now later.now }
{
    if is_again(held, later) {
        None
    } else {
        Some(place_in(held))
    }
}

fn row_left(held: &HeldRow, later: &[HeldRow]) -> Option<Row>
    ensures { result ≡ known.row_left held.now later.now }
{
    if is_again(held, later) || !held.is_there {
        None
    } else {
        Some(held.row)
    }
}

fn places_last(alloc: Global, held: &[HeldRow]) -> Result<Vec<RowPlace>, Memory>
    ensures { IfOk result (λ places. places.items ≡ known.places_last held.now) }
{
    let mut places = Vec::new(alloc);
    places.reserve(held.len())?;
    for i in 0..held.len() {
        put_found(&mut places, place_left(&held[i], &held[i + 1..]))?;
    }
    Ok(places)
}

fn rows_last(alloc: Global, held: &[HeldRow]) -> Result<Vec<Row>, Memory>
    ensures { IfOk result (λ rows. rows.items ≡ known.rows_last held.now) }
{
    let mut rows = Vec::new(alloc);
    rows.reserve(held.len())?;
    for i in 0..held.len() {
        put_found(&mut rows, row_left(&held[i], &held[i + 1..]))?;
    }
    Ok(rows)
}

fn rise(rows: &[Row]) -> bool
    ensures { result ≡ rises row_cmp rows.now }
{
    for i in 1..rows.len() {
        if !rows[i - 1].is_before(&rows[i]) {
            return false;
        }
    }
    true
}

fn ordered(alloc: Global, rows: &[Row]) -> Result<Vec<Row>, Memory>
    ensures { IfOk result (λ ordered. ordered.items ≡ in_order key_cmp key_of rows.now) }
{
    let mut map = BTreeMap::new(alloc);
    for row in rows {
        map.insert(row.key(), *row)?;
    }
    Ok(map.into_values().collect(alloc)?)
}

// Rows in the order of their places are in row order too, unless of a group some are approved further than others.
#[tactic(auto, using(crate::proofs::HeldLemmas::risen))]
fn in_row_order(alloc: Global, rows: Vec<Row>) -> Result<Vec<Row>, Memory>
    ensures { IfOk result (λ ordered. ordered.items ≡ in_order key_cmp key_of rows.items) }
{
    if rise(&rows) {
        return Ok(rows);
    }
    let more = ordered(alloc, &rows)?;
    Ok(more)
}

fn rows_from(alloc: Global, held: &[HeldRow]) -> Result<HeldRows, Memory>
    ensures places { IfOk result (λ rows. rows.places.items ≡ known.places_last held.now) }
    ensures rows { IfOk result (λ rows. rows.rows.items ≡ in_order key_cmp key_of (known.rows_last held.now)) }
{
    let places = places_last(alloc, held)?;
    let rows = in_row_order(alloc, rows_last(alloc, held)?)?;
    Ok(HeldRows { places, rows })
}

/// The places of these keys and the rows of what they hold. Of the keys as many as `named` are those that the last writes name.
pub(crate) fn held_rows(
    alloc: Global,
    meta: &Metadata,
    world: &World,
    last: &[Arc<Change>],
    keys: &[ValueKey],
    named: usize,
) -> Result<HeldRows, Memory>
    requires tree { IsTree (tree (facts world.now) meta.now) }
    requires numbers { length (tree (facts world.now) meta.now) ≡ length meta.now.organisation_units }
    requires within { named ≤ length keys.now }
    requires named { take named keys.now ≡ values_named (writes_of (map arc_value last.now)) }
    ensures places { IfOk result (λ held. held.places.items ≡ value_places meta.now (facts world.now) keys.now) }
    ensures rows { IfOk result (λ held. (before : List LogWrite) → facts world.now ≡ facts_in (before ++ writes_of (map arc_value last.now))
        → held.rows.items ≡ values.rows_of meta.now (facts world.now) keys.now) }
{
    let held = held_in_order(alloc, meta, world, last, keys, named)?;
    let rows = rows_from(alloc, &held)?;
    Ok(rows)
}
