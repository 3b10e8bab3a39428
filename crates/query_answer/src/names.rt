//! Dimensions and names.

ghost use Rattle.std.specs.Prelude.{◌≡◌, ◌<◌, [], ◌∷◌, ◌++◌, length, map, IfOk, OnOk};
ghost use Rattle.std.specs.List.{All};
ghost use Rattle.serde_json.specs.View.{view, members_view};
ghost use Rattle.serde_json.specs.Data.{put as with_member};
ghost use Rattle.dh_metadata.specs.Linked.{AreBelow};
ghost use Rattle.query_answer.specs.Texts.{text_of_bytes, texts_of};
ghost use Rattle.query_answer.specs.Names.{IsThere, AreUnits, dx_name, name_of, put_name, put_names, dx_named, period_named, unit_named, ids_of};
ghost use Rattle.query_answer.specs.Names.{dimensions_of, meta_of};

use crate::members::with_value;
use crate::texts::text_value;
use dh_base::memory::Memory;
use dh_metadata::metadata::Metadata;
use dh_periods::Period;
use query_lang::{Dx, DxKind, Query};
use serde_json::{Map, Value, put};
use std::alloc::Global;

/// The name of a `dx` item: the object's, or the item's text at an operand and a rate.
fn name_of_dx<'a>(meta: &'a Metadata, dx: &'a Dx) -> &'a [u8]
    requires { IsThere meta.now dx.now }
    ensures { result.now ≡ dx_name meta.now dx.now }
{
    if dx.part.is_some() {
        return dx.text.as_slice();
    }
    match dx.kind {
        DxKind::Element => meta.element(dx.number).name.as_slice(),
        DxKind::Indicator => meta.indicator(dx.number).name.as_slice(),
        DxKind::ProgramIndicator => meta.program_indicator(dx.number).name.as_slice(),
        DxKind::Rate(_) => dx.text.as_slice(),
    }
}

#[tactic(auto, unfolding(crate::specs::Names::name_of))]
fn name_value(alloc: Global, name: &[u8]) -> Result<Value, Memory>
    ensures { IfOk result (λ v. view v ≡ name_of name.now) }
{
    let text = text_value(alloc, name)?;
    let members = with_value(alloc, Map::new(alloc), "name", text)?;
    Ok(Value::Object(members))
}

/// A name under an identifier, in the place of one that is there, and the identifier after those before it.
fn add_name(
    alloc: Global,
    items: &mut Map<String, Value>,
    ids: &mut Vec<Value>,
    id: &[u8],
    name: &[u8],
) -> Result<(), Memory>
    ensures name { OnOk result (members_view items.new.entries ≡ put_name (id.now, name.now) (members_view items.old.entries)) }
    ensures id { OnOk result (map view ids.new.items ≡ map view ids.old.items ++ text_of_bytes id.now ∷ []) }
{
    let named = name_value(alloc, name)?;
    let key = String::from_utf8_lossy(alloc, id)?;
    put(items, alloc, key.as_str(), named)?;
    ids.push(Value::String(key))?;
    Ok(())
}

fn add_dx(
    alloc: Global,
    items: &mut Map<String, Value>,
    meta: &Metadata,
    dx: &[Dx],
) -> Result<Vec<Value>, Memory>
    requires { All (IsThere meta.now) dx.now }
    ensures ids { IfOk result (λ list. map view list.items ≡ ids_of (dx_named meta.now dx.now)) }
    ensures names { OnOk result (members_view items.new.entries ≡ put_names (dx_named meta.now dx.now) (members_view items.old.entries)) }
{
    let mut ids = Vec::new(alloc);
    for each in dx {
        let name = name_of_dx(meta, each);
        add_name(alloc, items, &mut ids, each.text.as_slice(), name)?;
    }
    Ok(ids)
}

fn add_periods(
    alloc: Global,
    items: &mut Map<String, Value>,
    periods: &[Period],
) -> Result<Vec<Value>, Memory>
    ensures ids { IfOk result (λ list. map view list.items ≡ ids_of (period_named periods.now)) }
    ensures names { OnOk result (members_view items.new.entries ≡ put_names (period_named periods.now) (members_view items.old.entries)) }
{
    let mut ids = Vec::new(alloc);
    for each in periods {
        let text = each.print(alloc)?;
        let text = text.as_slice();
        add_name(alloc, items, &mut ids, text, text)?;
    }
    Ok(ids)
}

fn add_units(
    alloc: Global,
    items: &mut Map<String, Value>,
    meta: &Metadata,
    units: &[u32],
) -> Result<Vec<Value>, Memory>
    requires { AreUnits meta.now units.now }
    ensures ids { IfOk result (λ list. map view list.items ≡ ids_of (unit_named meta.now units.now)) }
    ensures names { OnOk result (members_view items.new.entries ≡ put_names (unit_named meta.now units.now) (members_view items.old.entries)) }
{
    let mut ids = Vec::new(alloc);
    for each in units {
        let unit = meta.unit(*each);
        let id = unit.id.bytes();
        add_name(alloc, items, &mut ids, &id, unit.name.as_slice())?;
    }
    Ok(ids)
}

/// The dimensions of what a query asks. The names go to the others.
#[tactic(auto, unfolding(crate::specs::Names::dimensions_of))]
fn dimensions(
    alloc: Global,
    items: &mut Map<String, Value>,
    meta: &Metadata,
    query: &Query,
) -> Result<Value, Memory>
    requires dx { All (IsThere meta.now) query.now.dx }
    requires units { AreUnits meta.now query.now.units.items }
    ensures dimensions { IfOk result (λ v. view v ≡ dimensions_of (ids_of (dx_named meta.now query.now.dx))
        (ids_of (unit_named meta.now query.now.units.items)) (ids_of (period_named query.now.periods.items))) }
    ensures names { OnOk result (members_view items.new.entries ≡ put_names (unit_named meta.now query.now.units.items)
        (put_names (period_named query.now.periods.items) (put_names (dx_named meta.now query.now.dx) (members_view items.old.entries)))) }
{
    let ids = add_dx(alloc, items, meta, query.dx.as_slice())?;
    let members = with_value(alloc, Map::new(alloc), "dx", Value::Array(ids))?;
    let ids = add_periods(alloc, items, query.periods.items.as_slice())?;
    let members = with_value(alloc, members, "pe", Value::Array(ids))?;
    let ids = add_units(alloc, items, meta, query.units.items.as_slice())?;
    let members = with_value(alloc, members, "ou", Value::Array(ids))?;
    Ok(Value::Object(members))
}

/// The dimensions and the names of what a query asks.
#[tactic(auto, unfolding(crate::specs::Names::meta_of))]
pub fn meta_data(alloc: Global, meta: &Metadata, query: &Query) -> Result<Value, Memory>
    requires dx { All (IsThere meta.now) query.now.dx }
    requires units { AreUnits meta.now query.now.units.items }
    ensures { IfOk result (λ v. view v ≡ meta_of meta.now query.now) }
{
    let mut items = Map::new(alloc);
    let dimensions = dimensions(alloc, &mut items, meta, query)?;
    let members = with_value(alloc, Map::new(alloc), "items", Value::Object(items))?;
    let members = with_value(alloc, members, "dimensions", dimensions)?;
    Ok(Value::Object(members))
}
