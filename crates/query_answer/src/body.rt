//! The body.

ghost use Rattle.std.specs.Prelude.{◌≡◌, ◌++◌, IfOk, OnOk};
ghost use Rattle.std.specs.List.{All};
ghost use Rattle.serde_json.specs.Written.{compact_text};
ghost use Rattle.query_answer.specs.Names.{IsThere, AreUnits};
ghost use Rattle.query_answer.specs.Written.{before_text, after_text};
ghost use Rattle.query_answer.specs.Body.{told_of, body_of, IsAnswer};

use crate::body_rows::{AnswerRow, push_rows};
use crate::heads::push_heads;
use crate::names::meta_data;
use crate::texts::push_value;
use dh_base::items::Items;
use dh_base::memory::Memory;
use dh_metadata::metadata::Metadata;
use query_lang::Query;
use serde_json::Value;
use std::alloc::Global;

/// Dimensions and names, where they are asked for.
fn push_told(
    alloc: Global,
    text: &mut Vec<u8>,
    meta: &Metadata,
    query: &Query,
) -> Result<(), Memory>
    requires dx { All (IsThere meta.now) query.now.dx }
    requires units { AreUnits meta.now query.now.units.items }
    ensures { OnOk result (text.new.items ≡ text.old.items ++ compact_text (told_of query.now.meta meta.now query.now)) }
{
    if query.meta {
        let told = meta_data(alloc, meta, query)?;
        return push_value(alloc, text, told);
    }
    text.extend_from_slice(b"{}")?;
    Ok(())
}

/// What stands before the array of the rows.
fn push_before(
    alloc: Global,
    text: &mut Vec<u8>,
    meta: &Metadata,
    query: &Query,
    height: u64,
) -> Result<(), Memory>
    requires dx { All (IsThere meta.now) query.now.dx }
    requires units { AreUnits meta.now query.now.units.items }
    ensures { OnOk result (text.new.items ≡ text.old.items ++ before_text meta.now query.now height) }
{
    push_heads(text, query.periods.filter, query.units.filter)?;
    text.extend_from_slice(b",\"height\":")?;
    push_value(alloc, text, Value::from(height))?;
    text.extend_from_slice(b",\"metaData\":")?;
    push_told(alloc, text, meta, query)?;
    text.extend_from_slice(b",\"rows\":")?;
    Ok(())
}

/// What stands after the rows: how many columns there are, where periods and units may be filters.
#[tactic(auto, unfolding(crate::specs::Written::after_text, json::specs::Print::escape_byte))]
fn ending(periods: bool, units: bool) -> &'static [u8]
    ensures { result.now ≡ after_text periods units }
{
    match (periods, units) {
        (true, true) => b",\"width\":2}",
        (false, false) => b",\"width\":4}",
        _ => b",\"width\":3}",
    }
}

/// The text of the body that answers a query with these rows. The rows, which may be many, are
/// written where they stand in it, and no tree is made of them.
#[tactic(auto, using(crate::proofs::BodyLemmas::body_written))]
pub fn body(
    alloc: Global,
    meta: &Metadata,
    query: &Query,
    rows: &[AnswerRow],
) -> Result<Items<u8>, Memory>
    requires { IsAnswer meta.now query.now rows.now }
    ensures { IfOk result (λ text. text ≡ compact_text (body_of meta.now query.now rows.now)) }
{
    let mut text = Vec::new(alloc);
    push_before(alloc, &mut text, meta, query, rows.len() as u64)?;
    push_rows(alloc, &mut text, meta, query.dx.as_slice(), rows)?;
    text.extend_from_slice(ending(query.periods.filter, query.units.filter))?;
    Ok(Items::from(text))
}
