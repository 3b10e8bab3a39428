//! The rows.

ghost use Rattle.std.specs.Prelude.{◌≡◌, ◌<◌, true, [], ◌∷◌, ◌++◌, length, flat_map, slice_index_or, IfOk, OnOk};
ghost use Rattle.std.specs.List.{All};
ghost use Rattle.dh_metadata.specs.Linked.{IsBelow};
ghost use Rattle.query_answer.specs.Texts.{in_quotes, more_texts};
ghost use Rattle.query_answer.specs.BodyRows.{IsRow, period_texts, unit_texts, unit_id, dx_text};
ghost use Rattle.query_answer.specs.Written.{start_text, IsStart, row_text, more_row, rows_text};

use crate::texts::{push_more, push_quoted};
use dh_base::items::Items;
use dh_base::memory::Memory;
use dh_metadata::metadata::Metadata;
use dh_periods::Period;
use query_lang::Dx;
use std::alloc::Global;

/// One row of an answer.
#[derive(Drop)]
pub struct AnswerRow {
    /// The place of its `dx` item in the query.
    pub dx: usize,
    /// Its period, unless periods are a filter.
    pub period: Option<Period>,
    /// Its unit by number, unless units are a filter.
    pub unit: Option<u32>,
    /// The text of its value.
    pub value: Items<u8>,
}

/// What the rows of a `dx` item and a period begin with. It is written once for as many of them as
/// stand side by side.
#[derive(Drop)]
pub struct RowStart {
    pub dx: usize,
    pub period: Option<Period>,
    pub text: Vec<u8>,
}

#[tactic(auto, unfolding(crate::specs::Texts::more_texts))]
fn push_period(alloc: Global, text: &mut Vec<u8>, period: Option<Period>) -> Result<(), Memory>
    ensures { OnOk result (text.new.items ≡ text.old.items ++ more_texts (period_texts period)) }
{
    match period {
        None => Ok(()),
        Some(period) => {
            let printed = period.print(alloc)?;
            push_more(alloc, text, printed.as_slice())
        }
    }
}

#[tactic(auto, unfolding(crate::specs::Texts::more_texts))]
fn push_unit(
    alloc: Global,
    text: &mut Vec<u8>,
    meta: &Metadata,
    unit: Option<u32>,
) -> Result<(), Memory>
    requires { IsBelow (length meta.now.organisation_units) unit }
    ensures { OnOk result (text.new.items ≡ text.old.items ++ more_texts (unit_texts meta.now unit)) }
{
    match unit {
        None => Ok(()),
        Some(unit) => {
            let id = meta.unit(unit).id.bytes();
            push_more(alloc, text, &id)
        }
    }
}

fn text_at(dx: &[Dx], place: usize) -> &[u8]
    requires { place < length dx.now }
    ensures { result.now ≡ dx_text dx.now place }
{
    dx[place].text.as_slice()
}

#[tactic(auto, unfolding(crate::specs::Written::start_text))]
fn start_text(
    alloc: Global,
    dx: &[Dx],
    place: usize,
    period: Option<Period>,
) -> Result<Vec<u8>, Memory>
    requires { place < length dx.now }
    ensures { IfOk result (λ text. text.items ≡ start_text dx.now place period) }
{
    let mut text = Vec::new(alloc);
    text.push(b'[')?;
    push_quoted(alloc, &mut text, text_at(dx, place))?;
    push_period(alloc, &mut text, period)?;
    Ok(text)
}

fn row_start(alloc: Global, dx: &[Dx], row: &AnswerRow) -> Result<RowStart, Memory>
    requires { row.now.dx < length dx.now }
    ensures start { IfOk result (λ start. IsStart dx.now start) }
    ensures dx { IfOk result (λ start. start.dx ≡ row.now.dx) }
    ensures period { IfOk result (λ start. start.period ≡ row.now.period) }
{
    let text = start_text(alloc, dx, row.dx, row.period)?;
    Ok(RowStart {
        dx: row.dx,
        period: row.period,
        text,
    })
}

fn is_one_period(one: Option<Period>, other: Option<Period>) -> bool
    ensures { result ≡ true → one ≡ other }
{
    match (one, other) {
        (Some(one), Some(other)) => one == other,
        (None, None) => true,
        _ => false,
    }
}

/// The start of a row: the last one, where it serves again.
fn start_for(alloc: Global, last: RowStart, dx: &[Dx], row: &AnswerRow) -> Result<RowStart, Memory>
    requires row { row.now.dx < length dx.now }
    requires last { IsStart dx.now last }
    ensures start { IfOk result (λ start. IsStart dx.now start) }
    ensures dx { IfOk result (λ start. start.dx ≡ row.now.dx) }
    ensures period { IfOk result (λ start. start.period ≡ row.now.period) }
{
    if last.dx == row.dx && is_one_period(last.period, row.period) {
        return Ok(last);
    }
    row_start(alloc, dx, row)
}

/// A row after its start.
fn push_rest(
    alloc: Global,
    text: &mut Vec<u8>,
    meta: &Metadata,
    row: &AnswerRow,
) -> Result<(), Memory>
    requires { IsBelow (length meta.now.organisation_units) row.now.unit }
    ensures { OnOk result (text.new.items
        ≡ text.old.items ++ (more_texts (unit_texts meta.now row.now.unit) ++ 44 ∷ (in_quotes row.now.value ++ 93 ∷ []))) }
{
    push_unit(alloc, text, meta, row.unit)?;
    push_more(alloc, text, row.value.as_slice())?;
    text.push(b']')?;
    Ok(())
}

fn push_row(
    alloc: Global,
    text: &mut Vec<u8>,
    start: &RowStart,
    meta: &Metadata,
    dx: &[Dx],
    row: &AnswerRow,
) -> Result<(), Memory>
    requires row { IsRow meta.now dx.now row.now }
    requires start { IsStart dx.now start.now }
    requires dx { start.now.dx ≡ row.now.dx }
    requires period { start.now.period ≡ row.now.period }
    ensures { OnOk result (text.new.items ≡ text.old.items ++ row_text meta.now dx.now row.now) }
{
    text.extend_from_slice(start.text.as_slice())?;
    push_rest(alloc, text, meta, row)?;
    Ok(())
}

fn push_more_rows(
    alloc: Global,
    text: &mut Vec<u8>,
    start: RowStart,
    meta: &Metadata,
    dx: &[Dx],
    rows: &[AnswerRow],
) -> Result<(), Memory>
    requires rows { All (IsRow meta.now dx.now) rows.now }
    requires start { IsStart dx.now start }
    ensures { OnOk result (text.new.items ≡ text.old.items ++ flat_map (more_row meta.now dx.now) rows.now) }
{
    let mut start = start;
    for row in rows {
        start = start_for(alloc, start, dx, row)?;
        text.push(b',')?;
        push_row(alloc, text, &start, meta, dx, row)?;
    }
    Ok(())
}

/// The rows, each an array of texts.
#[tactic(auto, using(crate::proofs::RowLemmas::rows_written, crate::proofs::RowLemmas::no_rows))]
pub fn push_rows(
    alloc: Global,
    text: &mut Vec<u8>,
    meta: &Metadata,
    dx: &[Dx],
    rows: &[AnswerRow],
) -> Result<(), Memory>
    requires { All (IsRow meta.now dx.now) rows.now }
    ensures { OnOk result (text.new.items ≡ text.old.items ++ rows_text meta.now dx.now rows.now) }
{
    let Some((first, more)) = rows.split_first() else {
        text.extend_from_slice(b"[]")?;
        return Ok(());
    };
    let start = row_start(alloc, dx, first)?;
    text.push(b'[')?;
    push_row(alloc, text, &start, meta, dx, first)?;
    push_more_rows(alloc, text, start, meta, dx, more)?;
    text.push(b']')?;
    Ok(())
}
