//! The expressions of program indicators.

ghost use Rattle.std.specs.Prelude.{◌≡◌, length, option_map};
ghost use Rattle.dh_base.specs.Memory.{Finds};
ghost use Rattle.expr_grammar.specs.Answer.{Reading};
ghost use Rattle.expr_lang.specs.declared.tree.Place.TheVariants.{Program};
ghost use Rattle.expr_lang.specs.declared.tree.Sort.TheVariants.{Number, Truth};
ghost use Rattle.meta_rules.specs.Read.{expr_in};
ghost use Rattle.meta_rules.specs.Objects.{expr_cause, first_unread, program_indicator_unread, program_indicator_with};
ghost use Rattle.meta_rules.specs.Objects.{program_indicator_in, filter_unread, made_of};

use crate::expr_fault::ExprError;
use crate::object::copied;
use crate::read::read;
use crate::waiting::{keep, next, waiting};
use dh_base::items::Items;
use dh_base::uid::Uid;
use dh_metadata::ids::Ids;
use dh_metadata::raw::RawProgramIndicator;
use dh_metadata::records::{ProgramIndicator, ProgramIndicatorLinks};
use expr_lang::{DayItems, Expr, Place, Sort};
use std::alloc::Global;

fn read_filter(
    alloc: Global,
    ids: &Ids,
    days: &DayItems,
    uid: Uid,
    filter: &Option<Items<u8>>,
) -> Result<Option<Expr>, ExprError>
    ghost reading: { Reading }
    ensures { Finds expr_cause (filter_unread reading.answer ids.now days.now uid filter.now)
        (λ read. read ≡ option_map (expr_in reading.answer days.now Program Truth) filter.now) result }
{
    match filter {
        None => Ok(None),
        Some(text) => Ok(Some(read(
            alloc,
            ids,
            days,
            uid,
            text.as_slice(),
            Place::Program,
            Sort::Truth,
        )?)),
    }
}

// The expression of a program indicator and its filter.
fn expressions(
    alloc: Global,
    ids: &Ids,
    days: &DayItems,
    raw: &RawProgramIndicator,
) -> Result<(Expr, Option<Expr>), ExprError>
    ghost reading: { Reading }
    ensures { Finds expr_cause (program_indicator_unread reading.answer ids.now days.now raw.now) (λ read.
        (read.0 ≡ expr_in reading.answer days.now Program Number raw.now.expression)
        × (read.1 ≡ option_map (expr_in reading.answer days.now Program Truth) raw.now.filter)) result }
{
    let expression = read(
        alloc,
        ids,
        days,
        raw.id,
        raw.expression.as_slice(),
        Place::Program,
        Sort::Number,
    )?;
    match read_filter(alloc, ids, days, raw.id, &raw.filter) {
        Ok(filter) => Ok((expression, filter)),
        Err(fault) => {
            drop(expression);
            Err(fault)
        }
    }
}

fn texts(
    alloc: Global,
    ids: &Ids,
    days: &DayItems,
    raw: &RawProgramIndicator,
) -> Result<(Items<u8>, (Expr, Option<Expr>)), ExprError>
    ghost reading: { Reading }
    ensures { Finds expr_cause (program_indicator_unread reading.answer ids.now days.now raw.now) (λ texts. (texts.0 ≡ raw.now.name)
        × (texts.1.0 ≡ expr_in reading.answer days.now Program Number raw.now.expression)
        × (texts.1.1 ≡ option_map (expr_in reading.answer days.now Program Truth) raw.now.filter)) result }
{
    let name = copied(alloc, raw.name.as_slice())?;
    match expressions(alloc, ids, days, raw) {
        Ok(read) => Ok((name, read)),
        Err(fault) => {
            drop(name);
            Err(fault)
        }
    }
}

fn with_links(
    raw: &RawProgramIndicator,
    texts: (Items<u8>, (Expr, Option<Expr>)),
    links: ProgramIndicatorLinks,
) -> ProgramIndicator
    ensures { result ≡ program_indicator_with raw.now texts.0 texts.1.0 texts.1.1 links }
{
    let (name, (expression, filter)) = texts;
    ProgramIndicator {
        id: raw.id,
        name,
        program: links.program,
        expression,
        filter,
        aggregation_type: raw.aggregation_type,
        analytics_type: raw.analytics_type,
        decimals: raw.decimals,
        sharing: links.sharing,
    }
}

/// A program indicator with its expressions.
pub fn program_indicator(
    alloc: Global,
    ids: &Ids,
    days: &DayItems,
    raw: &RawProgramIndicator,
    links: ProgramIndicatorLinks,
) -> Result<ProgramIndicator, ExprError>
    ghost reading: { Reading }
    ensures { Finds expr_cause (program_indicator_unread reading.answer ids.now days.now raw.now)
        (λ made. made ≡ program_indicator_in reading.answer days.now raw.now links) result }
{
    match texts(alloc, ids, days, raw) {
        Ok(texts) => Ok(with_links(raw, texts, links)),
        Err(fault) => {
            drop(links);
            Err(fault)
        }
    }
}

/// All program indicators with their expressions. `links` has the references of each.
pub fn program_indicators(
    alloc: Global,
    ids: &Ids,
    days: &DayItems,
    raw: &[RawProgramIndicator],
    links: Items<ProgramIndicatorLinks>,
) -> Result<Vec<ProgramIndicator>, ExprError>
    ghost reading: { Reading }
    requires { length raw.now ≡ length links }
    ensures { Finds expr_cause (first_unread (program_indicator_unread reading.answer ids.now days.now) raw.now)
        (λ made. made.items ≡ made_of (program_indicator_in reading.answer days.now) raw.now links) result }
{
    let mut rest = waiting(alloc, links.items)?;
    let mut made = Vec::with_capacity(alloc, raw.len())?;
    for each in raw {
        let own = next(&mut rest);
        let one = program_indicator(alloc, ids, days, each, own);
        keep(&mut made, one)?;
    }
    Ok(made)
}
