//! The expressions of indicators.

ghost use Rattle.std.specs.Prelude.{◌≡◌, length};
ghost use Rattle.dh_base.specs.Memory.{Finds};
ghost use Rattle.expr_grammar.specs.Answer.{Reading};
ghost use Rattle.meta_rules.specs.Objects.{expr_cause, first_unread, indicator_unread, indicator_with, indicator_in, made_of};

use crate::expr_fault::ExprError;
use crate::object::read_named;
use crate::waiting::{keep, next, waiting};
use dh_base::items::Items;
use dh_metadata::ids::Ids;
use dh_metadata::raw::RawIndicator;
use dh_metadata::records::{Indicator, IndicatorLinks};
use expr_lang::{DayItems, Expr};
use std::alloc::Global;

fn with_links(
    raw: &RawIndicator,
    texts: (Items<u8>, (Expr, Expr)),
    links: IndicatorLinks,
) -> Indicator
    ensures { result ≡ indicator_with raw.now texts.0 texts.1.0 texts.1.1 links }
{
    let (name, (numerator, denominator)) = texts;
    Indicator {
        id: raw.id,
        name,
        numerator,
        denominator,
        indicator_type: links.indicator_type,
        annualized: raw.annualized,
        decimals: raw.decimals,
        sharing: links.sharing,
    }
}

/// An indicator with its expressions.
pub fn indicator(
    alloc: Global,
    ids: &Ids,
    days: &DayItems,
    raw: &RawIndicator,
    links: IndicatorLinks,
) -> Result<Indicator, ExprError>
    ghost reading: { Reading }
    ensures { Finds expr_cause (indicator_unread reading.answer ids.now days.now raw.now)
        (λ made. made ≡ indicator_in reading.answer days.now raw.now links) result }
{
    match read_named(
        alloc,
        ids,
        days,
        raw.id,
        raw.name.as_slice(),
        raw.numerator.as_slice(),
        raw.denominator.as_slice(),
    ) {
        Ok(texts) => Ok(with_links(raw, texts, links)),
        Err(fault) => {
            drop(links);
            Err(fault)
        }
    }
}

/// All indicators with their expressions. `links` has the references of each.
pub fn indicators(
    alloc: Global,
    ids: &Ids,
    days: &DayItems,
    raw: &[RawIndicator],
    links: Items<IndicatorLinks>,
) -> Result<Vec<Indicator>, ExprError>
    ghost reading: { Reading }
    requires { length raw.now ≡ length links }
    ensures { Finds expr_cause (first_unread (indicator_unread reading.answer ids.now days.now) raw.now)
        (λ made. made.items ≡ made_of (indicator_in reading.answer days.now) raw.now links) result }
{
    let mut rest = waiting(alloc, links.items)?;
    let mut made = Vec::with_capacity(alloc, raw.len())?;
    for each in raw {
        let own = next(&mut rest);
        let one = indicator(alloc, ids, days, each, own);
        keep(&mut made, one)?;
    }
    Ok(made)
}
