//! The expressions of validation rules.

ghost use Rattle.std.specs.Prelude.{◌≡◌, length};
ghost use Rattle.dh_base.specs.Memory.{Finds};
ghost use Rattle.expr_grammar.specs.Answer.{Reading};
ghost use Rattle.meta_rules.specs.Objects.{expr_cause, first_unread, rule_unread, rule_with, rule_in, made_of};

use crate::expr_fault::ExprError;
use crate::object::read_named;
use crate::waiting::{keep, next, waiting};
use dh_base::items::Items;
use dh_metadata::ids::Ids;
use dh_metadata::raw::RawRule;
use dh_metadata::records::Rule;
use dh_sharing::rule::Sharing;
use expr_lang::{DayItems, Expr};
use std::alloc::Global;

fn with_links(raw: &RawRule, texts: (Items<u8>, (Expr, Expr)), links: Sharing) -> Rule
    ensures { result ≡ rule_with raw.now texts.0 texts.1.0 texts.1.1 links }
{
    let (name, (left, right)) = texts;
    Rule {
        id: raw.id,
        name,
        operator: raw.operator,
        period_type: raw.period_type,
        left_side: (left, raw.left_side.1),
        right_side: (right, raw.right_side.1),
        sharing: links,
    }
}

/// A validation rule with its expressions.
pub fn rule(
    alloc: Global,
    ids: &Ids,
    days: &DayItems,
    raw: &RawRule,
    links: Sharing,
) -> Result<Rule, ExprError>
    ghost reading: { Reading }
    ensures { Finds expr_cause (rule_unread reading.answer ids.now days.now raw.now)
        (λ made. made ≡ rule_in reading.answer days.now raw.now links) result }
{
    match read_named(
        alloc,
        ids,
        days,
        raw.id,
        raw.name.as_slice(),
        raw.left_side.0.as_slice(),
        raw.right_side.0.as_slice(),
    ) {
        Ok(texts) => Ok(with_links(raw, texts, links)),
        Err(fault) => {
            drop(links);
            Err(fault)
        }
    }
}

/// All validation rules with their expressions. `links` has how each is shared.
pub fn rules(
    alloc: Global,
    ids: &Ids,
    days: &DayItems,
    raw: &[RawRule],
    links: Items<Sharing>,
) -> Result<Vec<Rule>, ExprError>
    ghost reading: { Reading }
    requires { length raw.now ≡ length links }
    ensures { Finds expr_cause (first_unread (rule_unread reading.answer ids.now days.now) raw.now)
        (λ made. made.items ≡ made_of (rule_in reading.answer days.now) raw.now links) result }
{
    let mut rest = waiting(alloc, links.items)?;
    let mut made = Vec::with_capacity(alloc, raw.len())?;
    for each in raw {
        let own = next(&mut rest);
        let one = rule(alloc, ids, days, each, own);
        keep(&mut made, one)?;
    }
    Ok(made)
}
