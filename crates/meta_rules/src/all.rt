//! All expressions of metadata.

ghost use Rattle.std.specs.Prelude.{◌≡◌, length};
ghost use Rattle.expr_grammar.specs.Answer.{Reading};
ghost use Rattle.meta_rules.specs.Days.{days_of};
ghost use Rattle.dh_base.specs.Memory.{Finds};
ghost use Rattle.meta_rules.specs.Objects.{expr_cause};
ghost use Rattle.meta_rules.specs.All.{expressions_unread, expressions_of};

use crate::both::both;
use crate::days::days_of;
use crate::expr_fault::ExprError;
use crate::indicators::indicators;
use crate::program_indicators::program_indicators;
use crate::rules::rules;
use dh_base::items::Items;
use dh_metadata::ids::Ids;
use dh_metadata::parts::MetaParts;
use dh_metadata::records::{
    Indicator, IndicatorLinks, ProgramIndicator, ProgramIndicatorLinks, Rule,
};
use dh_sharing::rule::Sharing;
use std::alloc::Global;

/// The references of the objects that have expressions.
#[derive(Drop)]
pub struct Unread {
    pub indicators: Items<IndicatorLinks>,
    pub validation_rules: Items<Sharing>,
    pub program_indicators: Items<ProgramIndicatorLinks>,
}

/// The objects that have expressions.
#[derive(Drop)]
pub struct Expressions {
    pub indicators: Items<Indicator>,
    pub validation_rules: Items<Rule>,
    pub program_indicators: Items<ProgramIndicator>,
}

// The objects as they are handed on. This can't fail.
fn together(all: (Vec<Indicator>, (Vec<Rule>, Vec<ProgramIndicator>))) -> Expressions
    ensures { result ≡ record { indicators = all.0.items; validation_rules = all.1.0.items; program_indicators = all.1.1.items } }
{
    let (indicators, (rules, program_indicators)) = all;
    Expressions {
        indicators: Items::from(indicators),
        validation_rules: Items::from(rules),
        program_indicators: Items::from(program_indicators),
    }
}

/// Reads all expressions of a file by the grammar. `links` has the references of each object.
pub fn read_all(
    alloc: Global,
    ids: &Ids,
    parts: &MetaParts,
    links: Unread,
) -> Result<Expressions, ExprError>
    ghost reading: { Reading }
    requires indicators { length parts.now.indicators ≡ length links.indicators }
    requires validation_rules { length parts.now.validation_rules ≡ length links.validation_rules }
    requires program_indicators { length parts.now.program_indicators ≡ length links.program_indicators }
    ensures { Finds expr_cause (expressions_unread reading.answer ids.now parts.now)
        (λ made. made ≡ expressions_of reading.answer parts.now links) result }
{
    let days = match days_of(alloc, parts) {
        Ok(days) => days,
        Err(_) => {
            drop(links);
            return Err(ExprError::Memory);
        }
    };
    let Unread {
        indicators: own,
        validation_rules,
        program_indicators: of_programs,
    } = links;
    let indicators = indicators(alloc, ids, &days, parts.indicators.as_slice(), own);
    let rules = rules(
        alloc,
        ids,
        &days,
        parts.validation_rules.as_slice(),
        validation_rules,
    );
    let program_indicators = program_indicators(
        alloc,
        ids,
        &days,
        parts.program_indicators.as_slice(),
        of_programs,
    );
    drop(days);
    let later = both(rules, program_indicators);
    match both(indicators, later) {
        Ok(all) => Ok(together(all)),
        Err(fault) => Err(fault),
    }
}
