//! Stages and aggregation of program indicators.

ghost use Rattle.std.specs.Prelude.{◌≡◌};
ghost use Rattle.std.specs.List.{list_any};
ghost use Rattle.expr_lang.specs.Expr.{items_in};
ghost use Rattle.meta_rules.specs.Stages.{IsStageOf, is_stage_of, is_foreign, is_foreign_filter, is_aggregated, indicator_broken, stages_broken};

use crate::fault::{BrokenRule, RuleFault};
use crate::item::item_at;
use crate::names::{is_known, stage_before};
use dh_base::plain::AggType;
use dh_base::uid::Uid;
use dh_metadata::ids::Ids;
use dh_metadata::kind::Kind;
use dh_metadata::records::{ProgramIndicator, Stage};
use expr_lang::{Expr, Item};

/// Whether the identifier is that of a stage of the program.
fn is_stage_of(ids: &Ids, stages: &[Stage], program: u32, stage: Uid) -> bool
    ensures { result ≡ is_stage_of ids.now stages.now program stage }
{
    match ids.find(Kind::ProgramStage, stage) {
        None => false,
        Some(place) => match item_at(stages, place as usize) {
            None => false,
            Some(found) => found.program == program,
        },
    }
}

/// Whether an item names a stage that isn't of the program. A stage may be known to be of it.
#[tactic(auto, using(crate::proofs::StageLemmas::own_so))]
fn is_foreign(ids: &Ids, stages: &[Stage], program: u32, known: Option<Uid>, item: &Item) -> bool
    requires { IsStageOf ids.now stages.now program known }
    ensures { result ≡ is_foreign ids.now stages.now program item.now }
{
    match item {
        Item::StageElement { stage, element: _ } => {
            !is_known(known, *stage) && !is_stage_of(ids, stages, program, *stage)
        }
        _ => false,
    }
}

fn names_foreign(ids: &Ids, stages: &[Stage], program: u32, expr: &Expr) -> bool
    ensures { result ≡ list_any (is_foreign ids.now stages.now program) (items_in expr.now) }
{
    let items = expr.items();
    for n in 0..items.len() {
        let known = stage_before(items, n);
        if is_foreign(ids, stages, program, known, &items[n]) {
            return true;
        }
    }
    false
}

fn is_foreign_filter(ids: &Ids, stages: &[Stage], program: u32, filter: &Option<Expr>) -> bool
    ensures { result ≡ is_foreign_filter ids.now stages.now program filter.now }
{
    match filter {
        None => false,
        Some(expr) => names_foreign(ids, stages, program, expr),
    }
}

fn is_aggregated(kind: AggType) -> bool
    ensures { result ≡ is_aggregated kind }
{
    match kind {
        AggType::Sum => true,
        AggType::Average => true,
        AggType::Count => true,
        AggType::Min => true,
        AggType::Max => true,
        _ => false,
    }
}

fn broken(ids: &Ids, stages: &[Stage], indicator: &ProgramIndicator) -> Option<RuleFault>
    ensures { result ≡ indicator_broken ids.now stages.now indicator.now }
{
    let uid = Some(indicator.id);
    if names_foreign(ids, stages, indicator.program, &indicator.expression)
        || is_foreign_filter(ids, stages, indicator.program, &indicator.filter)
    {
        return Some(RuleFault {
            uid,
            which: BrokenRule::Stage,
        });
    }
    if !is_aggregated(indicator.aggregation_type) {
        return Some(RuleFault {
            uid,
            which: BrokenRule::Aggregation,
        });
    }
    None
}

/// The first program indicator that names a stage of another program, or is aggregated in a way that
/// program indicators don't have.
pub fn first_broken(
    ids: &Ids,
    stages: &[Stage],
    indicators: &[ProgramIndicator],
) -> Option<RuleFault>
    ensures { result ≡ stages_broken ids.now stages.now indicators.now }
{
    for indicator in indicators {
        let found = broken(ids, stages, indicator);
        if found.is_some() {
            return found;
        }
    }
    None
}
