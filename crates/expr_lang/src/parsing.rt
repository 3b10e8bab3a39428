//! Reading expressions.

ghost use Rattle.std.specs.Prelude.{Some, None};
ghost use Rattle.dh_base.specs.Memory.{Answers};
ghost use Rattle.expr_lang.specs.Causes.{cause_of, stop_of};
ghost use Rattle.expr_lang.specs.Expr.{IsOf, IsJudged, parse_of};
ghost use Rattle.expr_lang.specs.Parse.{nodes_of_text, judged, accepted, Accepts};
ghost use Rattle.expr_lang.specs.Survey.{survey_of};

use crate::build::build;
use crate::days::DayItems;
use crate::expr::Expr;
use crate::fault::{ExprFault, ReadFault};
use crate::reading::{Nodes, read};
use crate::survey::{Known, misfit_as};
use crate::tree::{Place, Sort};
use std::alloc::Global;

const MOST_BYTES: usize = 4096;

const MOST_DEPTH: u64 = 512;

/// The nodes of a text of at most 4,096 bytes.
#[tactic(auto, unfolding(crate::specs::Parse::nodes_of_text))]
fn nodes_of(alloc: Global, text: &[u8], place: Place) -> Result<Nodes, ReadFault>
    ensures { Answers stop_of (nodes_of_text place text.now) result }
{
    if text.len() <= MOST_BYTES {
        return read(alloc, text, place);
    }
    match read(alloc, &text[..MOST_BYTES], place) {
        Ok(_) => Err(ReadFault::Syntax(MOST_BYTES)),
        Err(fault) => Err(fault),
    }
}

/// Whether what is read isn't too deep and its sorts fit.
fn judge(nodes: &Nodes, known: Known, wanted: Option<Sort>) -> Result<(), ExprFault>
    ensures { IsJudged nodes.now (judged known wanted nodes.now) result }
{
    if known.depth > MOST_DEPTH {
        return Err(ExprFault::TooDeep { at: 0 });
    }
    if let Some(at) = nodes.crowded {
        return Err(ExprFault::TooDeep { at });
    }
    if let Some(at) = misfit_as(known, wanted) {
        return Err(ExprFault::Sort { at });
    }
    Ok(())
}

/// The expression with these nodes, unless it is too deep or its sorts don't fit.
fn judged_with(
    alloc: Global,
    text: &[u8],
    days: &DayItems,
    nodes: &Nodes,
    wanted: Option<Sort>,
) -> Result<Expr, ExprFault>
    ensures { Accepts (λ expr nodes. IsOf text.now days.now expr nodes) result (judged (survey_of text.now days.now nodes.now.nodes) wanted nodes.now) }
{
    let (known, expr) = build(alloc, text, days, nodes.nodes.as_slice())?;
    judge(nodes, known, wanted)?;
    Ok(expr)
}

#[tactic(auto, unfolding(crate::specs::Parse::accepted))]
fn whole(
    alloc: Global,
    text: &[u8],
    place: Place,
    days: &DayItems,
    wanted: Option<Sort>,
) -> Result<Expr, ExprFault>
    ensures { Accepts (λ expr nodes. IsOf text.now days.now expr nodes) result (accepted place days.now wanted text.now) }
{
    match nodes_of(alloc, text, place) {
        Err(ReadFault::Syntax(at)) => Err(ExprFault::Syntax { at }),
        Err(ReadFault::Memory) => Err(ExprFault::Memory),
        Ok(nodes) => judged_with(alloc, text, days, &nodes, wanted),
    }
}

/// The expression that a text is, of any sort. `days` has the elements and attributes whose values
/// are days.
pub fn parse(alloc: Global, text: &[u8], place: Place, days: &DayItems) -> Result<Expr, ExprFault>
    ensures { Answers cause_of (parse_of place days.now None text.now) result }
{
    whole(alloc, text, place, days, None)
}

/// The expression that a text is, of this sort.
pub fn parse_sorted(
    alloc: Global,
    text: &[u8],
    place: Place,
    days: &DayItems,
    wanted: Sort,
) -> Result<Expr, ExprFault>
    ensures { Answers cause_of (parse_of place days.now (Some wanted) text.now) result }
{
    whole(alloc, text, place, days, Some(wanted))
}
