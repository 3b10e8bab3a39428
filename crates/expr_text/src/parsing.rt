//! Reading expressions.

ghost use Rattle.std.specs.Prelude.{◌≡◌, [], Some, None, IfOk};
ghost use Rattle.expr_grammar.specs.Answer.{IsAnswer, HasOneAnswer, UnlessMemory};
ghost use Rattle.expr_grammar.specs.Items.{items_of, Different};
ghost use Rattle.expr_grammar.specs.Laws.{OneTree};

use expr_lang::{DayItems, Expr, ExprFault, Place, Sort};
use std::alloc::Global;

/// The expression that a text is, of any sort. `days` has the elements and attributes whose values
/// are days.
pub fn parse(alloc: Global, text: &[u8], place: Place, days: &DayItems) -> Result<Expr, ExprFault>
    // The answer is one by the grammar: the tree of a form of the text with its items and their places, or why no form is accepted, and where.
    ensures is { UnlessMemory (IsAnswer place days.now None text.now) result }
    // There is no other answer by the grammar.
    ensures sole { HasOneAnswer place days.now None text.now }
    // All forms that the text is have one tree.
    ensures one { IfOk result (λ expr. OneTree place days.now text.now expr.tree) }
    // Its items are those of the tree, in order of their first occurrence.
    ensures items { IfOk result (λ expr. Different (items_of expr.tree) [] expr.items) }
{
    expr_lang::parse(alloc, text, place, days)
}

/// The expression that a text is, of this sort.
pub fn parse_sorted(
    alloc: Global,
    text: &[u8],
    place: Place,
    days: &DayItems,
    wanted: Sort,
) -> Result<Expr, ExprFault>
    ensures is { UnlessMemory (IsAnswer place days.now (Some wanted) text.now) result }
    ensures sole { HasOneAnswer place days.now (Some wanted) text.now }
    ensures one { IfOk result (λ expr. OneTree place days.now text.now expr.tree) }
    ensures items { IfOk result (λ expr. Different (items_of expr.tree) [] expr.items) }
{
    expr_lang::parse_sorted(alloc, text, place, days, wanted)
}
