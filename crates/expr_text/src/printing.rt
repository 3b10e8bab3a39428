//! Expressions as text.

ghost use Rattle.std.specs.Prelude.{IfOk};
ghost use Rattle.expr_grammar.specs.Answer.{IsReadAgain};
ghost use Rattle.expr_grammar.specs.Fewest.{IsPrintedAgain};

use dh_base::memory::Memory;
use expr_lang::Expr;
use std::alloc::Global;

/// The text of an expression: a shortest one with its tree, with the fewest brackets.
pub fn print(alloc: Global, expr: &Expr) -> Result<Vec<u8>, Memory>
    // Where any text is accepted as this tree, this one is.
    ensures again { IfOk result (λ text. IsReadAgain expr.now.tree text.items) }
    // Where the grammar has any text with this tree, this is one, and none is shorter, has fewer brackets or more of them open at once.
    ensures fewest { IfOk result (λ text. IsPrintedAgain expr.now.tree text.items) }
{
    expr_lang::print(alloc, expr)
}
