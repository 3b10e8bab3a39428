//! Reading one expression of an object.

ghost use Rattle.std.specs.Prelude.{◌≡◌, length};
ghost use Rattle.dh_base.specs.Memory.{Finds};
ghost use Rattle.expr_grammar.specs.Answer.{Reading};
ghost use Rattle.expr_lang.specs.Expr.{items_in, places_in};
ghost use Rattle.meta_rules.specs.Names.{is_missing};
ghost use Rattle.meta_rules.specs.Read.{missing_place, expr_in};
ghost use Rattle.meta_rules.specs.Objects.{expr_cause, text_error, unread};

use crate::expr_fault::{ExprError, ExprFault};
use crate::names::{is_missing, stage_before};
use dh_base::uid::Uid;
use dh_metadata::ids::Ids;
use expr_lang::{DayItems, Expr, Place, Sort};
use expr_text::parse_sorted;
use std::alloc::Global;

fn told(uid: Uid, fault: expr_lang::ExprFault) -> ExprError
    ensures { result ≡ text_error uid fault }
{
    match fault {
        expr_lang::ExprFault::Syntax { at } => ExprError::Unread(ExprFault { uid, at }),
        expr_lang::ExprFault::TooDeep { at } => ExprError::Unread(ExprFault { uid, at }),
        expr_lang::ExprFault::Sort { at } => ExprError::Unread(ExprFault { uid, at }),
        expr_lang::ExprFault::Memory => ExprError::Memory,
    }
}

/// The first byte of the first item that names an object which isn't there.
fn missing_at(ids: &Ids, expr: &Expr) -> Option<usize>
    requires { length (items_in expr.now) ≡ length (places_in expr.now) }
    ensures { result ≡ missing_place (is_missing ids.now) (items_in expr.now) (places_in expr.now) }
{
    let items = expr.items();
    for n in 0..items.len() {
        let known = stage_before(items, n);
        if is_missing(ids, known, &items[n]) {
            return Some(expr.item_at(n));
        }
    }
    None
}

/// The expression of this sort that a text of an object is by the grammar, if every object that it names is there.
#[tactic(auto, unfolding(crate::specs::Objects::unread, crate::specs::Read::unread_at, crate::specs::Read::expr_in))]
pub fn read(
    alloc: Global,
    ids: &Ids,
    days: &DayItems,
    uid: Uid,
    text: &[u8],
    place: Place,
    wanted: Sort,
) -> Result<Expr, ExprError>
    ghost reading: { Reading }
    ensures { Finds expr_cause (unread reading.answer ids.now days.now uid place wanted text.now)
        (λ expr. expr ≡ expr_in reading.answer days.now place wanted text.now) result }
{
    match parse_sorted(alloc, text, place, days, wanted) {
        Err(fault) => Err(told(uid, fault)),
        Ok(expr) => match missing_at(ids, &expr) {
            Some(at) => Err(ExprError::Unread(ExprFault { uid, at })),
            None => Ok(expr),
        },
    }
}
