//! A program indicator in the form that is evaluated.

ghost use Rattle.std.specs.Prelude.{◌≡◌, IfOk};
ghost use Rattle.expr_lang.specs.Expr.{items_in};
ghost use Rattle.expr_eval.specs.Correct.{Means};
ghost use Rattle.program_cells.specs.Value.{measure_of};
ghost use Rattle.program_cells.specs.Code.{measure_in, IsFormula, items_by, IsFilter, filter_items_of, IsCodeOf};

use crate::items::named_items;
use crate::measure::{Measure, measure_of};
use dh_base::items::Items;
use dh_base::memory::Memory;
use dh_metadata::metadata::Metadata;
use dh_metadata::records::ProgramIndicator;
use expr_eval::{PiCode, PiItem, PiValue, Postfix, compile};
use expr_lang::Expr;
use std::alloc::Global;

/// What is taken by an expression, and the items of it.
fn value_of(alloc: Global, meta: &Metadata, expr: &Expr) -> Result<(PiValue, Items<PiItem>), Memory>
    ensures measured { IfOk result (λ made. measure_in made.0 ≡ measure_of expr.now.tree) }
    ensures formula { IfOk result (λ made. IsFormula expr.now made.0) }
    ensures items { IfOk result (λ made. made.1 ≡ items_by meta.now (measure_in made.0) expr.now) }
{
    match measure_of(expr) {
        Measure::Formula => {
            let form = compile(alloc, expr)?;
            let items = named_items(alloc, meta, expr.items())?;
            Ok((PiValue::Formula(form), items))
        }
        Measure::Events => Ok((PiValue::Events, Items::new(alloc))),
        Measure::Enrollments => Ok((PiValue::Enrollments, Items::new(alloc))),
        Measure::Entities => Ok((PiValue::Entities, Items::new(alloc))),
    }
}

/// A filter, and the items of it.
fn filter_of(
    alloc: Global,
    meta: &Metadata,
    filter: &Option<Expr>,
) -> Result<(Option<Postfix>, Items<PiItem>), Memory>
    ensures filter { IfOk result (λ made. IsFilter filter.now made.0) }
    ensures items { IfOk result (λ made. made.1 ≡ filter_items_of meta.now filter.now) }
{
    match filter {
        Some(expr) => {
            let form = compile(alloc, expr)?;
            let items = named_items(alloc, meta, expr.items())?;
            Ok((Some(form), items))
        }
        None => Ok((None, Items::new(alloc))),
    }
}

/// A program indicator in the form that is evaluated.
pub(crate) fn code_of(
    alloc: Global,
    meta: &Metadata,
    indicator: &ProgramIndicator,
) -> Result<PiCode, Memory>
    ensures { IfOk result (IsCodeOf meta.now indicator.now) }
{
    let (value, value_items) = value_of(alloc, meta, &indicator.expression)?;
    let (filter, filter_items) = filter_of(alloc, meta, &indicator.filter)?;
    Ok(PiCode {
        program: indicator.program,
        value,
        value_items,
        filter,
        filter_items,
        aggregation: indicator.aggregation_type,
    })
}
