//! An indicator in the form that is evaluated cell by cell.

ghost use Rattle.std.specs.Prelude.{◌≡◌, ◌<◌, IfOk, map, Option};
ghost use Rattle.dh_base.specs.Fractions.{Fraction};
ghost use Rattle.expr_lang.specs.Expr.{items_in};
ghost use Rattle.expr_lang.specs.declared.tree.Item.{Item};
ghost use Rattle.dh_metadata.specs.Linked.{IsLinkedIndicator};
ghost use Rattle.dh_metadata.specs.declared.held.Records.{Records};
ghost use Rattle.dh_metadata.specs.declared.records.Indicator.{Indicator};
ghost use Rattle.query_answer.specs.Value.{AreSides, indicator_value_of, value_over};

use crate::arithmetic::{CellValue, combine};
use dh_base::frac::Frac;
use dh_base::memory::Memory;
use dh_base::plain::Strategy;
use dh_metadata::metadata::Metadata;
use dh_metadata::records::Indicator;
use expr_eval::{Postfix, compile, eval};
use std::alloc::Global;

/// The two sides of an indicator in postfix form, and what their quotient is multiplied by. It is
/// made once a query.
#[derive(Drop)]
pub struct Sides {
    pub numerator: Postfix,
    pub denominator: Postfix,
    pub factor: i64,
    pub annualized: bool,
}

/// The sides of an indicator of the metadata.
pub fn sides_of(alloc: Global, meta: &Metadata, indicator: &Indicator) -> Result<Sides, Memory>
    requires { IsLinkedIndicator meta.now indicator.now }
    ensures { IfOk result (λ sides. AreSides meta.now indicator.now sides) }
{
    let numerator = compile(alloc, &indicator.numerator)?;
    let denominator = compile(alloc, &indicator.denominator)?;
    let factor = meta.indicator_type(indicator.indicator_type).factor;
    Ok(Sides {
        numerator,
        denominator,
        factor,
        annualized: indicator.annualized,
    })
}

/// The value of an indicator over a number of days, with one entry for each item of its numerator
/// and of its denominator, in their order.
#[tactic(auto, unfolding(crate::specs::Value::value_over))]
pub fn indicator_value(
    alloc: Global,
    sides: &Sides,
    days: u32,
    numerator: &[Option<Frac>],
    denominator: &[Option<Frac>],
) -> Result<CellValue, Memory>
    requires { 0 < days }
    ensures over { IfOk result (λ cell. cell ≡ value_over sides.now days numerator.now denominator.now) }
    ensures meaning { (r : Records) (indicator : Indicator) (value : Item → Option Fraction) → AreSides r indicator sides.now →
        numerator.now ≡ map value (items_in indicator.numerator) → denominator.now ≡ map value (items_in indicator.denominator) →
        IfOk result (λ cell. cell ≡ indicator_value_of r value days indicator) }
{
    let over = eval(alloc, &sides.numerator, numerator, Strategy::SkipIfAll)?;
    let under = eval(alloc, &sides.denominator, denominator, Strategy::SkipIfAll)?;
    Ok(combine(sides.factor, sides.annualized, days, over, under))
}
