//! From the values of a rule's sides to what comes of it.
ghost use Rattle.std.specs.Prelude.{◌≡◌, ◌<◌, length};
ghost use Rattle.dh_base.specs.Fractions.{cmp_of};
ghost use Rattle.dh_metadata.specs.declared.held.Records.{Records};
ghost use Rattle.validation.specs.Run.{IsOutcomeOf};
ghost use Rattle.validation.specs.Check.{number_in, is_wide, holds, violated_if, is_one_alone, compared, compared_if, judged_by, judged};

use crate::outcome::{Outcome, Violation};
use dh_base::frac::Frac;
use dh_metadata::names::Operator;
use expr_eval::Value;
use std::cmp::Ordering;

fn number_in(value: &Value) -> Option<Frac>
    ensures { result ≡ number_in value.now }
{
    match value {
        Value::Number(number) => Some(*number),
        Value::Truth(_) | Value::Missing | Value::Wide | Value::ByZero => None,
    }
}

fn is_wide(value: &Value) -> bool
    ensures { result ≡ is_wide value.now }
{
    match value {
        Value::Wide => true,
        Value::Truth(_) | Value::Missing | Value::Number(_) | Value::ByZero => false,
    }
}

fn holds(operator: Operator, order: Ordering) -> bool
    ensures { result ≡ holds operator order }
{
    match operator {
        Operator::EqualTo => order.is_eq(),
        Operator::NotEqualTo => !order.is_eq(),
        Operator::GreaterThan => order.is_gt(),
        Operator::GreaterThanOrEqualTo => !order.is_lt(),
        Operator::LessThan => order.is_lt(),
        Operator::LessThanOrEqualTo => !order.is_gt(),
        Operator::CompulsoryPair | Operator::ExclusivePair => true,
    }
}

fn violated_if(violated: bool, rule: u32, left: Option<Frac>, right: Option<Frac>) -> Outcome
    ensures { result ≡ violated_if violated rule left right }
{
    if violated {
        Outcome::Violated(Violation { rule, left, right })
    } else {
        Outcome::Kept
    }
}

fn is_one_alone(left: Option<Frac>, right: Option<Frac>) -> bool
    ensures { result ≡ is_one_alone left right }
{
    match (left, right) {
        (None, Some(_)) | (Some(_), None) => true,
        (None, None) | (Some(_), Some(_)) => false,
    }
}

fn compared(operator: Operator, rule: u32, left: Frac, right: Frac) -> Outcome
    ensures { result ≡ compared operator rule left right (cmp_of left right) }
{
    match left.cmp(right) {
        Ok(order) => violated_if(!holds(operator, order), rule, Some(left), Some(right)),
        Err(_) => Outcome::Wide,
    }
}

fn compared_if(operator: Operator, rule: u32, left: Option<Frac>, right: Option<Frac>) -> Outcome
    ensures { result ≡ compared_if operator rule left right }
{
    let Some(left) = left else {
        return Outcome::Kept;
    };
    let Some(right) = right else {
        return Outcome::Kept;
    };
    compared(operator, rule, left, right)
}

fn judged_by(operator: Operator, rule: u32, left: Option<Frac>, right: Option<Frac>) -> Outcome
    ensures { result ≡ judged_by operator rule left right }
{
    match operator {
        Operator::CompulsoryPair => violated_if(is_one_alone(left, right), rule, left, right),
        Operator::ExclusivePair => {
            violated_if(left.is_some() && right.is_some(), rule, left, right)
        }
        _ => compared_if(operator, rule, left, right),
    }
}

/// What comes of the rule with these values of its sides.
#[tactic(auto, unfolding(crate::specs::Check::judged))]
pub(crate) fn judged(operator: Operator, rule: u32, left: &Value, right: &Value) -> Outcome
    ensures value { result ≡ judged operator rule left.now right.now }
    ensures rule { (r : Records) → rule < length r.validation_rules → IsOutcomeOf r rule result }
{
    if is_wide(left) || is_wide(right) {
        return Outcome::Wide;
    }
    judged_by(operator, rule, number_in(left), number_in(right))
}
