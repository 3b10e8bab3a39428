//! What the operators do with values.

ghost use Rattle.std.specs.Prelude.{◌≡◌, ◌≤◌};
ghost use Rattle.expr_eval.specs.Meaning.{zero_fraction, one_fraction, literal_of, number_of, truth_of, value_of_fault, number_cell, is_less_than_zero};
ghost use Rattle.expr_eval.specs.Meaning.{capped, chosen_of};
ghost use Rattle.expr_eval.specs.Applied.{applied_one, compared, applied_two};

use crate::value::{Cell, Value};
use dh_base::frac::Frac;
use dh_base::plain::NumFault;
use expr_lang::{Binary, Unary};

pub fn zero() -> Frac
    ensures { result ≡ zero_fraction }
{
    Frac::of(0, 1)
}

pub fn one() -> Frac
    ensures { result ≡ one_fraction }
{
    Frac::of(1, 1)
}

/// Millionths as a number.
pub fn literal(millionths: u64) -> Frac
    ensures { result ≡ literal_of millionths }
{
    Frac::of(millionths as i128, 1_000_000)
}

pub fn number(cell: &Cell) -> Frac
    ensures { result ≡ number_of cell.now }
{
    match cell {
        Cell::Number(number) => *number,
        Cell::Truth(_) => zero(),
    }
}

pub fn truth(cell: &Cell) -> bool
    ensures { result ≡ truth_of cell.now }
{
    match cell {
        Cell::Number(_) => false,
        Cell::Truth(truth) => *truth,
    }
}

fn fault_value(fault: NumFault) -> Value
    ensures { result ≡ value_of_fault fault }
{
    match fault {
        NumFault::Wide => Value::Wide,
        NumFault::ByZero => Value::ByZero,
    }
}

fn number_answer(answer: Result<Frac, NumFault>) -> Result<Cell, Value>
    ensures { result ≡ number_cell answer }
{
    match answer {
        Ok(number) => Ok(Cell::Number(number)),
        Err(fault) => Err(fault_value(fault)),
    }
}

fn is_below_zero(number: Frac) -> bool
    ensures { result ≡ is_less_than_zero number }
{
    number.num() < 0
}

/// The signs, the power and the calls of one number. An exponent above 64, which no expression that
/// is read has, counts as 64.
pub fn apply_one(unary: Unary, operand: &Cell) -> Result<Cell, Value>
    ensures { result ≡ applied_one unary operand.now }
{
    match unary {
        Unary::Negate => number_answer(zero().sub(number(operand))),
        Unary::Not => Ok(Cell::Truth(!truth(operand))),
        Unary::Power(exponent) => number_answer(number(operand).pow(exponent_of(exponent))),
        Unary::Zing => {
            let number = number(operand);
            Ok(Cell::Number(if is_below_zero(number) {
                zero()
            } else {
                number
            }))
        }
        Unary::Oizp => {
            let number = number(operand);
            Ok(Cell::Number(if is_below_zero(number) { zero() } else { one() }))
        }
        _ => Ok(*operand),
    }
}

fn exponent_of(exponent: u8) -> u32
    ensures value { result ≡ capped exponent }
    ensures small { result ≤ 64 }
{
    if exponent <= 64 { exponent as u32 } else { 64 }
}

fn compare(binary: Binary, left: Frac, right: Frac) -> Result<Cell, Value>
    ensures { result ≡ compared binary left right }
{
    match left.cmp(right) {
        Err(fault) => Err(fault_value(fault)),
        Ok(ordering) => Ok(Cell::Truth(match binary {
            Binary::Equal => ordering.is_eq(),
            Binary::NotEqual => !ordering.is_eq(),
            Binary::Less => ordering.is_lt(),
            Binary::AtMost => !ordering.is_gt(),
            Binary::Greater => ordering.is_gt(),
            _ => !ordering.is_lt(),
        })),
    }
}

/// An operator of two numbers.
pub fn apply_two(binary: Binary, left: Frac, right: Frac) -> Result<Cell, Value>
    ensures { result ≡ applied_two binary left right }
{
    match binary {
        Binary::Add => number_answer(left.add(right)),
        Binary::Subtract => number_answer(left.sub(right)),
        Binary::Multiply => number_answer(left.mul(right)),
        Binary::Divide => number_answer(left.div(right)),
        Binary::Remainder => number_answer(left.rem(right)),
        Binary::DaysBetween => number_answer(right.sub(left)),
        Binary::Or | Binary::And | Binary::Comma => Ok(Cell::Number(right)),
        other => compare(other, left, right),
    }
}

/// The greater or the lesser of two numbers, the first where they are equal.
pub fn choose(greatest: bool, best: Frac, next: Frac) -> Result<Frac, Value>
    ensures { result ≡ chosen_of greatest best next }
{
    match best.cmp(next) {
        Err(fault) => Err(fault_value(fault)),
        Ok(ordering) => {
            let takes = if greatest {
                ordering.is_lt()
            } else {
                ordering.is_gt()
            };
            Ok(if takes { next } else { best })
        }
    }
}
