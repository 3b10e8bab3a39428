//! From the values of the two sides to the value of an indicator.

ghost use Rattle.std.specs.Prelude.{◌≡◌, ◌<◌, ◌≤ℤ◌, ℤ, pos, unsigned_abs};
ghost use Rattle.query_answer.specs.Scale.{cell_of, whole_number, a_year_over, yearly, scaled, not_a_number, of_sides};

use dh_base::frac::Frac;
use dh_base::plain::NumFault;
use expr_eval::Value;

/// What a cell of an answer holds.
#[derive(Clone, Copy)]
pub enum CellValue {
    Number(Frac),
    /// There is no value.
    None,
    /// A number on the way is too wide to be computed.
    Wide,
}

fn whole(number: i64) -> Frac
    ensures { result ≡ whole_number number }
{
    Frac::of(number as i128, 1)
}

fn year_over(days: u32) -> Frac
    requires { 0 < days }
    ensures { result ≡ a_year_over days }
{
    Frac::of(365, days as i128)
}

fn for_a_year(annualized: bool, days: u32, number: Frac) -> Result<Frac, NumFault>
    requires { 0 < days }
    ensures { result ≡ yearly annualized days number }
{
    if annualized {
        number.mul(year_over(days))
    } else {
        Ok(number)
    }
}

fn scale(
    factor: i64,
    annualized: bool,
    days: u32,
    numerator: Frac,
    denominator: Frac,
) -> Result<Frac, NumFault>
    requires { 0 < days }
    ensures { result ≡ scaled factor annualized days numerator denominator }
{
    let quotient = numerator.div(denominator)?;
    let scaled = quotient.mul(whole(factor))?;
    for_a_year(annualized, days, scaled)
}

fn cell(answer: Result<Frac, NumFault>) -> CellValue
    ensures { result ≡ cell_of answer }
{
    match answer {
        Ok(number) => CellValue::Number(number),
        Err(NumFault::Wide) => CellValue::Wide,
        Err(NumFault::ByZero) => CellValue::None,
    }
}

/// What a side that isn't a number makes of the cell.
pub fn without(side: Value) -> CellValue
    ensures { result ≡ not_a_number side }
{
    match side {
        Value::Wide => CellValue::Wide,
        _ => CellValue::None,
    }
}

/// The value of an indicator with these two sides.
#[tactic(auto, unfolding(crate::specs::Scale::of_sides))]
pub fn combine(
    factor: i64,
    annualized: bool,
    days: u32,
    numerator: Value,
    denominator: Value,
) -> CellValue
    requires { 0 < days }
    ensures { result ≡ of_sides factor annualized days numerator denominator }
{
    match numerator {
        Value::Number(over) => match denominator {
            Value::Number(under) => cell(scale(factor, annualized, days, over, under)),
            other => without(other),
        },
        other => without(other),
    }
}
