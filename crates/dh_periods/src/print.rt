//! Writing the text of a period.
ghost use Rattle.std.specs.Prelude.{◌≡◌, ◌≤◌, ◌+◌, ◌++◌, IfOk, OnOk};
ghost use Rattle.dh_periods.specs.declared.kind.PeriodType.TheVariants.{Weekly};
ghost use Rattle.dh_periods.specs.Texts.{one_digit, two_digits, four_digits, ending_as, period_text};

use crate::kind::PeriodType;
use crate::name::PeriodName;
use dh_base::memory::Memory;
use std::alloc::Global;

fn one_digit(number: u8) -> [u8; 1]
    requires { number ≤ 99 }
    ensures { result ≡ one_digit number }
{
    [b'0' + number]
}

fn two_digits(number: u8) -> [u8; 2]
    ensures { result ≡ two_digits number }
{
    [b'0' + number / 10, b'0' + number % 10]
}

fn four_digits(number: u16) -> [u8; 4]
    requires { number ≤ 9999 }
    ensures { result ≡ four_digits number }
{
    [
        b'0' + (number / 1000) as u8,
        b'0' + (number / 100 % 10) as u8,
        b'0' + (number / 10 % 10) as u8,
        b'0' + (number % 10) as u8,
    ]
}

fn add(text: &mut Vec<u8>, piece: &[u8]) -> Result<(), Memory>
    ensures { OnOk result (text.new.items ≡ text.old.items ++ piece.now) }
{
    text.extend_from_slice(piece)?;
    Ok(())
}

fn add_two(text: &mut Vec<u8>, first: &[u8], second: &[u8]) -> Result<(), Memory>
    ensures { OnOk result (text.new.items ≡ text.old.items ++ (first.now ++ second.now)) }
{
    add(text, first)?;
    add(text, second)
}

fn add_week(text: &mut Vec<u8>, number: u8) -> Result<(), Memory>
    ensures { OnOk result (text.new.items ≡ text.old.items ++ ending_as Weekly number 1) }
{
    if number < 10 {
        add_two(text, b"W", &one_digit(number))
    } else {
        add_two(text, b"W", &two_digits(number))
    }
}

fn add_ending(text: &mut Vec<u8>, name: PeriodName) -> Result<(), Memory>
    requires { name.number ≤ 99 }
    ensures { OnOk result
        (text.new.items ≡ text.old.items ++ ending_as name.kind name.number name.day) }
{
    let one = one_digit(name.number);
    let two = two_digits(name.number);
    match name.kind {
        PeriodType::Daily => add_two(text, &two, &two_digits(name.day)),
        PeriodType::Weekly => add_week(text, name.number),
        PeriodType::Monthly => add(text, &two),
        PeriodType::BiMonthly => add_two(text, &two, b"B"),
        PeriodType::Quarterly => add_two(text, b"Q", &one),
        PeriodType::SixMonthly => add_two(text, b"S", &one),
        PeriodType::SixMonthlyApril => add_two(text, b"AprilS", &one),
        PeriodType::Yearly => Ok(()),
        PeriodType::FinancialApril => add(text, b"April"),
        PeriodType::FinancialJuly => add(text, b"July"),
        PeriodType::FinancialOct => add(text, b"Oct"),
    }
}

/// The text of the period of that name.
#[tactic(auto, unfolding(crate::specs::Texts::period_text))]
pub(crate) fn print_name(alloc: Global, name: PeriodName) -> Result<Vec<u8>, Memory>
    requires year { name.year ≤ 9999 }
    requires number { name.number ≤ 99 }
    ensures { IfOk result (λ text. text.items ≡ period_text name) }
{
    let mut text = Vec::with_capacity(alloc, 11)?;
    add(&mut text, &four_digits(name.year))?;
    add_ending(&mut text, name)?;
    Ok(text)
}
