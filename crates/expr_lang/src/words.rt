//! The words of the language, and which of them may come where.

ghost use Rattle.std.specs.Prelude.{◌≡◌};
ghost use Rattle.expr_lang.specs.Words.{text_of, operator_text_of, call_text_of, item_text_of};

use crate::tree::Binary;
use dh_base::plain::Rate;

/// What a word stands for.
#[derive(Clone, Copy)]
pub enum Symbol {
    Open,
    Close,
    Comma,
    Quote,
    Caret,
    Minus,
    Bang,
    Operator(Binary),
    Call(Call),
    Item(ItemForm),
}

/// The calls, by their names.
#[derive(Clone, Copy)]
pub enum Call {
    If,
    /// `d2:condition`, an `if` whose condition is quoted.
    Condition,
    IsNull,
    IsNotNull,
    FirstNonNull,
    Greatest,
    Least,
    DaysBetween,
    HasValue,
    Zing,
    Oizp,
}

/// The forms of items.
#[derive(Clone, Copy)]
pub enum ItemForm {
    Element,
    ElementCombo,
    ElementCombos,
    Constant,
    Group,
    Days,
    Rate(Rate),
    StageElement,
    Attribute,
    EventDate,
    EnrollmentDate,
    EventCount,
    EnrollmentCount,
    EntityCount,
}

#[tactic(auto, unfolding(crate::specs::Words::text_of))]
/// How a word is written. `@` stands for a letter, `$` for a letter or a digit.
pub fn text(symbol: Symbol) -> &'static [u8]
    ensures { result.now ≡ text_of symbol }
{
    match symbol {
        Symbol::Open => b"(",
        Symbol::Close => b")",
        Symbol::Comma => b",",
        Symbol::Quote => b"'",
        Symbol::Caret => b"^",
        Symbol::Minus => b"-",
        Symbol::Bang => b"!",
        Symbol::Operator(operator) => operator_text(operator),
        Symbol::Call(call) => call_text(call),
        Symbol::Item(form) => item_text(form),
    }
}

pub fn operator_text(operator: Binary) -> &'static [u8]
    ensures { result.now ≡ operator_text_of operator }
{
    match operator {
        Binary::Or => b"||",
        Binary::And => b"&&",
        Binary::Equal => b"==",
        Binary::NotEqual => b"!=",
        Binary::Less => b"<",
        Binary::AtMost => b"<=",
        Binary::Greater => b">",
        Binary::AtLeast => b">=",
        Binary::Add => b"+",
        Binary::Subtract => b"-",
        Binary::Multiply => b"*",
        Binary::Divide => b"/",
        Binary::Remainder => b"%",
        Binary::DaysBetween => b"d2:daysBetween",
        Binary::Comma => b",",
    }
}

pub fn call_text(call: Call) -> &'static [u8]
    ensures { result.now ≡ call_text_of call }
{
    match call {
        Call::If => b"if",
        Call::Condition => b"d2:condition",
        Call::IsNull => b"isNull",
        Call::IsNotNull => b"isNotNull",
        Call::FirstNonNull => b"firstNonNull",
        Call::Greatest => b"greatest",
        Call::Least => b"least",
        Call::DaysBetween => b"d2:daysBetween",
        Call::HasValue => b"d2:hasValue",
        Call::Zing => b"d2:zing",
        Call::Oizp => b"d2:oizp",
    }
}

fn item_text(form: ItemForm) -> &'static [u8]
    ensures { result.now ≡ item_text_of form }
{
    match form {
        ItemForm::Element => b"#{@$$$$$$$$$$}",
        ItemForm::ElementCombo => b"#{@$$$$$$$$$$.@$$$$$$$$$$}",
        ItemForm::ElementCombos => b"#{@$$$$$$$$$$.@$$$$$$$$$$.@$$$$$$$$$$}",
        ItemForm::Constant => b"C{@$$$$$$$$$$}",
        ItemForm::Group => b"OUG{@$$$$$$$$$$}",
        ItemForm::Days => b"[days]",
        ItemForm::Rate(Rate::Expected) => b"R{@$$$$$$$$$$.EXPECTED_REPORTS}",
        ItemForm::Rate(Rate::Actual) => b"R{@$$$$$$$$$$.ACTUAL_REPORTS}",
        ItemForm::Rate(Rate::OnTime) => b"R{@$$$$$$$$$$.ACTUAL_REPORTS_ON_TIME}",
        ItemForm::Rate(Rate::Reported) => b"R{@$$$$$$$$$$.REPORTING_RATE}",
        ItemForm::Rate(Rate::ReportedOnTime) => b"R{@$$$$$$$$$$.REPORTING_RATE_ON_TIME}",
        ItemForm::StageElement => b"#{@$$$$$$$$$$.@$$$$$$$$$$}",
        ItemForm::Attribute => b"A{@$$$$$$$$$$}",
        ItemForm::EventDate => b"V{event_date}",
        ItemForm::EnrollmentDate => b"V{enrollment_date}",
        ItemForm::EventCount => b"V{event_count}",
        ItemForm::EnrollmentCount => b"V{enrollment_count}",
        ItemForm::EntityCount => b"V{tei_count}",
    }
}

/// The words with which an operand may begin over aggregate data, and a whole expression too.
pub const AGGREGATE_OPERANDS: [Symbol; 20] = [
    Symbol::Minus,
    Symbol::Bang,
    Symbol::Open,
    Symbol::Call(Call::If),
    Symbol::Call(Call::IsNull),
    Symbol::Call(Call::IsNotNull),
    Symbol::Call(Call::FirstNonNull),
    Symbol::Call(Call::Greatest),
    Symbol::Call(Call::Least),
    Symbol::Item(ItemForm::Element),
    Symbol::Item(ItemForm::ElementCombo),
    Symbol::Item(ItemForm::ElementCombos),
    Symbol::Item(ItemForm::Constant),
    Symbol::Item(ItemForm::Group),
    Symbol::Item(ItemForm::Days),
    Symbol::Item(ItemForm::Rate(Rate::Expected)),
    Symbol::Item(ItemForm::Rate(Rate::Actual)),
    Symbol::Item(ItemForm::Rate(Rate::OnTime)),
    Symbol::Item(ItemForm::Rate(Rate::Reported)),
    Symbol::Item(ItemForm::Rate(Rate::ReportedOnTime)),
];

/// The items among them.
pub const AGGREGATE_ITEMS: [Symbol; 11] = [
    Symbol::Item(ItemForm::Element),
    Symbol::Item(ItemForm::ElementCombo),
    Symbol::Item(ItemForm::ElementCombos),
    Symbol::Item(ItemForm::Constant),
    Symbol::Item(ItemForm::Group),
    Symbol::Item(ItemForm::Days),
    Symbol::Item(ItemForm::Rate(Rate::Expected)),
    Symbol::Item(ItemForm::Rate(Rate::Actual)),
    Symbol::Item(ItemForm::Rate(Rate::OnTime)),
    Symbol::Item(ItemForm::Rate(Rate::Reported)),
    Symbol::Item(ItemForm::Rate(Rate::ReportedOnTime)),
];

/// The words with which an operand may begin over an event.
pub const PROGRAM_OPERANDS: [Symbol; 16] = [
    Symbol::Minus,
    Symbol::Bang,
    Symbol::Open,
    Symbol::Call(Call::If),
    Symbol::Call(Call::Greatest),
    Symbol::Call(Call::Least),
    Symbol::Call(Call::Condition),
    Symbol::Call(Call::DaysBetween),
    Symbol::Call(Call::HasValue),
    Symbol::Call(Call::Zing),
    Symbol::Call(Call::Oizp),
    Symbol::Item(ItemForm::StageElement),
    Symbol::Item(ItemForm::Attribute),
    Symbol::Item(ItemForm::Constant),
    Symbol::Item(ItemForm::EventDate),
    Symbol::Item(ItemForm::EnrollmentDate),
];

/// Those with which a whole expression may begin.
pub const PROGRAM_START: [Symbol; 19] = [
    Symbol::Minus,
    Symbol::Bang,
    Symbol::Open,
    Symbol::Call(Call::If),
    Symbol::Call(Call::Greatest),
    Symbol::Call(Call::Least),
    Symbol::Call(Call::Condition),
    Symbol::Call(Call::DaysBetween),
    Symbol::Call(Call::HasValue),
    Symbol::Call(Call::Zing),
    Symbol::Call(Call::Oizp),
    Symbol::Item(ItemForm::StageElement),
    Symbol::Item(ItemForm::Attribute),
    Symbol::Item(ItemForm::Constant),
    Symbol::Item(ItemForm::EventDate),
    Symbol::Item(ItemForm::EnrollmentDate),
    Symbol::Item(ItemForm::EventCount),
    Symbol::Item(ItemForm::EnrollmentCount),
    Symbol::Item(ItemForm::EntityCount),
];

/// The items that may stand beside others.
pub const PROGRAM_ITEMS: [Symbol; 5] = [
    Symbol::Item(ItemForm::StageElement),
    Symbol::Item(ItemForm::Attribute),
    Symbol::Item(ItemForm::Constant),
    Symbol::Item(ItemForm::EventDate),
    Symbol::Item(ItemForm::EnrollmentDate),
];

/// The words that may follow an operand.
pub const AFTER_OPERANDS: [Symbol; 17] = [
    Symbol::Caret,
    Symbol::Close,
    Symbol::Comma,
    Symbol::Quote,
    Symbol::Operator(Binary::Or),
    Symbol::Operator(Binary::And),
    Symbol::Operator(Binary::Equal),
    Symbol::Operator(Binary::NotEqual),
    Symbol::Operator(Binary::Less),
    Symbol::Operator(Binary::AtMost),
    Symbol::Operator(Binary::Greater),
    Symbol::Operator(Binary::AtLeast),
    Symbol::Operator(Binary::Add),
    Symbol::Operator(Binary::Subtract),
    Symbol::Operator(Binary::Multiply),
    Symbol::Operator(Binary::Divide),
    Symbol::Operator(Binary::Remainder),
];

pub const MARKS: [Symbol; 3] = [Symbol::Close, Symbol::Comma, Symbol::Quote];

pub const BRACKET: [Symbol; 1] = [Symbol::Open];
