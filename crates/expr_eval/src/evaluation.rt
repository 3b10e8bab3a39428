//! Running the postfix form.

ghost use Rattle.std.specs.Prelude.{◌≡◌, ◌≤◌, ◌<◌, ◌∷◌, [], List, Option, length, take, reverse, is_none, IfOk, IfSome};
ghost use Rattle.std.specs.Option.{unwrap_or};
ghost use Rattle.dh_base.specs.declared.plain.Strategy.TheVariants.{Never};
ghost use Rattle.dh_base.specs.Fractions.{Fraction};
ghost use Rattle.expr_eval.specs.declared.value.Value.TheVariants as outcome;
ghost use Rattle.expr_eval.specs.declared.code.Instr.TheVariants as instr;
ghost use Rattle.std.specs.List.{list_any, list_all};
ghost use Rattle.expr_eval.specs.Meaning.{best_of, skips, value_of_cell, zero_fraction};
ghost use Rattle.expr_eval.specs.Given.{entry_at};
ghost use Rattle.expr_eval.specs.Code.{Go, top_cell, under, put_on, act as step_of, Comes, run, top_value, next_best_of, passed_to};
ghost use Rattle.expr_eval.specs.Correct.{form_outcome};

use crate::arithmetic::{apply_one, apply_two, choose, number, truth, zero};
use crate::code::{Instr, Postfix};
use crate::value::{Cell, Value};
use dh_base::frac::Frac;
use dh_base::memory::Memory;
use dh_base::plain::Strategy;
use expr_lang::Stack;
use std::alloc::Global;

/// What comes of an instruction: so many of the next are passed, or the value is there.
#[derive(Clone, Copy)]
pub enum Answer {
    Go(usize),
    Stop(Value),
}

/// The value of an expression for entries, one for each item, under a missing-value strategy. Its
/// only memory is the one stack.
#[tactic(auto, unfolding(crate::specs::Code::outcome))]
pub fn eval(
    alloc: Global,
    form: &Postfix,
    entries: &[Option<Frac>],
    strategy: Strategy,
) -> Result<Value, Memory>
    ensures { IfOk result (λ value. value ≡ form_outcome form.now strategy entries.now) }
{
    if is_skipped(strategy, entries, &form.plain) {
        return Ok(Value::Missing);
    }
    run_form(alloc, entries, &form.code)
}

fn entry(entries: &[Option<Frac>], index: usize) -> Option<Frac>
    ensures { result ≡ entry_at entries.now index }
{
    if index < entries.len() {
        entries[index]
    } else {
        None
    }
}

fn is_missing(entries: &[Option<Frac>], index: usize) -> bool
    ensures { result ≡ is_none (entry_at entries.now index) }
{
    entry(entries, index).is_none()
}

fn any_missing(entries: &[Option<Frac>], plain: &[usize]) -> bool
    ensures { result ≡ list_any (λ n. is_none (entry_at entries.now n)) plain.now }
{
    for n in plain {
        if is_missing(entries, *n) {
            return true;
        }
    }
    false
}

fn all_missing(entries: &[Option<Frac>], plain: &[usize]) -> bool
    ensures { result ≡ list_all (λ n. is_none (entry_at entries.now n)) plain.now }
{
    for n in plain {
        if !is_missing(entries, *n) {
            return false;
        }
    }
    true
}

fn is_skipped(strategy: Strategy, entries: &[Option<Frac>], plain: &[usize]) -> bool
    ensures { result ≡ skips strategy (λ n. is_none (entry_at entries.now n)) plain.now }
{
    match strategy {
        Strategy::SkipIfAny => any_missing(entries, plain),
        Strategy::SkipIfAll => plain.len() > 0 && all_missing(entries, plain),
        Strategy::Never => false,
    }
}

fn top(stack: &mut Stack<Cell>) -> Cell
    ensures value { result ≡ top_cell stack.old }
    ensures rest { stack.new ≡ under stack.old }
{
    match stack.pop() {
        Some(cell) => cell,
        None => Cell::Number(zero()),
    }
}

fn place(stack: &mut Stack<Cell>, cell: Result<Cell, Value>) -> Result<Answer, Memory>
    ensures { IfOk result (λ answer. Comes answer stack.new (put_on stack.old cell)) }
{
    match cell {
        Ok(cell) => {
            stack.push(cell)?;
            Ok(Answer::Go(0))
        }
        Err(value) => Ok(Answer::Stop(value)),
    }
}

fn go(stack: &mut Stack<Cell>, cell: Cell, skip: usize) -> Result<Answer, Memory>
    ensures { IfOk result (λ answer. Comes answer stack.new (Go (cell ∷ stack.old) skip)) }
{
    stack.push(cell)?;
    Ok(Answer::Go(skip))
}

/// The greatest or the least of so many topmost, compared from left to right.
fn best(stack: &Stack<Cell>, count: usize, greatest: bool) -> Result<Cell, Value>
    ensures { result ≡ best_of greatest (reverse (take count stack.now)) }
{
    let mut best = None;
    let mut above = count.min(stack.len());
    while above > 0 {
        above -= 1;
        if let Some(cell) = stack.get(above) {
            match next_best(best, number(&cell), greatest) {
                Ok(number) => best = Some(number),
                Err(value) => return Err(value),
            }
        }
    }
    match best {
        Some(number) => Ok(Cell::Number(number)),
        None => Ok(Cell::Number(zero())),
    }
}

fn next_best(best: Option<Frac>, next: Frac, greatest: bool) -> Result<Frac, Value>
    ensures { result ≡ next_best_of greatest best next }
{
    match best {
        Some(best) => choose(greatest, best, next),
        None => Ok(next),
    }
}

/// One instruction.
fn act(entries: &[Option<Frac>], instr: &Instr, stack: &mut Stack<Cell>) -> Result<Answer, Memory>
    ensures { IfOk result (λ answer. Comes answer stack.new (step_of entries.now instr.now stack.old)) }
{
    match instr {
        Instr::Number(number) => go(stack, Cell::Number(*number), 0),
        Instr::Load(n) => go(stack, Cell::Number(entry(entries, *n).unwrap_or(zero())), 0),
        Instr::LoadDay(n) => match entry(entries, *n) {
            Some(day) => go(stack, Cell::Number(day), 0),
            None => Ok(Answer::Stop(Value::Missing)),
        },
        Instr::Present(n) => go(stack, Cell::Truth(entry(entries, *n).is_some()), 0),
        Instr::Absent(n) => go(stack, Cell::Truth(!entry(entries, *n).is_some()), 0),
        Instr::Truth(truth) => go(stack, Cell::Truth(*truth), 0),
        Instr::PreferNumber(number) => {
            let _ = top(stack);
            go(stack, Cell::Number(*number), 0)
        }
        Instr::Prefer(n) => {
            let other = top(stack);
            go(
                stack,
                Cell::Number(entry(entries, *n).unwrap_or(number(&other))),
                0,
            )
        }
        Instr::Unary(unary) => {
            let operand = top(stack);
            place(stack, apply_one(*unary, &operand))
        }
        Instr::Binary(binary) => {
            let right = top(stack);
            let left = top(stack);
            place(stack, apply_two(*binary, number(&left), number(&right)))
        }
        Instr::Greatest(n) => {
            let cell = best(stack, *n, true);
            stack.cut(*n);
            place(stack, cell)
        }
        Instr::Least(n) => {
            let cell = best(stack, *n, false);
            stack.cut(*n);
            place(stack, cell)
        }
        Instr::SkipUnless(n) => {
            let test = top(stack);
            Ok(Answer::Go(if truth(&test) { 0 } else { *n }))
        }
        Instr::GoOn(n) => Ok(Answer::Go(*n)),
        Instr::And(n) => {
            let test = top(stack);
            if truth(&test) {
                Ok(Answer::Go(0))
            } else {
                go(stack, Cell::Truth(false), *n)
            }
        }
        Instr::Or(n) => {
            let test = top(stack);
            if truth(&test) {
                go(stack, Cell::Truth(true), *n)
            } else {
                Ok(Answer::Go(0))
            }
        }
    }
}

/// The place of the next instruction after so many that are passed.
fn passed(at: usize, skip: usize, count: usize) -> usize
    requires { at < count }
    ensures within { result ≤ count }
    ensures past { at < result }
    ensures value { result ≡ passed_to at skip count }
{
    let left = count - at - 1;
    if skip < left { at + 1 + skip } else { count }
}

fn value_of(cell: Cell) -> Value
    ensures { result ≡ value_of_cell (Ok cell) }
{
    match cell {
        Cell::Number(number) => Value::Number(number),
        Cell::Truth(truth) => Value::Truth(truth),
    }
}

fn run_code(alloc: Global, entries: &[Option<Frac>], code: &[Instr]) -> Result<Value, Memory>
    ensures { IfOk result (λ value. value ≡ value_of_cell (top_value (run entries.now code.now 0 []))) }
{
    let mut stack = Stack::new(alloc);
    let mut at = 0;
    while at < code.len() {
        match act(entries, &code[at], &mut stack)? {
            Answer::Go(skip) => at = passed(at, skip, code.len()),
            Answer::Stop(value) => return Ok(value),
        }
    }
    Ok(value_of(top(&mut stack)))
}

/// The item that the code puts on top, if it does nothing else.
fn only_load(code: &[Instr]) -> Option<usize>
    ensures { IfSome result (λ n. code.now ≡ instr.Load n ∷ []) }
{
    if code.len() != 1 {
        return None;
    }
    match &code[0] {
        Instr::Load(n) => Some(*n),
        _ => None,
    }
}

/// The item that is all of a form, by its place among the entries. Without a strategy the form then gives its entry, or 0 where that is
/// missing: who evaluates the form for many lists of entries needs no list.
pub fn only_item(form: &Postfix) -> Option<usize>
    ensures { (entries : List (Option Fraction)) → IfSome result (λ n. form_outcome form.now Never entries
        ≡ outcome.Number (unwrap_or (entry_at entries n) zero_fraction)) }
{
    only_load(&form.code)
}

/// The value of the code. One item alone is most of what is evaluated for each event, and needs no stack.
fn run_form(alloc: Global, entries: &[Option<Frac>], code: &[Instr]) -> Result<Value, Memory>
    ensures { IfOk result (λ value. value ≡ value_of_cell (top_value (run entries.now code.now 0 []))) }
{
    match only_load(code) {
        Some(n) => Ok(Value::Number(entry(entries, n).unwrap_or(zero()))),
        None => run_code(alloc, entries, code),
    }
}
