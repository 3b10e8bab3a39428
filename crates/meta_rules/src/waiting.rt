//! Lists that are used up from their front.

ghost use Rattle.std.specs.Prelude.{◌≡◌, ◌<◌, ◌∷◌, length, IfOk};
ghost use Rattle.meta_rules.specs.Objects.{IsKept};

use crate::expr_fault::ExprError;
use dh_base::memory::Memory;
use expr_lang::Stack;
use std::alloc::Global;

/// The items as a stack, the first on top.
pub fn waiting<T: Drop>(alloc: Global, items: Vec<T>) -> Result<Stack<T>, Memory>
    ensures { IfOk result (λ stack. stack ≡ items.items) }
{
    let mut stack = Stack::new(alloc);
    let mut rest = items;
    while let Some(item) = rest.pop() {
        stack.push(item)?;
    }
    Ok(stack)
}

/// Takes the first item.
pub fn next<T: Drop>(rest: &mut Stack<T>) -> T
    requires { 0 < length rest.old }
    ensures { rest.old ≡ result ∷ rest.new }
{
    match rest.pop() {
        Some(item) => item,
        None => unreachable!(),
    }
}

/// Puts what was made at the end, or hands on its fault.
pub(crate) fn keep<T: Drop>(made: &mut Vec<T>, one: Result<T, ExprError>) -> Result<(), ExprError>
    ensures { IsKept one made.old.items made.new.items result }
{
    match one {
        Ok(one) => {
            made.push(one)?;
            Ok(())
        }
        Err(fault) => Err(fault),
    }
}
