//! A stack, which contracts see as the list of its items, the topmost first.

ghost use Rattle.std.specs.Prelude.{◌≡◌, ◌+◌, ◌<◌, ◌^◌, ◌∷◌, [], length, drop, slice_get, OnOk, IfOk, IfSome, IfNone};
ghost use Rattle.expr_lang.specs.Stack.{top_of, rest_of};

use dh_base::memory::Memory;
use std::alloc::Global;
use std::marker::Model;

#[derive(Drop)]
pub struct Stack<T> {
    entries: Vec<T>,
}

impl<T> Model for Stack<T> {
    ghost use Rattle.std.specs.Prelude.{List, reverse};

    ghost Value = { List T };

    ghost view = { λ stack. reverse stack.entries.items };
}

impl<T> Stack<T> {
    pub fn new(alloc: Global) -> Stack<T>
        ensures { result ≡ [] }
    {
        Stack {
            entries: Vec::new(alloc),
        }
    }

    /// An empty stack with room for so many items.
    pub fn with_room(alloc: Global, room: usize) -> Result<Stack<T>, Memory>
        ensures { IfOk result (λ stack. stack ≡ []) }
    {
        Ok(Stack {
            entries: Vec::with_capacity(alloc, room)?,
        })
    }

    pub fn push(&mut self, item: T) -> Result<(), Memory>
    where
        T: Drop,
        ensures { OnOk result (self.new ≡ item ∷ self.old) }
    {
        self.entries.push(item)?;
        Ok(())
    }

    pub fn pop(&mut self) -> Option<T>
        ensures top { result ≡ top_of self.old }
        ensures rest { self.new ≡ rest_of self.old }
    {
        self.entries.pop()
    }

    /// The item that has so many above it.
    pub fn get(&self, above: usize) -> Option<T>
    where
        T: Copy,
        ensures value { result ≡ slice_get self.now above }
        ensures found { IfSome result (λ item. drop above self.now ≡ item ∷ drop (above + 1) self.now) }
        ensures none { IfNone result (drop above self.now ≡ []) }
    {
        self.item(above)
    }

    fn item(&self, above: usize) -> Option<T>
    where
        T: Copy,
        ensures { result ≡ slice_get self.now above }
    {
        let count = self.entries.len();
        if above < count {
            Some(self.entries[count - 1 - above])
        } else {
            None
        }
    }

    /// The number of items.
    pub fn len(&self) -> usize
        ensures count { result ≡ length self.now }
        ensures small { result < 2 ^ 63 }
    {
        self.entries.len()
    }

    /// Takes so many items off.
    pub fn cut(&mut self, count: usize)
    where
        T: Drop,
        ensures { self.new ≡ drop count self.old }
    {
        self.entries
            .truncate(self.entries.len().saturating_sub(count));
    }
}
