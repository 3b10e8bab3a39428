//! The cells of a case, and the words of a list in a cell.

use std::alloc::Global;
use std::mem;

/// What is left of a case, from whose start cells are taken.
#[derive(Drop)]
pub struct Cells<'a>(pub &'a str);

impl<'a> Cells<'a> {
    /// Takes what stands before a separator, or all that is left where there is none.
    pub fn before(&mut self, separator: char) -> &'a str {
        match self.0.split_once(separator) {
            Some((cell, rest)) => {
                self.0 = rest;
                cell
            }
            None => mem::replace(&mut self.0, ""),
        }
    }
}

/// What a word of a list may stand for.
pub trait Word: Drop + Sized {
    fn of(word: &str) -> Option<Self>;
}

/// What the words between commas stand for, if each stands for something.
pub fn words<T: Word>(alloc: Global, text: &str) -> Option<Vec<T>> {
    let mut list = Vec::new(alloc);
    if text.is_empty() {
        return Some(list);
    }
    for word in text.split(',') {
        list.push(T::of(word)?).ok()?;
    }
    Some(list)
}
