ghost use Rattle.std.specs.Prelude.{◌≡◌, filter, IfOk};
ghost use Rattle.dh_sharing.specs.Ranges.{is_filled, is_within, IsCount, AreApart, HoldsTheSame, ByFirst};

use dh_base::memory::Memory;
use std::alloc::{AllocError, Global};
use std::marker::Model;

/// Ranges of places in a walk, as those of the units that a user may view. Contracts see them as a
/// list of ranges, each with its first number and the one after its last.
#[derive(Drop)]
pub struct ViewRanges {
    parts: Vec<(u32, u32)>,
}

impl Model for ViewRanges {
    ghost use Rattle.std.specs.Prelude.{List, ℕ};
    ghost use Rattle.dh_sharing.specs.Ranges.{AreApart};

    ghost Value = { List (ℕ × ℕ) };

    ghost view = { λ ranges. ranges.parts.items };

    ghost invariant = { λ ranges. AreApart ranges.parts.items };
}

impl ViewRanges {
    /// The ranges that hold exactly the numbers of the intervals. They ascend, and neither overlap nor touch.
    pub fn of(alloc: Global, intervals: &[(u32, u32)]) -> Result<ViewRanges, Memory>
        ensures members { IfOk result (λ ranges. HoldsTheSame ranges intervals.now) }
        ensures apart { IfOk result (λ ranges. AreApart ranges) }
    {
        let mut sorted = filled(alloc, intervals)?;
        sorted.sort()?;
        let parts = merged(alloc, &sorted)?;
        Ok(ViewRanges { parts })
    }

    /// Whether the number lies in a range.
    pub fn holds(&self, order: u32) -> bool
        ensures { result ≡ is_within self.now order }
    {
        is_held(self.parts.as_slice(), order)
    }

    /// The ranges.
    pub fn parts(&self) -> &[(u32, u32)]
        ensures parts { result.now ≡ self.now }
        ensures apart { AreApart result.now }
    {
        self.parts.as_slice()
    }
}

/// The intervals that aren't empty.
fn filled(alloc: Global, intervals: &[(u32, u32)]) -> Result<Vec<(u32, u32)>, AllocError>
    ensures { IfOk result (λ solid. solid.items ≡ filter is_filled intervals.now) }
{
    intervals
        .iter()
        .filter(|interval| interval.0 < interval.1)
        .copied()
        .collect(alloc)
}

/// Joins ranges that overlap or touch.
fn merged(alloc: Global, sorted: &[(u32, u32)]) -> Result<Vec<(u32, u32)>, AllocError>
    requires by_first { ByFirst sorted.now }
    ensures apart { IfOk result (λ parts. AreApart parts.items) }
    ensures members { IfOk result (λ parts. HoldsTheSame parts.items sorted.now) }
{
    let mut parts = Vec::new(alloc);
    if sorted.is_empty() {
        return Ok(parts);
    }
    let mut last = sorted[0];
    for i in 1..sorted.len() {
        let next = sorted[i];
        if next.0 <= last.1 {
            last = (last.0, last.1.max(next.1));
        } else {
            parts.push(last)?;
            last = next;
        }
    }
    parts.push(last)?;
    Ok(parts)
}

/// Searches the last range that begins at the number or before it.
fn is_held(parts: &[(u32, u32)], order: u32) -> bool
    requires { AreApart parts.now }
    ensures { result ≡ is_within parts.now order }
{
    let begun = begun_by(parts, order);
    if begun == 0 {
        return false;
    }
    order < parts[begun - 1].1
}

/// How many ranges begin at the number or before it.
fn begun_by(parts: &[(u32, u32)], order: u32) -> usize
    requires { AreApart parts.now }
    ensures { IsCount parts.now order result }
{
    let mut low = 0;
    let mut high = parts.len();
    while low < high {
        let middle = low + (high - low) / 2;
        if parts[middle].0 <= order {
            low = middle + 1;
        } else {
            high = middle;
        }
    }
    low
}
