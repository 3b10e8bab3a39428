//! Where two lists of ranges overlap.
ghost use Rattle.std.specs.Prelude.{◌≡◌, IfOk};
ghost use Rattle.dh_sharing.specs.Ranges.{AreApart};
ghost use Rattle.cell_values.specs.Cuts.{overlap_of, HoldsBoth};

use dh_base::memory::Memory;
use dh_sharing::ranges::ViewRanges;
use std::alloc::{AllocError, Global};

/// The numbers that both ranges hold.
fn overlap(a: (u32, u32), b: (u32, u32)) -> (u32, u32)
    ensures { result ≡ overlap_of a b }
{
    (a.0.max(b.0), a.1.min(b.1))
}

/// Goes through both lists once: of two ranges the one that ends first is done with.
fn overlaps(
    alloc: Global,
    a: &[(u32, u32)],
    b: &[(u32, u32)],
) -> Result<Vec<(u32, u32)>, AllocError>
    requires left { AreApart a.now }
    requires right { AreApart b.now }
    ensures { IfOk result (λ both. HoldsBoth a.now b.now both.items) }
{
    let mut both = Vec::new(alloc);
    let mut i = 0;
    let mut j = 0;
    while i < a.len() && j < b.len() {
        let x = a[i];
        let y = b[j];
        both.push(overlap(x, y))?;
        if x.1 <= y.1 {
            i += 1;
        } else {
            j += 1;
        }
    }
    Ok(both)
}

/// The ranges that hold what both lists hold.
pub fn cut(alloc: Global, a: &ViewRanges, b: &ViewRanges) -> Result<ViewRanges, Memory>
    ensures { IfOk result (λ both. HoldsBoth a.now b.now both) }
{
    let both = overlaps(alloc, a.parts(), b.parts())?;
    let joined = ViewRanges::of(alloc, &both)?;
    Ok(joined)
}
