ghost use Rattle.std.specs.Prelude.{◌≡◌, ◌+◌, ◌^◌, ◌<◌, [], length, slice_index_or, IfOk};
ghost use Rattle.dh_categories.specs.Single.{AreSingles, CombosBelow, one_more};

use dh_base::items::Items;
use std::alloc::{AllocError, Global};

/// The option combinations that a category combination has so far.
#[derive(Clone, Copy, PartialEq, Eq)]
pub enum Single {
    Absent,
    /// Exactly one, at this place.
    At(u32),
    Several,
}

/// Of each category combination, whether it has exactly one option combination.
pub fn singles(
    alloc: Global,
    count: usize,
    option_combos: &[(u32, Items<u32>)],
) -> Result<Vec<Single>, AllocError>
    requires few { length option_combos.now < 2 ^ 32 }
    requires in_range { CombosBelow count option_combos.now }
    ensures { IfOk result (λ singles. AreSingles option_combos.now count (length option_combos.now) singles.items) }
{
    let mut singles = vec![in alloc; Single::Absent; count]?;
    for place in 0..option_combos.len() as u32 {
        let combo = combo_at(option_combos, place) as usize;
        singles[combo] = with_one_more(singles[combo], place);
    }
    Ok(singles)
}

fn combo_at(option_combos: &[(u32, Items<u32>)], place: u32) -> u32
    requires { place < length option_combos.now }
    ensures { result ≡ (slice_index_or option_combos.now place (0, [])).0 }
{
    option_combos[place as usize].0
}

fn with_one_more(single: Single, place: u32) -> Single
    ensures { result ≡ one_more single place }
{
    match single {
        Single::Absent => Single::At(place),
        Single::At(_) => Single::Several,
        Single::Several => Single::Several,
    }
}
