//! Data sets in the order of their identifiers.

ghost use Rattle.std.specs.Prelude.{◌≡◌, ◌<◌, ◌^◌, [], length, IfOk};
ghost use Rattle.dh_metadata.specs.Sets.{put_by_id, by_id, set_ids};

use crate::records::DataSet;
use dh_base::memory::Memory;
use dh_base::uid::Uid;
use std::alloc::Global;
use std::collections::BTreeMap;

/// The numbers of the data sets, in the order of the bytes of their identifiers.
#[tactic(auto, unfolding(crate::specs::Sets::by_id))]
pub fn by_id(alloc: Global, sets: &[DataSet]) -> Result<Vec<u32>, Memory>
    requires { length sets.now < 2 ^ 32 }
    ensures { IfOk result (λ order. order.items ≡ by_id (set_ids sets.now)) }
{
    let mut map = BTreeMap::new(alloc);
    let mut number = 0;
    for set in sets {
        map.insert(set.id, number)?;
        number += 1;
    }
    Ok(map.values().copied().collect(alloc)?)
}
