//! For each number, the lists that have it.

ghost use Rattle.std.specs.Prelude.{◌≡◌, ◌<◌, ◌++◌, ◌∷◌, [], length, slice_index_or, slice_set, IfOk, OnOk};
ghost use Rattle.std.specs.List.Sorted.{IsStrictlyIncreasing};
ghost use Rattle.dh_metadata.specs.Members.{holders, AreHolders, IsPutAt, EachAscends};

use dh_base::items::Items;
use dh_base::memory::Memory;
use std::alloc::Global;

fn put_one(all: &mut Vec<Items<u32>>, number: u32, place: u32) -> Result<(), Memory>
    ensures { OnOk result (all.new.items ≡ slice_set all.old.items number (slice_index_or all.old.items number [] ++ place ∷ [])) }
{
    if (number as usize) < all.len() {
        return all[number as usize].push(place);
    }
    Ok(())
}

/// Puts the place at the end of the lists with these numbers.
fn put_at(all: &mut Vec<Items<u32>>, numbers: &[u32], place: u32) -> Result<(), Memory>
    requires { IsStrictlyIncreasing numbers.now }
    ensures { OnOk result (IsPutAt place numbers.now all.old.items all.new.items) }
{
    for number in numbers {
        put_one(all, *number, place)?;
    }
    Ok(())
}

fn empty_lists(alloc: Global, count: usize) -> Result<Vec<Items<u32>>, Memory>
    ensures { IfOk result (λ all. AreHolders [] [] count all.items) }
{
    let mut all = Vec::with_capacity(alloc, count)?;
    for _ in 0..count {
        all.push(Items::new(alloc))?;
    }
    Ok(all)
}

/// For each number below the count, the places in this order whose lists have it.
pub fn holders(
    alloc: Global,
    lists: &[Items<u32>],
    order: &[u32],
    count: usize,
) -> Result<Vec<Items<u32>>, Memory>
    requires { EachAscends lists.now }
    ensures { IfOk result (λ all. AreHolders lists.now order.now count all.items) }
{
    let mut all = empty_lists(alloc, count)?;
    for place in order {
        if (*place as usize) < lists.len() {
            put_at(&mut all, lists[*place as usize].as_slice(), *place)?;
        }
    }
    Ok(all)
}
