//! Lists of numbers in ascending order, for binary search.

ghost use Rattle.std.specs.Prelude.{◌≡◌, ℕ, List, IfOk, map};
ghost use Rattle.std.specs.List.Sorted.{IsStrictlyIncreasing};
ghost use Rattle.dh_metadata.specs.Members.{has, IsSortedCopy, AreSortedCopies};

use crate::records::{DataSet, UserGroup};
use dh_base::items::Items;
use dh_base::memory::Memory;
use std::alloc::Global;

/// The same numbers once, ascending.
pub fn sorted(alloc: Global, numbers: &[u32]) -> Result<Items<u32>, Memory>
    ensures { IfOk result (λ copy. IsSortedCopy numbers.now copy) }
{
    let mut copy = Vec::from_slice(alloc, numbers)?;
    copy.sort()?;
    copy.dedup();
    Ok(Items::from(copy))
}

/// Whether an ascending list has the number.
pub fn has(sorted: &[u32], n: u32) -> bool
    requires { IsStrictlyIncreasing sorted.now }
    ensures { result ≡ has sorted.now n }
{
    sorted.binary_search(&n).is_ok()
}

/// A list of numbers that each object of a kind has.
pub trait Listing {
    /// An object of the kind.
    type Object;

    /// Its numbers.
    ghost numbers: { Self.Object → List ℕ };

    /// Its numbers.
    fn numbers(object: &Self::Object) -> &[u32]
        ensures { result.now ≡ numbers object.now };
}

/// The elements of a data set.
pub struct SetElements {}

impl Listing for SetElements {
    type Object = DataSet;

    ghost numbers = { λ set. set.data_set_elements };

    fn numbers(set: &DataSet) -> &[u32] {
        set.data_set_elements.as_slice()
    }
}

/// The units of a data set.
pub struct SetUnits {}

impl Listing for SetUnits {
    type Object = DataSet;

    ghost numbers = { λ set. set.organisation_units };

    fn numbers(set: &DataSet) -> &[u32] {
        set.organisation_units.as_slice()
    }
}

/// The users of a user group.
pub struct GroupUsers {}

impl Listing for GroupUsers {
    type Object = UserGroup;

    ghost numbers = { λ group. group.users };

    fn numbers(group: &UserGroup) -> &[u32] {
        group.users.as_slice()
    }
}

/// The lists of these objects, each with its numbers once, ascending.
pub fn sorted_lists<T: Listing>(
    alloc: Global,
    objects: &[T::Object],
) -> Result<Vec<Items<u32>>, Memory>
    ensures { IfOk result (λ all. AreSortedCopies (map T.numbers objects.now) all.items) }
{
    let mut all = Vec::new(alloc);
    for object in objects {
        all.push(sorted(alloc, T::numbers(object))?)?;
    }
    Ok(all)
}
