//! The lists of data sets that are searched.

ghost use Rattle.std.specs.Prelude.{◌<◌, ◌^◌, length, IfOk};
ghost use Rattle.dh_metadata.specs.Known.{AreSetLists};

use crate::by_id::by_id;
use crate::held::Records;
use crate::holders::holders;
use crate::members::{SetElements, SetUnits, sorted_lists};
use dh_base::items::Items;
use dh_base::memory::Memory;
use std::alloc::Global;

/// Of each data set its elements and its units, each list ascending, and of each element the data sets
/// that have it, in the order of the bytes of their identifiers.
#[derive(Drop)]
pub struct SetLists {
    pub elements: Vec<Items<u32>>,
    pub units: Vec<Items<u32>>,
    pub having: Vec<Items<u32>>,
}

/// Makes the lists.
pub fn set_lists(alloc: Global, records: &Records) -> Result<SetLists, Memory>
    requires { length records.now.data_sets < 2 ^ 32 }
    ensures { IfOk result (λ lists. AreSetLists records.now lists) }
{
    let sets = records.data_sets.as_slice();
    let order = by_id(alloc, sets)?;
    let elements = sorted_lists::<SetElements>(alloc, sets)?;
    let units = sorted_lists::<SetUnits>(alloc, sets)?;
    let having = holders(
        alloc,
        &elements,
        &order,
        records.data_elements.as_slice().len(),
    )?;
    Ok(SetLists {
        elements,
        units,
        having,
    })
}
