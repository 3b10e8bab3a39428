//! What is checked, as a cell.
ghost use Rattle.std.specs.Prelude.{◌≡◌, IfOk};
ghost use Rattle.validation.specs.Run.{IsChecking, IsSpot};

use crate::place::Place;
use cell_values::{CellPeriods, CellUnits, Source};
use dh_base::memory::Memory;
use std::alloc::Global;
use table_rows::RowStore;

/// What is checked, with its period and its unit as those of a cell.
#[derive(Drop)]
pub struct Spot {
    pub place: Place,
    pub periods: CellPeriods,
    pub units: CellUnits,
}

/// The place as a cell.
pub(crate) fn spot_of<S: RowStore>(
    alloc: Global,
    source: &Source<'_, S>,
    place: &Place,
) -> Result<Spot, Memory>
    requires { IsChecking source.now.meta.now source.now.seer.now place.now }
    ensures spot { IfOk result (λ spot. IsSpot source.now.meta.now source.now.seer.now spot) }
    ensures place { IfOk result (λ spot. spot.place ≡ place.now) }
{
    let periods = CellPeriods::of(alloc, &[place.period])?;
    let units = CellUnits::of(alloc, source.meta, source.seer, &[place.unit], true)?;
    Ok(Spot {
        place: *place,
        periods,
        units,
    })
}
