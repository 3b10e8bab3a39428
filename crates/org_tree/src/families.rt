ghost use Rattle.std.specs.Prelude.{◌≡◌, ◌<◌, length, map, IfOk};
ghost use Rattle.org_tree.specs.Families.{InFamilies};
ghost use Rattle.org_tree.specs.KinRows.{kin_row, numbers};
ghost use Rattle.org_tree.specs.Levels.{AreLevels};
ghost use Rattle.org_tree.specs.Units.{IsTree};

use crate::kin::Kin;
use crate::rows::{id, parent};
use dh_base::uid::Uid;
use std::alloc::{AllocError, Global};

/// The units by level, then by family, siblings by their UIDs.
pub fn families(
    alloc: Global,
    units: &[(Uid, Option<u32>)],
    levels: &[u8],
) -> Result<Vec<u32>, AllocError>
    requires tree { IsTree units.now }
    requires levels { AreLevels units.now levels.now }
    ensures { IfOk result (λ kin. InFamilies units.now kin.items) }
{
    let mut rows = rows(alloc, units, levels)?;
    rows.sort()?;
    places(alloc, &rows)
}

fn rows(alloc: Global, units: &[(Uid, Option<u32>)], levels: &[u8]) -> Result<Vec<Kin>, AllocError>
    requires tree { IsTree units.now }
    requires levels { AreLevels units.now levels.now }
    ensures { IfOk result (λ rows. rows.items ≡ map (kin_row units.now) (numbers (length units.now))) }
{
    let mut rows = Vec::with_capacity(alloc, units.len())?;
    for unit in 0..units.len() as u32 {
        rows.push(row_at(units, levels, unit))?;
    }
    Ok(rows)
}

fn places(alloc: Global, rows: &[Kin]) -> Result<Vec<u32>, AllocError>
    ensures { IfOk result (λ places. places.items ≡ map (λ row. row.place) rows.now) }
{
    let mut places = Vec::with_capacity(alloc, rows.len())?;
    for row in rows {
        places.push(row.place)?;
    }
    Ok(places)
}

fn row_at(units: &[(Uid, Option<u32>)], levels: &[u8], unit: u32) -> Kin
    requires tree { IsTree units.now }
    requires levels { AreLevels units.now levels.now }
    requires in_range { unit < length units.now }
    ensures { result ≡ kin_row units.now unit }
{
    Kin {
        level: levels[unit as usize],
        family: parent(units, unit).unwrap_or(0),
        id: id(units, unit),
        place: unit,
    }
}
