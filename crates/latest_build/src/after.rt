//! The latest part of the changes after those that the base stands for.
ghost use Rattle.std.specs.Prelude.{◌≡◌, ◌≤◌, length, map, take, drop, IsTrue, IfOk};
ghost use Rattle.std.specs.Arc.{arc_value};
ghost use Rattle.std.specs.List.{list_all};
ghost use Rattle.dh_changes.specs.Facts.{facts_in};
ghost use Rattle.dh_changes.specs.World.{facts};
ghost use Rattle.table_rows.specs.Store.{contents_in};
ghost use Rattle.table_sums.specs.YearParts.{together};
ghost use Rattle.table_build.specs.Listed.{listed_in};
ghost use Rattle.table_build.specs.Log.{writes_of, is_of_days};
ghost use Rattle.latest_build.specs.Leads.{LeadsFrom};
ghost use Rattle.latest_build.specs.Touches.{touched_by};
ghost use Rattle.dh_base.specs.declared.limits.TheConstants.{MOST_RECORDS};

use crate::build::{Asked, latest_with, units_stand};
use crate::held::held_rows;
use crate::named::keys_touched;
use dh_base::memory::Memory;
use dh_changes::change::Change;
use dh_changes::world::World;
use dh_metadata::metadata::Metadata;
use std::alloc::Global;
use std::sync::Arc;
use table_latest::Latest;
use table_sums::Tables;

/// The latest part of the changes after those that the base stands for. It has the keys that they touch: the values and
/// registrations that they name, each value of the base whose approval they decide, and the events that they name or that hang on what they name.
/// So it leads on from the tables of the base and also from tables of more of the changes, which may take the place of the base.
pub fn build_latest(
    alloc: Global,
    meta: &Metadata,
    world: &World,
    base: &Tables,
    changes: &[Arc<Change>],
) -> Result<Latest, Memory>
    requires held { facts world.now ≡ facts_in (writes_of (map arc_value changes.now)) }
    requires few { length (writes_of (map arc_value changes.now)) ≤ MOST_RECORDS }
    requires days { IsTrue (list_all is_of_days (writes_of (map arc_value changes.now))) }
    requires cut { base.now.base_cut ≤ length changes.now }
    requires base { together base.now.parts ≡ contents_in (listed_in meta.now (writes_of (map arc_value (take base.now.base_cut changes.now)))) }
    ensures leads { IfOk result (λ latest. LeadsFrom meta.now (map arc_value changes.now) latest) }
    ensures from { IfOk result (λ latest. latest.from ≡ base.now.base_cut) }
    ensures to { IfOk result (λ latest. latest.to ≡ length changes.now) }
    ensures touched { IfOk result (λ latest. latest.touched ≡ touched_by meta.now (facts world.now)
        (writes_of (take base.now.base_cut (map arc_value changes.now))) (writes_of (drop base.now.base_cut (map arc_value changes.now)))) }
{
    let from = base.base_cut();
    let last = &changes[from as usize..];
    units_stand(meta);
    let touched = keys_touched(alloc, meta, world, base, last)?;
    let held = held_rows(alloc, meta, world, last, &touched.values, touched.named)?;
    let asked = Asked {
        keys: touched.keys(),
        from,
    };
    let latest = latest_with(alloc, meta, world, changes, &asked, held)?;
    Ok(latest)
}
