//! Tables of the first changes of a log under the latest part of the others.
ghost use Rattle.std.specs.Prelude.{◌≡◌, ◌≤◌, length, map, take, IsTrue, IfOk};
ghost use Rattle.std.specs.Arc.{arc_value};
ghost use Rattle.std.specs.List.{list_all};
ghost use Rattle.table_rows.specs.Store.{contents_in};
ghost use Rattle.table_sums.specs.YearParts.{together, years_in};
ghost use Rattle.table_build.specs.Listed.{listed_in};
ghost use Rattle.table_build.specs.Log.{writes_of, is_of_days};
ghost use Rattle.table_latest.specs.Latest.{overlaid};
ghost use Rattle.latest_build.specs.Leads.{LeadsFrom};
ghost use Rattle.dh_base.specs.declared.limits.TheConstants.{MOST_RECORDS};

use crate::build::units_stand;
use dh_base::memory::Memory;
use dh_changes::change::Change;
use dh_metadata::metadata::Metadata;
use std::alloc::Global;
use std::sync::Arc;
use table_latest::{Latest, Overlay};
use table_rows::RowStore;
use table_sums::Tables;

/// The base under the latest part: a store of the rows, registrations and events that all the changes leave. Its years are those of
/// the base, which may stand for more of the changes than the tables from which the part was made.
pub fn tables_over(
    alloc: Global,
    meta: &Metadata,
    changes: &[Arc<Change>],
    base: &Arc<Tables>,
    latest: &Arc<Latest>,
) -> Result<Overlay<Tables>, Memory>
    requires few { length (writes_of (map arc_value changes.now)) ≤ MOST_RECORDS }
    requires days { IsTrue (list_all is_of_days (writes_of (map arc_value changes.now))) }
    requires base { together (arc_value base.now).parts
        ≡ contents_in (listed_in meta.now (writes_of (map arc_value (take (arc_value base.now).base_cut changes.now)))) }
    requires from { (arc_value latest.now).from ≤ (arc_value base.now).base_cut }
    requires cut { (arc_value base.now).base_cut ≤ length changes.now }
    requires leads { LeadsFrom meta.now (map arc_value changes.now) (arc_value latest.now) }
    ensures all { IfOk result (λ over. overlaid (contents_in over.base) over.latest
        ≡ contents_in (listed_in meta.now (writes_of (map arc_value changes.now)))) }
    ensures years { IfOk result (λ over. over.base.years ≡ years_in (arc_value base.now).parts) }
    ensures latest { IfOk result (λ over. over.latest ≡ arc_value latest.now) }
{
    units_stand(meta);
    let _years = RowStore::years(&**base);
    let shared = Arc::try_clone(base)?;
    let part = Arc::try_clone(latest)?;
    let over = Overlay::of(alloc, shared, part)?;
    Ok(over)
}
