//! Tables under a latest part, as one store.
ghost use Rattle.std.specs.Prelude.{◌≡◌, map, IfOk};
ghost use Rattle.std.specs.Arc.{arc_value};
ghost use Rattle.table_rows.specs.Events.{events_of, regs_of};
ghost use Rattle.table_rows.specs.Rows.{wanted_rows};
ghost use Rattle.table_rows.specs.Store.{Contents, contents_in};
ghost use Rattle.table_rows.specs.Sums.{sum_of_rows, IsSized};
ghost use Rattle.table_latest.specs.Latest.{IsOverlay, events_over, listed_from, overlaid, regs_over, rows_over, touched_rows};
ghost use Rattle.table_latest.specs.Later.{Bridges};

use crate::groups::groups_over;
use crate::kept::{Asked, kept_sum};
use crate::latest::Latest;
use crate::lent::{lent_events, lent_of, lent_untouched};
use crate::merged::{merged, untouched};
use crate::replaced::store_at;
use dh_base::items::Items;
use dh_base::memory::Memory;
use dh_base::plain::Need;
use std::alloc::Global;
use std::marker::Model;
use std::sync::Arc;
use table_rows::{EventRow, EventsAsked, Group, RegRow, Row, RowStore, Sum};
use table_sums::SummedRows;

/// A base store with a latest part over it. A touched key has what the latest part holds, or nothing; each other key has
/// what the base holds. It shares both, so that they outlive those who lent them.
pub struct Overlay<S: RowStore> {
    base: Arc<S>,
    latest: Arc<Latest>,
    // the base's rows of the latest part's keys
    replaced: SummedRows,
}

// By hand, so that it is proved here alone and not in each crate above.
impl<S: RowStore + Drop> Drop for Overlay<S> {
    fn drop(self) {
        let Overlay {
            base: _,
            latest: _,
            replaced: _,
        } = self;
    }
}

impl<S: RowStore> Model for Overlay<S> {
    ghost use Rattle.std.specs.Arc.{arc_value};
    ghost use Rattle.std.specs.Prelude.{◌≡◌};
    ghost use Rattle.table_latest.specs.Latest.{IsOverlay, Overlaid, listed_from, touched_rows};

    ghost Value = { Overlaid };

    ghost view = { λ overlay. record {
      base = listed_from (S.rows (arc_value overlay.base)) (S.events (arc_value overlay.base)) (S.regs (arc_value overlay.base))
          (S.built (arc_value overlay.base));
      latest = arc_value overlay.latest;
    } };

    ghost invariant = { λ overlay. record {
      over : IsOverlay (listed_from (S.rows (arc_value overlay.base)) (S.events (arc_value overlay.base)) (S.regs (arc_value overlay.base))
          (S.built (arc_value overlay.base))) (arc_value overlay.latest);
      replaced : overlay.replaced.rows ≡ touched_rows (arc_value overlay.latest).touched.rows (S.rows (arc_value overlay.base));
    } };
}

fn sum_over<S: RowStore>(base: &S, latest: &Latest, replaced: &SummedRows, asked: &Asked) -> Sum
    requires over { IsOverlay (listed_from (S.rows base.now) (S.events base.now) (S.regs base.now) (S.built base.now)) latest.now }
    requires replaced { replaced.now.rows ≡ touched_rows latest.now.touched.rows (S.rows base.now) }
    ensures sum { result ≡ sum_of_rows (wanted_rows asked.now.group asked.now.need asked.now.from asked.now.to (rows_over (contents_in (listed_from
        (S.rows base.now) (S.events base.now) (S.regs base.now) (S.built base.now))) latest.now)) }
    ensures size { IsSized result }
{
    if asked.from < asked.to {
        let kept = kept_sum(base, latest, replaced, asked);
        let now = RowStore::range_sum(
            latest.store(),
            asked.group,
            asked.need,
            asked.from,
            asked.to,
        );
        kept.join(&now)
    } else {
        Sum::none()
    }
}

fn rows_in<S: RowStore>(
    alloc: Global,
    base: &S,
    latest: &Latest,
    group: &Group,
    need: Need,
    from: u32,
    to: u32,
) -> Result<Items<Row>, Memory>
    requires { IsOverlay (listed_from (S.rows base.now) (S.events base.now) (S.regs base.now) (S.built base.now)) latest.now }
    ensures { IfOk result (λ found. found ≡ wanted_rows group.now need from to (rows_over (contents_in (listed_from (S.rows base.now) (S.events base.now)
        (S.regs base.now) (S.built base.now))) latest.now)) }
{
    let Items { items: all } = base.rows_of(alloc, *group, need, from, to)?;
    let Items { items: now } = RowStore::rows_of(latest.store(), alloc, *group, need, from, to)?;
    let kept = untouched(alloc, all, latest)?;
    let rows = merged(alloc, kept, now)?;
    Ok(Items::from(rows))
}

fn events_in<'a, S: RowStore>(
    alloc: Global,
    base: &'a S,
    latest: &'a Latest,
    asked: &EventsAsked,
) -> Result<Vec<&'a EventRow>, Memory>
    requires { IsOverlay (listed_from (S.rows base.now) (S.events base.now) (S.regs base.now) (S.built base.now)) latest.now }
    ensures { IfOk result (λ found. map (λ event. event.now) found.items ≡ events_of asked.now.program asked.now.from_day asked.now.to_day
        (events_over (contents_in (listed_from (S.rows base.now) (S.events base.now) (S.regs base.now) (S.built base.now))) latest.now)) }
{
    let all = base.lend_events(alloc, asked.program, asked.from_day, asked.to_day)?;
    let now = RowStore::lend_events(
        latest.store(),
        alloc,
        asked.program,
        asked.from_day,
        asked.to_day,
    )?;
    let kept = lent_untouched(alloc, &all, latest)?;
    let more = lent_of(alloc, &now)?;
    let events = merged(alloc, kept, more)?;
    lent_events(alloc, &events)
}

fn regs_in<S: RowStore>(
    alloc: Global,
    base: &S,
    latest: &Latest,
    set: u32,
) -> Result<Items<RegRow>, Memory>
    requires { IsOverlay (listed_from (S.rows base.now) (S.events base.now) (S.regs base.now) (S.built base.now)) latest.now }
    ensures { IfOk result (λ found. found ≡ regs_of set (regs_over (contents_in (listed_from (S.rows base.now) (S.events base.now) (S.regs base.now)
        (S.built base.now))) latest.now)) }
{
    let Items { items: all } = base.regs_of(alloc, set)?;
    let Items { items: now } = RowStore::regs_of(latest.store(), alloc, set)?;
    let kept = untouched(alloc, all, latest)?;
    let regs = merged(alloc, kept, now)?;
    Ok(Items::from(regs))
}

impl<S: RowStore> Overlay<S> {
    /// The base with the latest part over it.
    pub fn of(alloc: Global, base: Arc<S>, latest: Arc<Latest>) -> Result<Overlay<S>, Memory>
    where
        S: Drop,
        requires { IsOverlay (listed_from (S.rows (arc_value base)) (S.events (arc_value base)) (S.regs (arc_value base)) (S.built (arc_value base)))
            (arc_value latest) }
        ensures base { IfOk result (λ overlay. overlay.base ≡ listed_from (S.rows (arc_value base)) (S.events (arc_value base)) (S.regs (arc_value base))
            (S.built (arc_value base))) }
        ensures latest { IfOk result (λ overlay. overlay.latest ≡ arc_value latest) }
        ensures later { IfOk result (λ overlay. (later : Contents) → Bridges overlay.base overlay.latest later
            → overlaid (contents_in overlay.base) overlay.latest ≡ later) }
    {
        let replaced = store_at(alloc, &*base, latest.places())?;
        Ok(Overlay {
            base,
            latest,
            replaced,
        })
    }

    /// The latest part.
    pub fn latest(&self) -> &Arc<Latest>
        ensures { arc_value result.now ≡ self.now.latest }
    {
        &self.latest
    }
}

impl<S: RowStore> RowStore for Overlay<S> {
    ghost use Rattle.table_rows.specs.Store.{contents_in};
    ghost use Rattle.table_latest.specs.Latest.{events_over, regs_over, rows_over};

    ghost rows = { λ overlay. rows_over (contents_in overlay.base) overlay.latest };

    ghost events = { λ overlay. events_over (contents_in overlay.base) overlay.latest };

    ghost regs = { λ overlay. regs_over (contents_in overlay.base) overlay.latest };

    ghost built = { λ overlay. overlay.base.years };

    fn groups(&self, alloc: Global, element: u32) -> Result<Items<Group>, Memory> {
        groups_over(alloc, &*self.base, &self.latest, &self.replaced, element)
    }

    fn range_sum(&self, group: Group, need: Need, from: u32, to: u32) -> Sum {
        let asked = Asked {
            group,
            need,
            from,
            to,
        };
        sum_over(&*self.base, &self.latest, &self.replaced, &asked)
    }

    fn rows_of(
        &self,
        alloc: Global,
        group: Group,
        need: Need,
        from: u32,
        to: u32,
    ) -> Result<Items<Row>, Memory> {
        rows_in(alloc, &*self.base, &self.latest, &group, need, from, to)
    }

    fn lend_events(
        &self,
        alloc: Global,
        program: u32,
        from_day: i32,
        to_day: i32,
    ) -> Result<Vec<&EventRow>, Memory> {
        let asked = EventsAsked {
            program,
            from_day,
            to_day,
        };
        events_in(alloc, &*self.base, &self.latest, &asked)
    }

    fn regs_of(&self, alloc: Global, set: u32) -> Result<Items<RegRow>, Memory> {
        regs_in(alloc, &*self.base, &self.latest, set)
    }

    fn years(&self) -> &[i32] {
        self.base.years()
    }
}
