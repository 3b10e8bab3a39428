//! The years of rows.
ghost use Rattle.std.specs.Prelude.{◌≡◌, map, OnOk, IfOk};
ghost use Rattle.std.specs.BTreeMap.{insert_entry};
ghost use Rattle.std.specs.List.{filter_map};
ghost use Rattle.std.specs.Ordering.{int_cmp};
ghost use Rattle.table_build.specs.Ordered.{put_all};
ghost use Rattle.table_build.specs.Years as known;

use dh_base::memory::Memory;
use std::alloc::Global;
use std::collections::BTreeMap;
use table_rows::{EventRow, RegRow, Row};
use table_sums::day_year;

pub(crate) fn put_year(years: &mut BTreeMap<i32, i32>, year: i32) -> Result<(), Memory>
    ensures { OnOk result (years.new.entries ≡ insert_entry int_cmp years.old.entries year year) }
{
    years.insert(year, year)?;
    Ok(())
}

#[tactic(auto, unfolding(crate::specs::Years::row_year))]
fn put_rows(years: &mut BTreeMap<i32, i32>, rows: &[Row]) -> Result<(), Memory>
    ensures { OnOk result (years.new.entries ≡ put_all int_cmp (λ year. year) years.old.entries (map known.row_year rows.now)) }
{
    for row in rows {
        put_year(years, row.period.year())?;
    }
    Ok(())
}

#[tactic(auto, unfolding(crate::specs::Years::reg_year))]
fn put_regs(years: &mut BTreeMap<i32, i32>, regs: &[RegRow]) -> Result<(), Memory>
    ensures { OnOk result (years.new.entries ≡ put_all int_cmp (λ year. year) years.old.entries (map known.reg_year regs.now)) }
{
    for reg in regs {
        put_year(years, reg.period.year())?;
    }
    Ok(())
}

#[tactic(auto, unfolding(crate::specs::Years::event_year))]
fn put_events(years: &mut BTreeMap<i32, i32>, events: &[EventRow]) -> Result<(), Memory>
    ensures { OnOk result (years.new.entries ≡ put_all int_cmp (λ year. year) years.old.entries (filter_map known.event_year events.now)) }
{
    for event in events {
        if let Some(year) = day_year(event.day) {
            put_year(years, year)?;
        }
    }
    Ok(())
}

/// The years of rows and registrations by the first day of their periods, and of events by their
/// days, ascending.
#[tactic(auto, unfolding(crate::specs::Years::years_of), using(crate::proofs::OrderedLemmas::put_all_append))]
pub fn years_of(
    alloc: Global,
    rows: &[Row],
    regs: &[RegRow],
    events: &[EventRow],
) -> Result<Vec<i32>, Memory>
    ensures { IfOk result (λ years. years.items ≡ known.years_of rows.now regs.now events.now) }
{
    let mut years = BTreeMap::new(alloc);
    put_rows(&mut years, rows)?;
    put_regs(&mut years, regs)?;
    put_events(&mut years, events)?;
    Ok(years.into_values().collect(alloc)?)
}
