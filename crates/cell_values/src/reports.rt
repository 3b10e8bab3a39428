//! The reports of a data set that were registered, and its rates.
ghost use Rattle.std.specs.Prelude.{◌≡◌, ◌<◌, ◌-ℤ◌, true, ℕ, List, length, IfOk, OnOk};
ghost use Rattle.dh_periods.specs.declared.name.PeriodName.{PeriodName};
ghost use Rattle.dh_metadata.specs.Linked.{AreBelow};
ghost use Rattle.table_rows.specs.declared.event.RegRow.{RegRow};
ghost use Rattle.table_rows.specs.Events.{reg_cmp};
ghost use Rattle.table_rows.specs.Store.{rises};
ghost use Rattle.cell_values.specs.Reporting.{is_timely, is_in_time, is_counted, report_of, reports_of, rate_of};
ghost use Rattle.cell_values.specs.Prepared.{differs_from_last, with_report, AreReports, IsDue, IsPrepared};

use crate::assigned::{assigned, is_assigned_at};
use crate::due::{Due, orders_in, rate_in};
use crate::periods::periods_due;
use crate::places::unit_ranges;
use dh_base::frac::Frac;
use dh_base::items::Items;
use dh_base::memory::Memory;
use dh_base::plain::Rate;
use dh_metadata::metadata::Metadata;
use dh_metadata::records::DataSet;
use dh_periods::{Period, PeriodType};
use std::alloc::Global;
use table_rows::RegRow;

/// A unit, by its order in the tree, and a period for which it reported.
#[derive(Clone, Copy)]
pub struct Report {
    pub period: Period,
    pub order: u32,
}

/// What is worked out once for a rate of a data set. It is made of metadata, and asked with the
/// same metadata.
#[derive(Drop)]
pub struct Reports {
    pub which: Rate,
    /// The type of the data set's periods.
    pub kind: PeriodType,
    /// The orders of its units.
    pub assigned: Items<u32>,
    /// The registered reports, each once.
    pub reports: Items<Report>,
}

fn ahead(day: i32, last: i32) -> i64
    ensures { result ≡ day -ℤ last }
{
    i64::from(day) - i64::from(last)
}

/// Whether the registration was at most so many days after its period.
#[tactic(auto, unfolding(crate::specs::Reporting::is_timely))]
fn is_timely(days: i64, reg: &RegRow) -> bool
    ensures { result ≡ is_timely days reg.now }
{
    ahead(reg.day, reg.period.last()) <= days
}

/// Whether the registration is on time, where that is asked.
fn is_in_time(which: Rate, days: i64, reg: &RegRow) -> bool
    ensures { result ≡ is_in_time which days reg.now }
{
    match which {
        Rate::Expected | Rate::Actual | Rate::Reported => true,
        Rate::OnTime | Rate::ReportedOnTime => is_timely(days, reg),
    }
}

/// Whether the registration counts for a rate of the data set.
#[tactic(auto, unfolding(crate::specs::Reporting::is_counted))]
fn is_counted(meta: &Metadata, which: Rate, set: u32, found: &DataSet, reg: &RegRow) -> bool
    requires { set < length meta.now.data_sets }
    ensures { result ≡ is_counted meta.now which set found.now reg.now }
{
    reg.is_of(set)
        && found.period_type == reg.period.kind()
        && is_assigned_at(meta, set, reg.order)
        && is_in_time(which, found.timely_days, reg)
}

/// Whether the registration is of another report than the last.
fn differs_from_last(reports: &[Report], reg: &RegRow) -> bool
    ensures { result ≡ differs_from_last reports.now (report_of reg.now) }
{
    match reports.last() {
        Some(last) => !(reg.period == last.period && reg.order == last.order),
        None => true,
    }
}

/// Adds the report of a registration that counts, where it isn't the last.
fn add_report(reports: &mut Vec<Report>, reg: &RegRow, counts: bool) -> Result<(), Memory>
    ensures { OnOk result (reports.new.items ≡ with_report counts reports.old.items (report_of reg.now)) }
{
    if counts && differs_from_last(reports, reg) {
        reports.push(Report {
            period: reg.period,
            order: reg.order,
        })?;
    }
    Ok(())
}

/// The reports that were registered. Registrations in their order have those of one report side by
/// side.
#[tactic(auto, unfolding(crate::specs::Reporting::reports_of))]
fn reports_of(
    alloc: Global,
    meta: &Metadata,
    which: Rate,
    set: u32,
    found: &DataSet,
    regs: &[RegRow],
) -> Result<Items<Report>, Memory>
    requires set { set < length meta.now.data_sets }
    requires rise { rises reg_cmp regs.now ≡ true }
    ensures { IfOk result (λ reports. reports ≡ reports_of meta.now which set found.now regs.now) }
{
    let mut reports: Vec<Report> = Vec::new(alloc);
    for reg in regs {
        let counts = is_counted(meta, which, set, found, reg);
        add_report(&mut reports, reg, counts)?;
    }
    Ok(Items::from(reports))
}

impl Reports {
    /// The reports of the data set, from the registrations that count: those that are seen, in
    /// their order.
    pub fn of(
        alloc: Global,
        meta: &Metadata,
        which: Rate,
        set: u32,
        regs: &[RegRow],
    ) -> Result<Reports, Memory>
        requires set { set < length meta.now.data_sets }
        requires rise { rises reg_cmp regs.now ≡ true }
        ensures { IfOk result (λ reports. AreReports meta.now which set regs.now reports) }
    {
        let found = meta.data_set(set);
        let assigned = assigned(alloc, meta, set)?;
        let reports = reports_of(alloc, meta, which, set, found, regs)?;
        Ok(Reports {
            which,
            kind: found.period_type,
            assigned,
            reports,
        })
    }

    /// What is due in some periods, and what was registered for these.
    pub fn during(&self, alloc: Global, periods: &[Period]) -> Result<Due, Memory>
        ensures { IfOk result (λ due. IsDue periods.now self.now due) }
    {
        let count = periods_due(alloc, self.kind, periods)?;
        let orders = orders_in(alloc, periods, self.reports.as_slice())?;
        Ok(Due {
            periods: count,
            orders,
        })
    }

    /// The rate over the units and what is under them, or over the units `alone`. There is none
    /// where no report is due.
    pub fn rate(
        &self,
        alloc: Global,
        meta: &Metadata,
        due: &Due,
        units: &[u32],
        alone: bool,
    ) -> Result<Option<Frac>, Memory>
        requires prepared { IsPrepared self.now due.now }
        requires units { AreBelow (length meta.now.organisation_units) units.now }
        ensures { (which : Rate) (set : ℕ) (regs : List RegRow) (periods : List PeriodName)
            → AreReports meta.now which set regs self.now → IsDue periods self.now due.now
            → IfOk result (λ value. value ≡ rate_of meta.now which set periods units.now regs alone) }
    {
        let asked = unit_ranges(alloc, meta.tree(), units, alone)?;
        Ok(rate_in(self, due, asked.parts()))
    }
}
