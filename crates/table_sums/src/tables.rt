//! The tables, as parts by year.
ghost use Rattle.std.specs.Prelude.{◌≡◌, IfOk};
ghost use Rattle.table_sums.specs.YearParts.{ArePartitions, years_in, rows_together, events_together, regs_together};

use crate::find::{rows_in, sum_in};
use crate::part::Partition;
use crate::year_gather::{events_in, groups_in, regs_in};
use dh_base::items::Items;
use dh_base::memory::Memory;
use dh_base::plain::Need;
use std::alloc::Global;
use std::marker::Model;
use table_rows::{EventRow, EventsAsked, Group, RegRow, Row, RowStore, Sum};

/// A store of parts by ascending year.
pub struct Tables {
    parts: Vec<Partition>,
    years: Vec<i32>,
    base_cut: u64,
}

// By hand, so that it is proved here alone and not in each crate above.
impl Drop for Tables {
    fn drop(self) {
        let Tables {
            parts: _,
            years: _,
            base_cut: _,
        } = self;
    }
}

impl Model for Tables {
    ghost use Rattle.std.specs.Prelude.{◌≡◌};
    ghost use Rattle.table_sums.specs.YearParts.{YearParts, ArePartitions, years_in};

    ghost Value = { YearParts };

    ghost view = { λ tables. record { parts = tables.parts.items; base_cut = tables.base_cut } };

    ghost invariant = { λ tables. record { parts : ArePartitions tables.parts.items; years : tables.years.items ≡ years_in tables.parts.items } };
}

fn years_of(alloc: Global, parts: &[Partition]) -> Result<Vec<i32>, Memory>
    ensures { IfOk result (λ years. years.items ≡ years_in parts.now) }
{
    let mut years = Vec::new(alloc);
    for part in parts {
        years.push(part.year())?;
    }
    Ok(years)
}

impl Tables {
    /// The tables of these parts, which stand for so many changes of the log.
    pub fn of(alloc: Global, parts: Vec<Partition>, base_cut: u64) -> Result<Tables, Memory>
        requires { ArePartitions parts.items }
        ensures parts { IfOk result (λ tables. tables.parts ≡ parts.items) }
        ensures base_cut { IfOk result (λ tables. tables.base_cut ≡ base_cut) }
    {
        let years = years_of(alloc, &parts)?;
        Ok(Tables {
            parts,
            years,
            base_cut,
        })
    }

    /// For how many changes of the log its parts stand.
    pub fn base_cut(&self) -> u64
        ensures { result ≡ self.now.base_cut }
    {
        self.base_cut
    }
}

impl RowStore for Tables {
    ghost rows = { λ tables. rows_together tables.parts };

    ghost events = { λ tables. events_together tables.parts };

    ghost regs = { λ tables. regs_together tables.parts };

    ghost built = { λ tables. years_in tables.parts };

    fn groups(&self, alloc: Global, element: u32) -> Result<Items<Group>, Memory> {
        groups_in(alloc, &self.parts, element)
    }

    fn range_sum(&self, group: Group, need: Need, from: u32, to: u32) -> Sum {
        sum_in(&self.parts, &self.years, &group, need, from, to)
    }

    fn rows_of(
        &self,
        alloc: Global,
        group: Group,
        need: Need,
        from: u32,
        to: u32,
    ) -> Result<Items<Row>, Memory> {
        rows_in(alloc, &self.parts, &self.years, &group, need, from, to)
    }

    fn lend_events(
        &self,
        alloc: Global,
        program: u32,
        from_day: i32,
        to_day: i32,
    ) -> Result<Vec<&EventRow>, Memory> {
        let asked = EventsAsked {
            program,
            from_day,
            to_day,
        };
        events_in(alloc, &self.parts, &self.years, &asked)
    }

    fn regs_of(&self, alloc: Global, set: u32) -> Result<Items<RegRow>, Memory> {
        regs_in(alloc, &self.parts, set)
    }

    fn years(&self) -> &[i32] {
        &self.years
    }
}
