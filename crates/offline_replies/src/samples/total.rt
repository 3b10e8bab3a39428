//! The rows of the samples, and their total, as the user sees it.
ghost use Rattle.std.specs.Prelude.{◌≡◌, ◌<◌, length, Some, IfOk};
ghost use Rattle.offline_replies.specs.Ids.{country_id, element_id, user_id};
ghost use Rattle.offline_replies.specs.Report.{years, records_of, total_for, total_of, total_text};

use crate::named::named;
use crate::samples::counts::count_rows;
use crate::samples::ids::{COUNTRY, ELEMENT, USER};
use cell_values::{CellPeriods, CellUnits, Operand, Seer, Source, element_value};
use dh_base::frac::Frac;
use dh_base::memory::Memory;
use dh_base::print::print_rounded;
use dh_metadata::kind::Kind;
use dh_metadata::metadata::Metadata;
use dh_periods::Period;
use std::alloc::Global;
use table_rows::RowStore;

#[tactic(auto, unfolding(crate::specs::Report::years))]
fn years(alloc: Global) -> Result<Vec<Period>, Memory>
    ensures value { IfOk result (λ list. list.items ≡ years) }
{
    let mut list = Vec::new(alloc);
    if let Some(year) = Period::parse(b"2023") {
        list.push(year)?;
    }
    if let Some(year) = Period::parse(b"2024") {
        list.push(year)?;
    }
    Ok(list)
}

// The value of an element for a unit over the years, as a user sees it.
fn total_for<S: RowStore>(
    alloc: Global,
    meta: &Metadata,
    store: &S,
    user: u32,
    element: u32,
    unit: u32,
) -> Result<Option<Frac>, Memory>
    requires user { user < length meta.now.users }
    requires element { element < length meta.now.data_elements }
    requires unit { unit < length meta.now.organisation_units }
    ensures { IfOk result (λ total. total ≡ total_for meta.now (S.rows store.now) user element unit) }
{
    let seer = Seer::of(alloc, meta, user)?;
    let years = years(alloc)?;
    let periods = CellPeriods::of(alloc, &years)?;
    let units = CellUnits::of(alloc, meta, &seer, &[unit], false)?;
    let operand = Operand {
        element,
        combo: None,
        attribute: None,
    };
    let source = Source {
        meta,
        store,
        seer: &seer,
    };
    element_value(alloc, &source, &operand, &periods, &units)
}

/// The value of the element for the country over the years, as the user of the samples sees it.
#[tactic(auto, unfolding(crate::specs::Report::total_of, crate::specs::Ids::user_id, crate::specs::Ids::element_id, crate::specs::Ids::country_id))]
pub(crate) fn total_of<S: RowStore>(
    alloc: Global,
    meta: &Metadata,
    store: &S,
) -> Result<Option<Frac>, Memory>
    ensures { IfOk result (λ total. total ≡ total_of meta.now (S.rows store.now)) }
{
    let Some(user) = named(meta, Kind::User, USER) else {
        return Ok(None);
    };
    let Some(element) = named(meta, Kind::DataElement, ELEMENT) else {
        return Ok(None);
    };
    let Some(unit) = named(meta, Kind::OrganisationUnit, COUNTRY) else {
        return Ok(None);
    };
    total_for(alloc, meta, store, user, element, unit)
}

/// How many rows there are of the element of the samples.
#[tactic(auto, unfolding(crate::specs::Report::records_of, crate::specs::Ids::element_id))]
pub(crate) fn records_of<S: RowStore>(
    alloc: Global,
    meta: &Metadata,
    store: &S,
) -> Result<u64, Memory>
    ensures { IfOk result (λ count. count ≡ records_of meta.now (S.rows store.now)) }
{
    match named(meta, Kind::DataElement, ELEMENT) {
        Some(element) => count_rows(alloc, store, element, meta.count(Kind::OrganisationUnit)),
        None => Ok(0),
    }
}

/// The text of a total.
#[tactic(auto, unfolding(crate::specs::Report::total_text))]
pub(crate) fn total_text(alloc: Global, total: Option<Frac>) -> Result<Vec<u8>, Memory>
    ensures { IfOk result (λ text. text.items ≡ total_text total) }
{
    match total {
        Some(number) => print_rounded(alloc, number, 6),
        None => Ok(b"none".to_vec(alloc)?),
    }
}
