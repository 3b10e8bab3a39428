//! A query of its text.
ghost use Rattle.std.specs.Prelude.{◌<◌, length, ◌≤ℤ◌, IfOk};
ghost use Rattle.dh_base.specs.declared.limits.TheConstants.{FIRST_QUERY_DAY, LAST_QUERY_DAY};
ghost use Rattle.query_lang.specs.Askable.{IsAskable};
ghost use Rattle.dh_base.specs.Memory.{Answers};
ghost use Rattle.query_lang.specs.Given.{cause_of};
ghost use Rattle.query_lang.specs.Each.{each_of};
ghost use Rattle.query_lang.specs.Units.{part_of};
ghost use Rattle.query_lang.specs.Query.{named_in, query_from, query_of};

use crate::cells::within;
use crate::form::Form;
use crate::item::UnitItem;
use crate::named::each_dx;
use crate::part::Part;
use crate::text::form_of;
use crate::units::{each_part, units_of};
use crate::view::ranges_under;
use crate::{Axis, Dx, Query, QueryFault};
use dh_base::items::Items;
use dh_metadata::metadata::Metadata;
use std::alloc::Global;

/// The most cells of a query that is answered.
pub const MOST_CELLS: u64 = 100_000;

// What the items of the dimension `ou` name, by the ranges of the units that the user sees.
#[tactic(auto, using(crate::proofs::ViewLemmas::views_in))]
fn parts_of(
    alloc: Global,
    meta: &Metadata,
    user: u32,
    items: &[UnitItem],
) -> Result<Items<Part>, QueryFault>
    requires { user < length meta.now.users }
    ensures { Answers cause_of (each_of (part_of meta.now user) items.now) result }
{
    let view = ranges_under(alloc, meta.tree(), meta.view_units(user))?;
    each_part(alloc, meta, user, &view, items)
}

// What the items of a form name, and the units that they choose. The form is only lent: it isn't held
// here while something is refused.
#[tactic(auto, unfolding(crate::specs::Query::named_in))]
fn named_in(
    alloc: Global,
    meta: &Metadata,
    user: u32,
    form: &Form,
) -> Result<(Items<Dx>, Items<u32>), QueryFault>
    requires { user < length meta.now.users }
    ensures { Answers cause_of (named_in meta.now user form.now) result }
{
    let dx = each_dx(alloc, meta, user, form.dx.as_slice())?;
    let parts = parts_of(alloc, meta, user, form.units.items.as_slice())?;
    let units = units_of(alloc, meta, user, parts.as_slice())?;
    Ok((dx, units))
}

#[tactic(auto, unfolding(crate::specs::Query::query_from))]
fn query_from(
    alloc: Global,
    meta: &Metadata,
    user: u32,
    cells: u64,
    form: Form,
) -> Result<Query, QueryFault>
    requires { user < length meta.now.users }
    ensures { Answers cause_of (query_from meta.now user cells form) result }
{
    let (dx, units) = named_in(alloc, meta, user, &form)?;
    let query = Query {
        dx,
        periods: form.periods,
        units: Axis {
            items: units,
            filter: form.units.filter,
        },
        meta: form.meta,
    };
    within(alloc, query, cells)
}

/// The query of a text, for a user, on a day from 1 January 1910 to 31 December 2099, with at most
/// so many cells.
#[tactic(auto, unfolding(crate::specs::Query::query_of))]
pub fn read_query(
    alloc: Global,
    text: &[u8],
    meta: &Metadata,
    user: u32,
    day: i32,
    cells: u64,
) -> Result<Query, QueryFault>
    requires user { user < length meta.now.users }
    requires from { FIRST_QUERY_DAY ≤ℤ day }
    requires to { day ≤ℤ LAST_QUERY_DAY }
    ensures value { Answers cause_of (query_of meta.now user day cells text.now) result }
    ensures askable { IfOk result (λ query. IsAskable meta.now user query) }
{
    let form = form_of(alloc, text, day)?;
    query_from(alloc, meta, user, cells, form)
}
