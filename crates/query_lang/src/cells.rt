//! The number of a query's cells.
ghost use Rattle.std.specs.Prelude.{◌≡◌, ◌<◌, ◌^◌, None, Ok, Err, IfSome};
ghost use Rattle.dh_base.specs.Memory.{Answers, IsCause};
ghost use Rattle.query_lang.specs.Given.{cause_of};
ghost use Rattle.query_lang.specs.Query.{axis_count, cells_of, within};

use crate::fault::refused;
use crate::{Axis, Query, QueryFault};
use dh_base::codes::Code;
use std::alloc::Global;

fn axis_count<T>(axis: &Axis<T>) -> u128
    ensures value { result ≡ axis_count axis.now }
{
    if axis.filter {
        1
    } else {
        axis.items.len() as u128
    }
}

/// The number of cells, `None` where it is too wide to be told.
#[tactic(auto, unfolding(crate::specs::Query::cells_of))]
fn cells_of(query: &Query) -> Option<u128>
    ensures { IfSome result (λ count. count ≡ cells_of query.now) }
{
    let columns = (query.dx.len() as u128).checked_mul(axis_count(&query.periods))?;
    columns.checked_mul(axis_count(&query.units))
}

// Why the query is refused, if it has no units or too many cells.
#[tactic(auto, unfolding(crate::specs::Query::within))]
fn excess(alloc: Global, query: &Query, most: u64) -> Option<QueryFault>
    ensures none { result ≡ None → within most query.now ≡ Ok query.now }
    ensures some { IfSome result (λ fault. IsCause (within most query.now) (cause_of fault)) }
{
    if query.units.items.len() == 0 {
        return Some(refused(alloc, Code::F13, b""));
    }
    let Some(count) = cells_of(query) else {
        return Some(QueryFault::Memory);
    };
    if u128::from(most) < count {
        let Ok(text) = format!(in alloc; "{count}") else {
            return Some(QueryFault::Memory);
        };
        return Some(refused(alloc, Code::F16, text.as_bytes()));
    }
    None
}

/// A query with units and at most so many cells.
pub(crate) fn within(alloc: Global, query: Query, most: u64) -> Result<Query, QueryFault>
    ensures { Answers cause_of (within most query) result }
{
    match excess(alloc, &query, most) {
        None => Ok(query),
        Some(fault) => {
            drop(query);
            Err(fault)
        }
    }
}
