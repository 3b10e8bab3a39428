//! The answer.

ghost use Rattle.std.specs.Prelude.{◌≡◌, [], None, option_map, IfOk};
ghost use Rattle.table_rows.specs.Store.{Contents};
ghost use Rattle.cell_values.specs.Held.{IsSeer};
ghost use Rattle.cell_values.specs.Seen.{seen_of, contents_of, SameSeen};
ghost use Rattle.query_answer.specs.Asked.{CanAnswer};
ghost use Rattle.query_answer.specs.Answer.{wide_dx, answer_of, cause_of};
ghost use Rattle.dh_base.specs.Memory.{Answers};
ghost use Rattle.query_answer.specs.Rows.{rows_from};

use crate::asking::Asking;
use crate::body::body;
use crate::body_rows::AnswerRow;
use crate::both::both;
use crate::parts::{period_parts, unit_parts};
use crate::rows::write_rows;
use cell_values::{Seer, Source};
use dh_base::items::Items;
use dh_base::memory::Memory;
use dh_metadata::metadata::Metadata;
use query_lang::Query;
use std::alloc::Global;
use table_rows::RowStore;

/// Why there is no answer.
#[derive(Drop)]
pub enum AnswerFault {
    /// A cell is too wide to be computed. It carries the text of the first `dx` item that has such
    /// a cell.
    Wide { id: Items<u8> },
    /// Memory ran out.
    Memory,
}

impl From<Memory> for AnswerFault {
    ghost use Rattle.query_answer.specs.declared.whole.AnswerFault.TheVariants as fault;

    ghost from_gives = { λ _ made. made ≡ fault.Memory };

    fn from(_fault: Memory) -> AnswerFault {
        AnswerFault::Memory
    }
}

/// The rows of a query over the records that the user sees, or the text of the first `dx` item with
/// a cell that is too wide.
fn query_rows<S: RowStore>(
    alloc: Global,
    source: &Source<'_, S>,
    query: &Query,
    rows: &mut Vec<AnswerRow>,
) -> Result<Option<Items<u8>>, Memory>
    requires seer { IsSeer source.now.meta.now source.now.seer.now }
    requires query { CanAnswer source.now.meta.now query.now }
    requires empty { rows.old.items ≡ [] }
    ensures wide { IfOk result (λ found. found ≡ option_map (λ dx. dx.text) (wide_dx source.now.meta.now query.now
        (seen_of source.now.meta.now source.now.seer.now.user
        (contents_of (S.rows source.now.store.now) (S.events source.now.store.now) (S.regs source.now.store.now))))) }
    ensures rows { IfOk result (λ found. found ≡ None → rows.new.items ≡ rows_from source.now.meta.now
        (seen_of source.now.meta.now source.now.seer.now.user
        (contents_of (S.rows source.now.store.now) (S.events source.now.store.now) (S.regs source.now.store.now)))
        query.now 0 query.now.dx) }
{
    let all_periods = period_parts(alloc, &query.periods);
    let all_units = unit_parts(alloc, source.meta, source.seer, &query.units);
    let (all_periods, all_units) = both(all_periods, all_units)?;
    let periods = all_periods.as_slice();
    let units = all_units.as_slice();
    let asking = Asking {
        source,
        query,
        periods,
        units,
    };
    let found = write_rows(alloc, &asking, rows);
    drop(all_units);
    drop(all_periods);
    found
}

/// The text of the body that answers a query over the records that the user sees.
pub fn answer<S: RowStore>(
    alloc: Global,
    meta: &Metadata,
    store: &S,
    seer: &Seer,
    query: &Query,
) -> Result<Items<u8>, AnswerFault>
    requires seer { IsSeer meta.now seer.now }
    requires query { CanAnswer meta.now query.now }
    ensures answer { Answers cause_of (answer_of meta.now query.now
        (seen_of meta.now seer.now.user (contents_of (S.rows store.now) (S.events store.now) (S.regs store.now)))) result }
    ensures unseen { (held : Contents)
        → SameSeen (seen_of meta.now seer.now.user (contents_of (S.rows store.now) (S.events store.now) (S.regs store.now)))
        (seen_of meta.now seer.now.user held) → Answers cause_of (answer_of meta.now query.now (seen_of meta.now seer.now.user held)) result }
{
    let source = Source { meta, store, seer };
    let mut rows = Vec::new(alloc);
    match query_rows(alloc, &source, query, &mut rows)? {
        Some(id) => Err(AnswerFault::Wide { id }),
        None => Ok(body(alloc, meta, query, rows.as_slice())?),
    }
}
