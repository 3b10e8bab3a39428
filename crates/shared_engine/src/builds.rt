//! The parts of an update's years: they are built outside the lock, and handed in under it.
ghost use Rattle.std.specs.Prelude.{◌≡◌, map, IfOk};
ghost use Rattle.std.specs.Arc.{arc_value};
ghost use Rattle.shared_engine.specs.Places.{ArePlaces};
ghost use Rattle.shared_engine.specs.Builds.{CanBuild, IsYearOf, ArePartsOf, HasParts};

use crate::{Builder, Gate, build_each};
use dh_base::memory::Memory;
use dh_base::plain::CutKind;
use dh_metadata::metadata::Metadata;
use dh_outside::Keeper;
use engine::{Cut, Engine, Reading, build_year, read_changes};
use std::alloc::Global;
use std::marker::Model;
use std::thread::Threads;
use table_sums::Partition;

/// Builds the parts of years of what a cut's changes leave, which were read once for all of them. Contracts see the metadata and
/// the changes.
#[derive(Drop)]
pub(crate) struct CutBuilder<'a> {
    meta: &'a Metadata,
    reading: Reading<'a>,
}

impl<'a> Model for CutBuilder<'a> {
    ghost use Rattle.std.specs.Coded.{codes};
    ghost use Rattle.expr_lang.specs.contracts.expr.Expr as expression;
    ghost use Rattle.shared_engine.specs.Builds.{Building, CanBuild};

    ghost Value = { Building };

    // The metadata have expressions.
    ghost coded = { Prim.hlevel (codes, expression.the_row.coded) };

    ghost view = { λ builder. record { meta = builder.meta.now; changes = builder.reading } };

    ghost invariant = { λ builder. CanBuild builder.reading };
}

impl<'a> Builder<Partition> for CutBuilder<'a> {
    ghost use Rattle.shared_engine.specs.Builds.{IsYearOf};

    ghost is_part = { λ builder year part. IsYearOf builder.meta builder.changes year part };

    fn build(&self, alloc: Global, year: i32) -> Result<Partition, Memory> {
        build_year(alloc, self.meta, &self.reading, year)
    }
}

/// So many workers build the parts of a cut's years at the same time, of one reading of its changes. There is a place for each year,
/// in their order; one whose building found no memory has no part.
pub fn build_all<R: Threads + Sync, G: Gate + Sync>(
    rt: &R,
    alloc: Global,
    meta: &Metadata,
    cut: &Cut,
    workers: u32,
    gate: &G,
) -> Result<Vec<Option<Partition>>, Memory>
    requires { CanBuild (map arc_value cut.now.changes.items) }
    ensures { IfOk result (λ parts. ArePlaces (IsYearOf meta.now (map arc_value cut.now.changes.items)) cut.now.years parts.items) }
{
    let changes = cut.changes.as_slice();
    let years = cut.years.as_slice();
    let reading = read_changes(alloc, changes)?;
    let builder = CutBuilder { meta, reading };
    build_each(rt, alloc, years, &builder, gate, workers)
}

/// The parts of a cut's years that were built; out of memory there is none. A latest update has none: its part is made by the cut.
#[tactic(auto, using(crate::proofs::BuildLemmas::built))]
pub(crate) fn build_parts<R: Threads + Sync, G: Gate + Sync>(
    rt: &R,
    alloc: Global,
    meta: &Metadata,
    cut: &Cut,
    workers: u32,
    gate: &G,
) -> Vec<Option<Partition>>
    requires { CanBuild (map arc_value cut.now.changes.items) }
    ensures { ArePartsOf meta.now (map arc_value cut.now.changes.items) result.items }
{
    match cut.kind {
        CutKind::Full => match build_all(rt, alloc, meta, cut, workers, gate) {
            Ok(parts) => parts,
            Err(_) => Vec::new(alloc),
        },
        CutKind::Latest => Vec::new(alloc),
    }
}

/// Hands in the parts that were built of the update with this ticket, if it is a full one.
pub(crate) fn hand_in_all<K: Keeper>(
    engine: &mut Engine<K>,
    kind: CutKind,
    ticket: u64,
    parts: Vec<Option<Partition>>,
)
    requires { HasParts engine.old kind ticket parts.items }
    ensures { engine.new ≡ engine.old }
{
    match kind {
        CutKind::Full => {
            for part in parts {
                if let Some(part) = part {
                    engine.hand_in(ticket, part);
                }
            }
        }
        CutKind::Latest => drop(parts),
    }
}
