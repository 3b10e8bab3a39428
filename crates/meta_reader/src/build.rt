//! From what a file says to metadata.

ghost use Rattle.std.specs.Prelude.{◌≡◌, None};
ghost use Rattle.std.specs.Option.{option_or};
ghost use Rattle.dh_base.specs.Memory.{Answers, Finds};
ghost use Rattle.expr_grammar.specs.Answer.{Reading};
ghost use Rattle.dh_metadata.specs.Ids.{ids_of, twice_of};
ghost use Rattle.meta_links.specs.Held.{links_of};
ghost use Rattle.meta_links.specs.Reference.{first_unknown};
ghost use Rattle.meta_links.specs.Table.{references};
ghost use Rattle.meta_rules.specs.Held.{IsHeld};
ghost use Rattle.meta_reader.specs.Faults.{unknown_fault, late_fault, linked_fault, fault_of, metadata_of, meta_cause};
ghost use Rattle.meta_reader.specs.Records.{links_in, records_in};

use crate::fault::MetaFault;
use crate::steps::{late, linked, numbered, tried};
use dh_metadata::held::{Links, Records};
use dh_metadata::ids::Ids;
use dh_metadata::metadata::Metadata;
use dh_metadata::parts::MetaParts;
use dh_metadata::structure::Structure;
use std::alloc::Global;

#[tactic(auto, using(crate::proofs::ReadyLemmas::late_met, crate::proofs::ReadyLemmas::ready))]
fn finished(
    alloc: Global,
    ids: Ids,
    parts: &MetaParts,
    records: Records,
    held: Structure,
) -> Result<Metadata, MetaFault>
    ghost reading: { Reading }
    requires ids { ids ≡ ids_of parts.now }
    requires known { first_unknown (ids_of parts.now) (references parts.now) ≡ None }
    requires records { records ≡ records_in reading.answer parts.now }
    requires held { IsHeld (links_in parts.now) held }
    ensures { Finds meta_cause (late_fault reading.answer (ids_of parts.now) parts.now (links_in parts.now))
        (λ meta. meta ≡ records_in reading.answer parts.now) result }
{
    match late(&ids, parts, &records, &held) {
        Some(fault) => {
            drop((ids, records, held));
            Err(fault)
        }
        None => Ok(Metadata::of(alloc, records, ids, held)?),
    }
}

#[tactic(auto, using(crate::proofs::FaultLemmas::faults, crate::proofs::ReadyLemmas::linked_ready, crate::proofs::ReadyLemmas::then_found))]
fn joined(alloc: Global, ids: Ids, parts: &MetaParts, links: Links) -> Result<Metadata, MetaFault>
    ghost reading: { Reading }
    requires ids { ids ≡ ids_of parts.now }
    requires differ { twice_of parts.now ≡ None }
    requires links { links ≡ links_of ids parts.now }
    requires known { first_unknown ids (references parts.now) ≡ None }
    ensures { Finds meta_cause (linked_fault reading.answer (ids_of parts.now) parts.now (links_in parts.now))
        (λ meta. meta ≡ records_in reading.answer parts.now) result }
{
    match tried(alloc, &ids, parts, links) {
        Ok((records, held)) => finished(alloc, ids, parts, records, held),
        Err(fault) => {
            drop(ids);
            Err(fault)
        }
    }
}

#[tactic(auto, using(crate::proofs::FaultLemmas::faults, crate::proofs::ReadyLemmas::then_found))]
fn numbered_parts(alloc: Global, ids: Ids, parts: &MetaParts) -> Result<Metadata, MetaFault>
    ghost reading: { Reading }
    requires ids { ids ≡ ids_of parts.now }
    requires differ { twice_of parts.now ≡ None }
    ensures { Finds meta_cause (option_or (unknown_fault (ids_of parts.now) parts.now)
        (linked_fault reading.answer (ids_of parts.now) parts.now (links_in parts.now)))
        (λ meta. meta ≡ records_in reading.answer parts.now) result }
{
    match linked(alloc, &ids, parts) {
        Ok(links) => joined(alloc, ids, parts, links),
        Err(fault) => {
            drop(ids);
            Err(fault)
        }
    }
}

#[tactic(auto, using(crate::proofs::FaultLemmas::faults, crate::proofs::ReadyLemmas::then_found), unfolding(crate::specs::Faults::fault_of))]
fn build_of(alloc: Global, parts: &MetaParts) -> Result<Metadata, MetaFault>
    ghost reading: { Reading }
    ensures { Finds meta_cause (fault_of reading.answer parts.now) (λ meta. meta ≡ records_in reading.answer parts.now) result }
{
    let ids = numbered(alloc, parts)?;
    numbered_parts(alloc, ids, parts)
}

/// The metadata of what a file says, or its first fault: an identifier or a token that stands twice, a
/// reference to nothing, an expression, a rule, a limit.
pub fn build(alloc: Global, parts: MetaParts) -> Result<Metadata, MetaFault>
    // The answer is what the file says however its expressions are read by the grammar, unless memory runs out.
    ensures value { (reading : Reading) → Answers meta_cause (metadata_of reading.answer parts) result }
{
    let made = build_of(alloc, &parts);
    drop(parts);
    made
}
