//! The steps from what a file says to metadata, each with the faults that it meets.

ghost use Rattle.std.specs.Prelude.{◌≡◌, ◌^◌, ◌<◌, Bool, true, false, None, Some, Option, length, nat_lt, option_map};
ghost use Rattle.std.specs.Option.{option_or};
ghost use Rattle.dh_categories.specs.Single.{CombosBelow};
ghost use Rattle.org_tree.specs.Units.{HasOwnIds};
ghost use Rattle.dh_base.specs.Memory.{Finds};
ghost use Rattle.expr_grammar.specs.Answer.{Reading};
ghost use Rattle.meta_rules.specs.All.{expressions_of};
ghost use Rattle.meta_rules.specs.Stages.{stages_broken};
ghost use Rattle.dh_metadata.specs.Ids.{ids_of, twice_of};
ghost use Rattle.meta_links.specs.Held.{links_of};
ghost use Rattle.meta_links.specs.Reference.{first_unknown};
ghost use Rattle.meta_links.specs.Table.{references};
ghost use Rattle.dh_metadata.specs.Rows.{option_combo_rows};
ghost use Rattle.meta_rules.specs.Held.{IsHeld};
ghost use Rattle.meta_rules.specs.Limits.{first_passed};
ghost use Rattle.dh_metadata.specs.Rows.{tree_rows};
ghost use Rattle.meta_reader.specs.Told.{twice_told, unknown_uid, unknown_told};
ghost use Rattle.meta_reader.specs.Faults.{broken, passed, twice_fault, unknown_fault, unread_fault, rule_fault, paired, meta_cause};
ghost use Rattle.dh_metadata.specs.declared.parts.MetaParts.{MetaParts as Parts};
ghost use Rattle.meta_rules.specs.declared.all.Expressions.{Expressions as Made};
ghost use Rattle.meta_reader.specs.Records.{unread_of, records_of, records_from};

use crate::fault::{MetaFault, Which};
use dh_base::items::Items;
use dh_base::uid::Uid;
use dh_metadata::held::{Links, Records};
use dh_metadata::ids::Ids;
use dh_metadata::ids::fault::IdsFault;
use dh_metadata::parts::MetaParts;
use dh_metadata::structure::Structure;
use meta_links::fault::LinkFault;
use meta_links::link::link;
use meta_rules::all::{Expressions, Unread, read_all};
use meta_rules::expr_fault::ExprError;
use meta_rules::fault::{RuleError, RuleFault};
use meta_rules::held::rules;
use meta_rules::limits::first_passed;
use meta_rules::stages::first_broken;
use std::alloc::Global;
use std::mem::replace;

// How many objects of a kind can be told apart by their numbers, less one.
const MOST: usize = 4_294_967_295;

// Identifiers are read after a `&`, since this crate can't take them out of another's enum.
fn twice(fault: &IdsFault) -> MetaFault
    ensures { result ≡ twice_told fault.now }
{
    match fault {
        IdsFault::Twice { uid } => MetaFault::Twice { uid: *uid },
        IdsFault::Memory => MetaFault::Memory,
    }
}

fn unknown_uid(fault: &LinkFault) -> Option<Uid>
    ensures { result ≡ unknown_uid fault.now }
{
    match fault {
        LinkFault::Unknown { uid, path: _ } => Some(*uid),
        LinkFault::Memory => None,
    }
}

fn unknown(uid: Uid, fault: LinkFault) -> MetaFault
    ensures { result ≡ unknown_told uid fault }
{
    match fault {
        LinkFault::Unknown { uid: _, path } => MetaFault::Unknown { uid, path },
        LinkFault::Memory => MetaFault::Memory,
    }
}

/// The identifiers of a file, where nothing stands twice.
#[tactic(auto, unfolding(crate::specs::Faults::twice_fault))]
pub(crate) fn numbered(alloc: Global, parts: &MetaParts) -> Result<Ids, MetaFault>
    ensures { Finds meta_cause (twice_fault parts.now) (λ ids. (ids ≡ ids_of parts.now) × (twice_of parts.now ≡ None)) result }
{
    match Ids::of(alloc, parts) {
        Ok(ids) => Ok(ids),
        Err(fault) => Err(twice(&fault)),
    }
}

/// The objects of a file with their references, where each names an object.
#[tactic(auto, unfolding(crate::specs::Faults::unknown_fault))]
pub(crate) fn linked(alloc: Global, ids: &Ids, parts: &MetaParts) -> Result<Links, MetaFault>
    ensures { Finds meta_cause (unknown_fault ids.now parts.now) (λ links. (links ≡ links_of ids.now parts.now)
        × (first_unknown ids.now (references parts.now) ≡ None)) result }
{
    match link(alloc, ids, parts) {
        Ok(links) => Ok(links),
        Err(fault) => match unknown_uid(&fault) {
            Some(uid) => Err(unknown(uid, fault)),
            None => Err(MetaFault::Memory),
        },
    }
}

#[tactic(auto, unfolding(crate::specs::Faults::unread_fault))]
fn read(
    alloc: Global,
    ids: &Ids,
    parts: &MetaParts,
    links: Unread,
) -> Result<Expressions, MetaFault>
    ghost reading: { Reading }
    requires indicators { length parts.now.indicators ≡ length links.indicators }
    requires validation_rules { length parts.now.validation_rules ≡ length links.validation_rules }
    requires program_indicators { length parts.now.program_indicators ≡ length links.program_indicators }
    ensures { Finds meta_cause (unread_fault reading.answer ids.now parts.now)
        (λ made. made ≡ expressions_of reading.answer parts.now links) result }
{
    match read_all(alloc, ids, parts, links) {
        Ok(made) => Ok(made),
        Err(ExprError::Unread(fault)) => Err(MetaFault::Expr {
            uid: fault.uid,
            at: fault.at,
        }),
        Err(ExprError::Memory) => Err(MetaFault::Memory),
    }
}

// Takes the references of the objects with expressions out of the others.
fn take_unread(alloc: Global, links: &mut Links) -> Unread
    ensures unread { result ≡ unread_of links.old }
    ensures others { (parts : Parts) → (made : Made) → records_of parts links.new made ≡ records_of parts links.old made }
{
    Unread {
        indicators: replace(&mut links.indicators, Items::new(alloc)),
        validation_rules: replace(&mut links.validation_rules, Items::new(alloc)),
        program_indicators: replace(&mut links.program_indicators, Items::new(alloc)),
    }
}

/// The objects with their expressions, where each text is one.
pub(crate) fn with_expressions(
    alloc: Global,
    ids: &Ids,
    parts: &MetaParts,
    links: Links,
) -> Result<Records, MetaFault>
    ghost reading: { Reading }
    requires indicators { length parts.now.indicators ≡ length links.indicators }
    requires validation_rules { length parts.now.validation_rules ≡ length links.validation_rules }
    requires program_indicators { length parts.now.program_indicators ≡ length links.program_indicators }
    ensures { Finds meta_cause (unread_fault reading.answer ids.now parts.now)
        (λ records. records ≡ records_from reading.answer parts.now links) result }
{
    let mut links = links;
    let unread = take_unread(alloc, &mut links);
    match read(alloc, ids, parts, unread) {
        Ok(made) => Ok(links.with(
            made.indicators,
            made.validation_rules,
            made.program_indicators,
            parts.acceptance_required,
        )),
        Err(fault) => {
            drop(links);
            Err(fault)
        }
    }
}

fn broken(fault: RuleFault) -> MetaFault
    ensures { result ≡ broken fault }
{
    MetaFault::Rule {
        uid: fault.uid,
        which: fault.which,
    }
}

/// What the rules between objects hand on, where they are kept.
#[tactic(auto, unfolding(crate::specs::Faults::rule_fault))]
pub(crate) fn ruled(alloc: Global, parts: &MetaParts, links: &Links) -> Result<Structure, MetaFault>
    requires own_ids { HasOwnIds (tree_rows links.now.organisation_units) }
    requires in_range { CombosBelow (length links.now.category_combos) (option_combo_rows links.now.category_option_combos) }
    ensures { Finds meta_cause (rule_fault parts.now links.now) (IsHeld links.now) result }
{
    if links.organisation_units.len() > MOST
        || links.category_option_combos.len() > MOST
        || links.data_elements.len() > MOST
    {
        return Err(MetaFault::Memory);
    }
    match rules(alloc, parts, links) {
        Ok(held) => Ok(held),
        Err(RuleError::Broken(fault)) => Err(broken(fault)),
        Err(RuleError::Memory) => Err(MetaFault::Memory),
    }
}

// Two values, where the second one was made. What stands here isn't held by the caller while it may
// have to return early.
fn both<A: Drop, B: Drop>(first: A, second: Result<B, MetaFault>) -> Result<(A, B), MetaFault>
    ensures { result ≡ paired first second }
{
    match second {
        Ok(second) => Ok((first, second)),
        Err(fault) => {
            drop(first);
            Err(fault)
        }
    }
}

/// The objects with their expressions, and what the rules hand on.
#[tactic(auto, using(crate::proofs::FaultLemmas::faults, crate::proofs::ReadyLemmas::found_both))]
pub(crate) fn tried(
    alloc: Global,
    ids: &Ids,
    parts: &MetaParts,
    links: Links,
) -> Result<(Records, Structure), MetaFault>
    ghost reading: { Reading }
    requires indicators { length parts.now.indicators ≡ length links.indicators }
    requires validation_rules { length parts.now.validation_rules ≡ length links.validation_rules }
    requires program_indicators { length parts.now.program_indicators ≡ length links.program_indicators }
    requires own_ids { HasOwnIds (tree_rows links.organisation_units) }
    requires in_range { CombosBelow (length links.category_combos) (option_combo_rows links.category_option_combos) }
    ensures { Finds meta_cause (option_or (unread_fault reading.answer ids.now parts.now) (rule_fault parts.now links))
        (λ pair. (pair.0 ≡ records_from reading.answer parts.now links) × IsHeld links pair.1) result }
{
    let held = ruled(alloc, parts, &links);
    match with_expressions(alloc, ids, parts, links) {
        Ok(records) => both(records, held),
        Err(fault) => {
            drop(held);
            Err(fault)
        }
    }
}

/// The first program indicator that is unfit, else the first limit that is passed.
pub(crate) fn late(
    ids: &Ids,
    parts: &MetaParts,
    records: &Records,
    held: &Structure,
) -> Option<MetaFault>
    ensures { result ≡ option_or (option_map broken (stages_broken ids.now records.now.program_stages records.now.program_indicators))
        (option_map passed (first_passed parts.now held.now.positions.items)) }
{
    let stages = records.program_stages.as_slice();
    if let Some(fault) = first_broken(ids, stages, records.program_indicators.as_slice()) {
        return Some(broken(fault));
    }
    if let Some(limit) = first_passed(parts, &held.positions) {
        return Some(MetaFault::Limit {
            which: Which::Objects(limit),
        });
    }
    None
}
