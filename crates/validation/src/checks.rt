//! The check.
ghost use Rattle.std.specs.Prelude.{◌≡◌, Some, IfOk, OnOk};
ghost use Rattle.std.specs.List.{All};
ghost use Rattle.dh_base.specs.Memory.{Answers};
ghost use Rattle.cell_values.specs.Seen.{seen_of, contents_of};
ghost use Rattle.validation.specs.Check.{id_of, outcome_of, check_all, check_of};
ghost use Rattle.validation.specs.Run.{cause_of, IsChecking, IsSpot, AreKnownAt, IsRuleOf, IsOutcomeOf, is_wide_outcome, violation_in, with_violation};

use crate::asked::fits;
use crate::judge::judged;
use crate::known::ItemKey;
use crate::order::rules_by_id;
use crate::outcome::{Outcome, Violation};
use crate::place::Place;
use crate::sides::side_value;
use crate::spot::{Spot, spot_of};
use cell_values::Source;
use dh_base::frac::Frac;
use dh_base::items::Items;
use dh_base::memory::Memory;
use dh_base::uid::Uid;
use dh_metadata::kind::Kind;
use std::alloc::{AllocFailed, Global};
use std::collections::BTreeMap;
use table_rows::RowStore;

/// Why a check gives no violations.
#[derive(Clone, Copy)]
pub enum CheckFault {
    /// A side or the comparison of a rule is too wide to be computed. It carries the identifier of
    /// the first such rule.
    Wide { id: Uid },
    /// Memory ran out.
    Memory,
}

impl From<Memory> for CheckFault {
    ghost use Rattle.validation.specs.declared.checks.CheckFault.TheVariants as fault;

    ghost from_gives = { λ _ made. made ≡ fault.Memory };

    fn from(_fault: Memory) -> CheckFault {
        CheckFault::Memory
    }
}

impl<T: Drop> From<AllocFailed<T>> for CheckFault {
    ghost use Rattle.validation.specs.declared.checks.CheckFault.TheVariants as fault;

    ghost from_gives = { λ _ made. made ≡ fault.Memory };

    fn from(_error: AllocFailed<T>) -> CheckFault {
        CheckFault::Memory
    }
}

/// What comes of the rule with that number. One that the user may not read isn't asked.
#[tactic(auto, unfolding(crate::specs::Check::outcome_of))]
fn outcome_of<S: RowStore>(
    alloc: Global,
    source: &Source<'_, S>,
    spot: &Spot,
    known: &mut BTreeMap<ItemKey, Option<Frac>>,
    number: u32,
) -> Result<Outcome, Memory>
    requires spot { IsSpot source.now.meta.now source.now.seer.now spot.now }
    requires known { AreKnownAt source.now.meta.now source.now.seer.now
        (contents_of (S.rows source.now.store.now) (S.events source.now.store.now) (S.regs source.now.store.now))
        spot.now.place known.old.entries }
    ensures known { OnOk result (AreKnownAt source.now.meta.now source.now.seer.now
        (contents_of (S.rows source.now.store.now) (S.events source.now.store.now) (S.regs source.now.store.now))
        spot.now.place known.new.entries) }
    ensures rule { IfOk result (λ outcome. IsOutcomeOf source.now.meta.now number outcome) }
    ensures value { IfOk result (λ outcome. outcome ≡ outcome_of source.now.meta.now source.now.seer.now.user
        (seen_of source.now.meta.now source.now.seer.now.user
        (contents_of (S.rows source.now.store.now) (S.events source.now.store.now) (S.regs source.now.store.now)))
        spot.now.place number) }
{
    let meta = source.meta;
    if !source.seer.may_read(meta, Kind::ValidationRule, number) {
        return Ok(Outcome::Kept);
    }
    if meta.count(Kind::ValidationRule) <= number {
        return Ok(Outcome::Kept);
    }
    let rule = meta.rule(number);
    if !fits(meta, spot.place.set, spot.place.period.kind(), rule) {
        return Ok(Outcome::Kept);
    }
    let left = side_value(alloc, source, spot, known, &rule.left_side)?;
    let right = side_value(alloc, source, spot, known, &rule.right_side)?;
    Ok(judged(rule.operator, number, &left, &right))
}

fn is_wide_outcome(outcome: &Outcome) -> bool
    ensures { result ≡ is_wide_outcome outcome.now }
{
    match outcome {
        Outcome::Wide => true,
        Outcome::Kept | Outcome::Violated(_) => false,
    }
}

// The fields are named one by one, since the prover has to be told of their types where the list is changed.
fn push(
    violations: &mut Items<Violation>,
    rule: u32,
    left: Option<Frac>,
    right: Option<Frac>,
) -> Result<(), Memory>
    ensures { OnOk result (violations.new ≡ with_violation (Some (record { rule = rule; left = left; right = right })) violations.old) }
{
    violations.push(Violation { rule, left, right })?;
    Ok(())
}

/// Adds the violation, where there is one.
fn add(violations: &mut Items<Violation>, outcome: &Outcome) -> Result<(), Memory>
    ensures { OnOk result (violations.new ≡ with_violation (violation_in outcome.now) violations.old) }
{
    match outcome {
        Outcome::Violated(found) => push(violations, found.rule, found.left, found.right),
        Outcome::Wide | Outcome::Kept => Ok(()),
    }
}

/// The violations of these rules, one after the other.
fn check_all<S: RowStore>(
    alloc: Global,
    source: &Source<'_, S>,
    spot: &Spot,
    order: &[u32],
) -> Result<Items<Violation>, CheckFault>
    requires { IsSpot source.now.meta.now source.now.seer.now spot.now }
    ensures rules { IfOk result (λ violations. All (IsRuleOf source.now.meta.now) violations) }
    ensures value { Answers cause_of (check_all (id_of source.now.meta.now) (outcome_of source.now.meta.now source.now.seer.now.user
        (seen_of source.now.meta.now source.now.seer.now.user
        (contents_of (S.rows source.now.store.now) (S.events source.now.store.now) (S.regs source.now.store.now)))
        spot.now.place) order.now) result }
{
    let mut known: BTreeMap<ItemKey, Option<Frac>> = BTreeMap::new(alloc);
    let mut violations = Items::new(alloc);
    for number in order {
        let outcome = outcome_of(alloc, source, spot, &mut known, *number)?;
        if is_wide_outcome(&outcome) {
            return Err(CheckFault::Wide {
                id: source.meta.rule(*number).id,
            });
        }
        add(&mut violations, &outcome)?;
    }
    Ok(violations)
}

/// The violations over the records that the user sees, in the order of the rules' identifiers.
#[tactic(auto, unfolding(crate::specs::Check::check_of))]
pub fn run<S: RowStore>(
    alloc: Global,
    source: &Source<'_, S>,
    place: &Place,
) -> Result<Items<Violation>, CheckFault>
    requires { IsChecking source.now.meta.now source.now.seer.now place.now }
    ensures rules { IfOk result (λ violations. All (IsRuleOf source.now.meta.now) violations) }
    ensures value { Answers cause_of (check_of source.now.meta.now source.now.seer.now.user
        (seen_of source.now.meta.now source.now.seer.now.user
        (contents_of (S.rows source.now.store.now) (S.events source.now.store.now) (S.regs source.now.store.now)))
        place.now) result }
{
    let order = rules_by_id(alloc, source.meta)?;
    let spot = spot_of(alloc, source, place)?;
    let found = check_all(alloc, source, &spot, &order);
    drop(spot);
    drop(order);
    found
}
