//! How a completion is judged.

ghost use Rattle.std.specs.Prelude.{◌≡◌, ◌<◌, IfOk, unwrap_or, pos, is_some};
ghost use Rattle.dh_changes.specs.World.{facts};
ghost use Rattle.value_import.specs.Completions as asks;
ghost use Rattle.value_import.specs.Completions.{typed_set, reg_names_of, reg_name_conditions, reg_place_of, reg_key_of, reg_conditions};
ghost use Rattle.value_import.specs.Completions.{placed_reg_conditions, registered, judged_completion, uncounted};
ghost use Rattle.value_import.specs.Dates.{day_told};
ghost use Rattle.value_import.specs.Outcomes.{IsKnown};
ghost use Rattle.value_import.specs.Ranges.{IsWithin, AreRegWithin, Finds};
ghost use Rattle.value_import.specs.Rules.{first_of};
ghost use Rattle.value_import.specs.Said.{AreSaid, holds_registration};
ghost use Rattle.value_import.specs.Values.{judged_by};

use crate::asking::Asking;
use crate::batch::{Batch, holds_registration};
use crate::dates::day_told;
use crate::judged::Judged;
use crate::names::{object_named, period_named, typed};
use crate::place::{Place, RegNames};
use crate::rules::place_condition;
use crate::value::attribute_of;
use dh_base::codes::Code;
use dh_base::memory::Memory;
use dh_changes::change::Write;
use dh_changes::keys::RegKey;
use dh_changes::text::Text;
use dh_metadata::kind::Kind;
use dh_metadata::metadata::Metadata;
use import_forms::completion::Completion;
use import_forms::set::ValueSet;
use std::alloc::Global;

#[tactic(auto, unfolding(crate::specs::Completions::reg_names_of, crate::specs::Completions::typed_set))]
fn reg_names_of(meta: &Metadata, asked: &Completion) -> RegNames
    ensures value { result ≡ reg_names_of meta.now asked.now }
    ensures in_range { AreRegWithin meta.now result }
{
    let unit = object_named(meta, Kind::OrganisationUnit, &asked.unit);
    let period = period_named(&asked.period);
    let set = object_named(meta, Kind::DataSet, &asked.data_set);
    let found = match period {
        Some(period) => typed(meta, period.kind(), set),
        None => None,
    };
    let attribute = attribute_of(meta, &asked.attribute, found);
    RegNames {
        unit,
        period,
        is_set: set.is_some(),
        set: found,
        attribute,
    }
}

fn placed(meta: &Metadata, asked: &Completion) -> Result<Place, Code>
    ensures found { Finds (reg_name_conditions (reg_names_of meta.now asked.now)) (reg_place_of (reg_names_of meta.now asked.now)) result }
    ensures in_range { IfOk result (IsWithin meta.now) }
{
    let names = reg_names_of(meta, asked);
    let Some(unit) = names.unit else {
        return Err(Code::C2);
    };
    let Some(period) = names.period else {
        return Err(Code::C3);
    };
    if !names.is_set {
        return Err(Code::C4);
    }
    let Some(set) = names.set else {
        return Err(Code::C5);
    };
    let Some(attribute) = names.attribute else {
        return Err(Code::C7);
    };
    Ok(Place {
        unit,
        period,
        set,
        attribute,
    })
}

#[tactic(auto, unfolding(crate::specs::Completions::reg_key_of, crate::specs::Values::unit_id, crate::specs::Values::option_combo_id))]
fn key_of(meta: &Metadata, place: &Place) -> RegKey
    requires { IsWithin meta.now place.now }
    ensures { result ≡ reg_key_of meta.now place.now }
{
    RegKey {
        set: meta.data_set(place.set).id,
        period: place.period,
        unit: meta.unit(place.unit).id,
        attribute: meta.option_combo(place.attribute).id,
    }
}

#[tactic(auto, unfolding(crate::specs::Completions::reg_conditions))]
fn reg_condition(day: Option<i32>, done: bool, held: bool) -> Option<Code>
    ensures { result ≡ first_of (reg_conditions day done held) }
{
    if day.is_none() {
        return Some(Code::C11);
    }
    if !done && !held {
        return Some(Code::C15);
    }
    None
}

fn registered(key: RegKey, day: i32, done: bool, held: bool) -> Judged
    ensures { result ≡ registered key day done held }
{
    if !done {
        Judged::Deleted(Write::Uncomplete { key })
    } else if held {
        Judged::Updated(Write::Complete { key, day })
    } else {
        Judged::Imported(Write::Complete { key, day })
    }
}

// What a completion comes to in its place.
fn judge_placed(
    asking: &Asking<'_>,
    day: Option<i32>,
    done: bool,
    batch: &Batch,
    place: &Place,
) -> Judged
    requires who { IsKnown asking.now.meta.now asking.now.who }
    requires place { IsWithin asking.now.meta.now place.now }
    requires said { AreSaid batch.now.values batch.now.registrations batch.now.verdict.writes }
    ensures { result ≡ judged_by
        (first_of (placed_reg_conditions (facts asking.now.world.now) asking.now.meta.now asking.now.who day done
        (holds_registration (facts asking.now.world.now) batch.now.verdict.writes (reg_key_of asking.now.meta.now place.now)) place.now))
        (registered (reg_key_of asking.now.meta.now place.now) (unwrap_or day (pos 0)) done
        (holds_registration (facts asking.now.world.now) batch.now.verdict.writes (reg_key_of asking.now.meta.now place.now))) }
{
    let key = key_of(asking.meta, place);
    let held = holds_registration(asking.world, batch, &key);
    if let Some(code) = place_condition(asking.world, asking.meta, asking.who, place) {
        return Judged::Refused(code);
    }
    match reg_condition(day, done, held) {
        Some(code) => Judged::Refused(code),
        None => registered(key, day.unwrap_or(0), done, held),
    }
}

/// What a completion comes to, after the writes accepted so far.
pub fn judge_completion(asking: &Asking<'_>, batch: &Batch, asked: &Completion) -> Judged
    requires who { IsKnown asking.now.meta.now asking.now.who }
    requires said { AreSaid batch.now.values batch.now.registrations batch.now.verdict.writes }
    ensures { result ≡ judged_completion (facts asking.now.world.now) asking.now.meta.now asking.now.who asking.now.today
        (holds_registration (facts asking.now.world.now) batch.now.verdict.writes) asked.now }
{
    match placed(asking.meta, asked) {
        Ok(place) => {
            let day = day_told(asking.today, &asked.date);
            judge_placed(asking, day, asked.done, batch, &place)
        }
        Err(code) => Judged::Refused(code),
    }
}

/// The same judgement, where it counts as no value.
pub fn uncounted(judged: Judged) -> Judged
    ensures { result ≡ uncounted judged }
{
    match judged {
        Judged::Refused(code) => Judged::Refused(code),
        Judged::Ignored => Judged::Ignored,
        Judged::Imported(write) => Judged::Uncounted(write),
        Judged::Updated(write) => Judged::Uncounted(write),
        Judged::Deleted(write) => Judged::Uncounted(write),
        Judged::Uncounted(write) => Judged::Uncounted(write),
    }
}

fn copied(alloc: Global, text: &Option<Text>) -> Result<Option<Text>, Memory>
    ensures { IfOk result (λ copy. copy ≡ text.now) }
{
    match text {
        Some(text) => Ok(Some(Text::of(alloc, text.as_slice())?)),
        None => Ok(None),
    }
}

// The same of another text, beside what was copied before. What stands here isn't held by the caller
// while it may have to return early.
fn copied_beside<A: Drop>(
    first: A,
    alloc: Global,
    text: &Option<Text>,
) -> Result<(A, Option<Text>), Memory>
    ensures first { IfOk result (λ pair. pair.0 ≡ first) }
    ensures copy { IfOk result (λ pair. pair.1 ≡ text.now) }
{
    let second = copied(alloc, text)?;
    Ok((first, second))
}

/// The completion that the `completeDate` of a set asks for.
pub fn completion_in(alloc: Global, set: &ValueSet) -> Result<Completion, Memory>
    ensures { IfOk result (λ asked. asked ≡ asks.completion_in set.now) }
{
    let one = copied(alloc, &set.data_set)?;
    let two = copied_beside(one, alloc, &set.period)?;
    let three = copied_beside(two, alloc, &set.unit)?;
    let four = copied_beside(three, alloc, &set.attribute)?;
    let all = copied_beside(four, alloc, &set.complete_date)?;
    let ((((data_set, period), unit), attribute), date) = all;
    Ok(Completion {
        data_set,
        period,
        unit,
        attribute,
        date,
        done: true,
    })
}
