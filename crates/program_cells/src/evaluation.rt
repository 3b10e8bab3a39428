//! The value of a program indicator over subjects.

ghost use Rattle.std.specs.Prelude.{◌≡◌, ◌++◌, Some, map, option_map, option_and_then, IfOk, OnOk};
ghost use Rattle.std.specs.Option.{option_to_list};
ghost use Rattle.dh_metadata.specs.declared.held.Records.{Records};
ghost use Rattle.dh_metadata.specs.declared.records.ProgramIndicator.{ProgramIndicator};
ghost use Rattle.program_cells.specs.Items.{item_in};
ghost use Rattle.program_cells.specs.Value.{passes_by, sample_by, if_passing, collected, aggregated, counted, ids_of, value_over, told, program_value, Values};
ghost use Rattle.program_cells.specs.Value.{some_where};
ghost use Rattle.std.specs.Prelude.{List};
ghost use Rattle.table_rows.specs.declared.event.EventRow.{EventRow};
ghost use Rattle.program_cells.specs.declared.measure.Measure.TheVariants as measure;
ghost use Rattle.program_cells.specs.Cells.{alone};
ghost use Rattle.program_cells.specs.Tally.{micro_sample, taken_at};
ghost use Rattle.program_cells.specs.Code.{measure_in, form_value, passes_form, sample_form, sample_alone, gathered, code_value, IsCodeOf};

use crate::counting::count;
use crate::items::{likely_samples, list_items};
use crate::measure::{Measure, push_ids};
use crate::micros::aggregate_at;
use crate::placed::items_at;
use crate::samples::aggregate;
use crate::tally::value_by_tally;
use dh_base::frac::Frac;
use dh_base::items::Items;
use dh_base::memory::Memory;
use dh_base::plain::Strategy;
use dh_base::uid::Uid;
use expr_eval::{PiCode, PiFault, PiItem, PiValue, Postfix, Value, eval};
use std::alloc::Global;
use table_rows::EventRow;

fn evaluate(
    alloc: Global,
    form: &Postfix,
    items: &[PiItem],
    entries: &mut Vec<Option<Frac>>,
    subject: &[EventRow],
) -> Result<Value, Memory>
    ensures { IfOk result (λ value. value ≡ form_value form.now items.now subject.now) }
{
    list_items(entries, items, subject)?;
    eval(alloc, form, entries, Strategy::Never)
}

fn passes_by(value: Value) -> Option<bool>
    ensures { result ≡ passes_by value }
{
    match value {
        Value::Truth(truth) => Some(truth),
        Value::Wide => None,
        _ => Some(false),
    }
}

fn sample_by(value: Value) -> Option<Option<Frac>>
    ensures { option_map option_to_list result ≡ sample_by value }
{
    match value {
        Value::Number(number) => Some(Some(number)),
        Value::Wide => None,
        _ => Some(None),
    }
}

/// Whether the subject passes the filter.
fn passes(
    alloc: Global,
    code: &PiCode,
    entries: &mut Vec<Option<Frac>>,
    subject: &[EventRow],
) -> Result<Option<bool>, Memory>
    ensures { IfOk result (λ passes. passes ≡ passes_form code.now.filter code.now.filter_items subject.now) }
{
    match &code.filter {
        Some(form) => {
            let value = evaluate(alloc, form, code.filter_items.as_slice(), entries, subject)?;
            Ok(passes_by(value))
        }
        None => Ok(Some(true)),
    }
}

/// The sample of a subject, if it passes the filter and has one.
pub(crate) fn sample(
    alloc: Global,
    code: &PiCode,
    form: &Postfix,
    entries: &mut Vec<Option<Frac>>,
    subject: &[EventRow],
) -> Result<Option<Option<Frac>>, Memory>
    ensures { IfOk result (λ sample. option_map option_to_list sample
        ≡ if_passing (passes_form code.now.filter code.now.filter_items subject.now) (sample_by (form_value form.now code.now.value_items subject.now))) }
{
    let Some(passes) = passes(alloc, code, entries, subject)? else {
        return Ok(None);
    };
    if !passes {
        return Ok(Some(None));
    }
    let value = evaluate(alloc, form, code.value_items.as_slice(), entries, subject)?;
    Ok(sample_by(value))
}

fn put(list: &mut Vec<Frac>, item: Option<Frac>) -> Result<(), Memory>
    ensures { OnOk result (list.new.items ≡ list.old.items ++ option_to_list item) }
{
    if let Some(item) = item {
        list.push(item)?;
    }
    Ok(())
}

/// The samples, `None` where a number on the way is too wide.
fn samples(
    alloc: Global,
    code: &PiCode,
    form: &Postfix,
    subjects: &[&[EventRow]],
) -> Result<Option<Items<Frac>>, Memory>
    ensures { IfOk result (λ samples. samples
        ≡ collected (passes_form code.now.filter code.now.filter_items) (λ subject. sample_by (form_value form.now code.now.value_items subject))
        (map (λ subject. subject.now) subjects.now)) }
{
    let likely = likely_samples(code.value_items.as_slice(), subjects);
    let mut entries = Vec::new(alloc);
    let mut samples = Vec::with_capacity(alloc, likely)?;
    for subject in subjects {
        let Some(found) = sample(alloc, code, form, &mut entries, subject)? else {
            return Ok(None);
        };
        put(&mut samples, found)?;
    }
    Ok(Some(Items::from(samples)))
}

/// Adds the identifiers of what is counted of a subject, if it passes the filter. Says whether no number on the way is too wide.
fn put_ids(
    alloc: Global,
    code: &PiCode,
    measure: Measure,
    entries: &mut Vec<Option<Frac>>,
    subject: &[EventRow],
    ids: &mut Vec<Uid>,
) -> Result<bool, Memory>
    ensures { IfOk result (λ fits. option_map (λ found. ids.old.items ++ found)
        (if_passing (passes_form code.now.filter code.now.filter_items subject.now) (Some (ids_of measure subject.now))) ≡ some_where fits ids.new.items) }
{
    match passes(alloc, code, entries, subject)? {
        None => Ok(false),
        Some(false) => Ok(true),
        Some(true) => {
            push_ids(ids, measure, subject)?;
            Ok(true)
        }
    }
}

/// The identifiers of what is counted.
fn ids(
    alloc: Global,
    code: &PiCode,
    measure: Measure,
    subjects: &[&[EventRow]],
) -> Result<Option<Items<Uid>>, Memory>
    ensures { IfOk result (λ ids. ids
        ≡ collected (passes_form code.now.filter code.now.filter_items) (λ subject. Some (ids_of measure subject))
        (map (λ subject. subject.now) subjects.now)) }
{
    let likely = likely_samples(code.filter_items.as_slice(), subjects);
    let mut entries = Vec::new(alloc);
    let mut ids = Vec::with_capacity(alloc, likely)?;
    for subject in subjects {
        if !put_ids(alloc, code, measure, &mut entries, subject, &mut ids)? {
            return Ok(None);
        }
    }
    Ok(Some(Items::from(ids)))
}

fn aggregate_subjects(
    alloc: Global,
    code: &PiCode,
    form: &Postfix,
    subjects: &[&[EventRow]],
) -> Result<Option<Option<Frac>>, Memory>
    ensures { IfOk result (λ value. value ≡ option_and_then (aggregated code.now.aggregation)
        (collected (passes_form code.now.filter code.now.filter_items) (λ subject. sample_by (form_value form.now code.now.value_items subject))
        (map (λ subject. subject.now) subjects.now))) }
{
    let Some(samples) = samples(alloc, code, form, subjects)? else {
        return Ok(None);
    };
    Ok(aggregate(code.aggregation, samples.as_slice()))
}

fn count_subjects(
    alloc: Global,
    code: &PiCode,
    measure: Measure,
    subjects: &[&[EventRow]],
) -> Result<Option<Option<Frac>>, Memory>
    ensures { IfOk result (λ value. value ≡ option_map counted
        (collected (passes_form code.now.filter code.now.filter_items) (λ subject. Some (ids_of measure subject))
        (map (λ subject. subject.now) subjects.now))) }
{
    let Some(ids) = ids(alloc, code, measure, subjects)? else {
        return Ok(None);
    };
    let number = count(alloc, ids.as_slice())?;
    Ok(Some(number))
}

#[tactic(auto, unfolding(crate::specs::Code::code_value))]
fn evaluate_code(
    alloc: Global,
    code: &PiCode,
    subjects: &[&[EventRow]],
) -> Result<Option<Option<Frac>>, Memory>
    ensures { IfOk result (λ value. value ≡ code_value code.now (map (λ subject. subject.now) subjects.now)) }
{
    match &code.value {
        PiValue::Formula(form) => aggregate_subjects(alloc, code, form, subjects),
        PiValue::Events => count_subjects(alloc, code, Measure::Events, subjects),
        PiValue::Enrollments => count_subjects(alloc, code, Measure::Enrollments, subjects),
        PiValue::Entities => count_subjects(alloc, code, Measure::Entities, subjects),
    }
}

fn told(value: Option<Option<Frac>>) -> Result<Option<Frac>, PiFault>
    ensures { Values result (told value) }
{
    match value {
        Some(value) => Ok(value),
        None => Err(PiFault::Wide),
    }
}

/// The value of a program indicator over the subjects of a cell, in their order. There is none where no subject gives a sample.
pub(crate) fn value_over(
    alloc: Global,
    code: &PiCode,
    subjects: &[&[EventRow]],
) -> Result<Option<Frac>, PiFault>
    ensures { (r : Records) (indicator : ProgramIndicator) → IsCodeOf r indicator code.now
        → Values result (program_value r indicator (map (λ subject. subject.now) subjects.now)) }
{
    let value = evaluate_code(alloc, code, subjects)?;
    told(value)
}

/// The samples in one list, `None` where a number on the way was too wide.
fn numbers(alloc: Global, found: &[Option<Option<Frac>>]) -> Result<Option<Items<Frac>>, Memory>
    ensures { IfOk result (λ numbers. numbers ≡ gathered (map (option_map option_to_list) found.now)) }
{
    let mut numbers = Vec::with_capacity(alloc, found.len())?;
    for each in found {
        let Some(number) = each else {
            return Ok(None);
        };
        put(&mut numbers, *number)?;
    }
    Ok(Some(Items::from(numbers)))
}

fn aggregate_samples(
    alloc: Global,
    code: &PiCode,
    found: &[Option<Option<Frac>>],
) -> Result<Option<Option<Frac>>, Memory>
    ensures { IfOk result (λ value. value ≡ option_and_then (aggregated code.now.aggregation) (gathered (map (option_map option_to_list) found.now))) }
{
    let Some(samples) = numbers(alloc, found)? else {
        return Ok(None);
    };
    Ok(aggregate(code.aggregation, samples.as_slice()))
}

/// The same by the samples of events that are at hand.
fn value_of_samples(
    alloc: Global,
    code: &PiCode,
    found: &[Option<Option<Frac>>],
) -> Result<Option<Frac>, PiFault>
    ensures { (r : Records) (indicator : ProgramIndicator) (events : List EventRow) → IsCodeOf r indicator code.now
        → measure_in code.now.value ≡ measure.Formula
        → map (option_map option_to_list) found.now ≡ map (sample_alone code.now) events
        → Values result (program_value r indicator (map alone events)) }
{
    let value = aggregate_samples(alloc, code, found)?;
    told(value)
}

/// The same by a list of the samples at these places.
fn value_by_list(
    alloc: Global,
    code: &PiCode,
    samples: &[Option<Option<Frac>>],
    places: &[usize],
) -> Result<Option<Frac>, PiFault>
    ensures { (r : Records) (indicator : ProgramIndicator) (events : List EventRow) → IsCodeOf r indicator code.now
        → measure_in code.now.value ≡ measure.Formula
        → taken_at (option_map option_to_list) samples.now places.now ≡ map (sample_alone code.now) events
        → Values result (program_value r indicator (map alone events)) }
{
    let found = items_at(alloc, samples, places)?;
    value_of_samples(alloc, code, &found)
}

/// The same by the samples at these places.
pub(crate) fn value_at(
    alloc: Global,
    code: &PiCode,
    samples: &[Option<Option<Frac>>],
    places: &[usize],
) -> Result<Option<Frac>, PiFault>
    ensures { (r : Records) (indicator : ProgramIndicator) (events : List EventRow) → IsCodeOf r indicator code.now
        → measure_in code.now.value ≡ measure.Formula
        → taken_at (option_map option_to_list) samples.now places.now ≡ map (sample_alone code.now) events
        → Values result (program_value r indicator (map alone events)) }
{
    match value_by_tally(code.aggregation, samples, places) {
        Some(value) => told(value),
        None => value_by_list(alloc, code, samples, places),
    }
}

/// The same by the millionths at these places.
pub(crate) fn value_of_micros(
    alloc: Global,
    code: &PiCode,
    list: &[i64],
    places: &[usize],
) -> Result<Option<Frac>, PiFault>
    ensures { (r : Records) (indicator : ProgramIndicator) (events : List EventRow) → IsCodeOf r indicator code.now
        → measure_in code.now.value ≡ measure.Formula
        → taken_at micro_sample list.now places.now ≡ map (sample_alone code.now) events
        → Values result (program_value r indicator (map alone events)) }
{
    let value = aggregate_at(alloc, code.aggregation, list, places)?;
    told(value)
}
