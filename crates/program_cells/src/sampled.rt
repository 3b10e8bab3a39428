//! What a program indicator takes of each event of some periods, worked out once for the cells of all units.
ghost use Rattle.std.specs.Prelude.{◌≡◌, ◌∷◌, [], List, Some, map, option_map, slice_get, IfOk, IfSome};
ghost use Rattle.std.specs.Option.{option_to_list};
ghost use Rattle.expr_eval.specs.declared.indicator.PiValue.TheVariants as taken;
ghost use Rattle.program_cells.specs.Code.{form_value, measure_in, sample_alone, IsCodeOf};
ghost use Rattle.program_cells.specs.Value.{sample_by, program_value, Values};
ghost use Rattle.std.specs.List.{filter};
ghost use Rattle.program_cells.specs.Sampled.{item_sample, samples_in, taken_in};
ghost use Rattle.table_rows.specs.declared.event.EventRow.{EventRow};
ghost use Rattle.program_cells.specs.Cells.{alone};
ghost use Rattle.program_cells.specs.Kept.{is_placed_in};
ghost use Rattle.program_cells.specs.declared.measure.Measure.TheVariants as measure;
ghost use Rattle.dh_metadata.specs.declared.held.Records.{Records};
ghost use Rattle.dh_metadata.specs.declared.records.ProgramIndicator.{ProgramIndicator};

use crate::evaluation::{sample, value_at, value_of_micros};
use crate::micros::micros_of;
use crate::placed::PlacedEvents;
use dh_base::frac::Frac;
use dh_base::memory::Memory;
use dh_sharing::ranges::ViewRanges;
use expr_eval::{PiCode, PiFault, PiItem, Postfix, only_item as only_place};
use std::alloc::Global;
use std::marker::Model;
use std::slice::from_ref;
use table_rows::EventRow;

/// Events in an order of their own, with the sample that a form takes of each. Contracts see the form and the events. The samples are worked
/// out in the order of the events, which is that in which a store has them in memory; those of a cell then lie close together.
#[derive(Drop)]
pub struct SampledEvents<'a> {
    code: &'a PiCode,
    events: PlacedEvents<'a>,
    samples: Samples,
}

/// What a form takes of each event.
#[derive(Drop)]
enum Samples {
    /// The millionths of a number of each.
    Micros(Vec<i64>),
    Any(Vec<Option<Option<Frac>>>),
}

impl<'a> Model for SampledEvents<'a> {
    ghost use Rattle.std.specs.Prelude.{◌≡◌, map};
    ghost use Rattle.program_cells.specs.Code.{sample_alone};
    ghost use Rattle.program_cells.specs.Sampled.{Sampled, samples_in};

    ghost Value = { Sampled };

    ghost view = { λ sampled. record { code = sampled.code.now; events = sampled.events } };

    ghost invariant = { λ sampled. samples_in sampled.samples ≡ map (sample_alone sampled.code.now) sampled.events };
}

fn item_at<'a>(items: &'a [PiItem], place: usize) -> Option<&'a PiItem>
    ensures { IfSome result (λ item. slice_get items.now place ≡ Some item.now) }
{
    if place < items.len() {
        Some(&items[place])
    } else {
        None
    }
}

/// The item that a form is alone.
fn item_of<'a>(items: &'a [PiItem], form: &Postfix) -> Option<&'a PiItem>
    ensures { (event : EventRow) → IfSome result (λ item. sample_by (form_value form.now items.now (event ∷ [])) ≡ item_sample item.now event) }
{
    let place = only_place(form)?;
    item_at(items, place)
}

/// The item that is the sample of each event alone, if no more is to be worked out.
fn only_item<'a>(code: &'a PiCode, form: &Postfix) -> Option<&'a PiItem>
    requires { code.now.value ≡ taken.Formula form.now }
    ensures { (event : EventRow) → IfSome result (λ item. sample_alone code.now event ≡ item_sample item.now event) }
{
    match &code.filter {
        Some(_) => None,
        None => item_of(code.value_items.as_slice(), form),
    }
}

/// The sample of each event alone, as the form gives it.
fn samples_by_form(
    alloc: Global,
    code: &PiCode,
    form: &Postfix,
    events: &[&EventRow],
) -> Result<Vec<Option<Option<Frac>>>, Memory>
    requires { code.now.value ≡ taken.Formula form.now }
    ensures { IfOk result (λ samples. map (option_map option_to_list) samples.items ≡ map (sample_alone code.now) (map (λ event. event.now) events.now)) }
{
    let mut entries = Vec::new(alloc);
    let mut samples = Vec::with_capacity(alloc, events.len())?;
    for event in events {
        samples.push(sample_of(alloc, code, form, &mut entries, event)?)?;
    }
    Ok(samples)
}

/// The sample of each event alone.
fn samples_of(
    alloc: Global,
    code: &PiCode,
    form: &Postfix,
    events: &[&EventRow],
) -> Result<Samples, Memory>
    requires { code.now.value ≡ taken.Formula form.now }
    ensures { IfOk result (λ samples. samples_in samples ≡ map (sample_alone code.now) (map (λ event. event.now) events.now)) }
{
    match only_item(code, form) {
        Some(item) => {
            let found = micros_of(alloc, item, events)?;
            Ok(Samples::Micros(found))
        }
        None => {
            let found = samples_by_form(alloc, code, form, events)?;
            Ok(Samples::Any(found))
        }
    }
}

#[tactic(auto, unfolding(crate::specs::Code::sample_alone))]
fn sample_of(
    alloc: Global,
    code: &PiCode,
    form: &Postfix,
    entries: &mut Vec<Option<Frac>>,
    event: &EventRow,
) -> Result<Option<Option<Frac>>, Memory>
    requires { code.now.value ≡ taken.Formula form.now }
    ensures { IfOk result (λ sample. option_map option_to_list sample ≡ sample_alone code.now event.now) }
{
    sample(alloc, code, form, entries, from_ref(event))
}

/// The value by the samples at these places.
fn value_at_places(
    alloc: Global,
    code: &PiCode,
    samples: &Samples,
    places: &[usize],
) -> Result<Option<Frac>, PiFault>
    ensures { (r : Records) (indicator : ProgramIndicator) (events : List EventRow) → IsCodeOf r indicator code.now
        → measure_in code.now.value ≡ measure.Formula
        → taken_in samples.now places.now ≡ map (sample_alone code.now) events
        → Values result (program_value r indicator (map alone events)) }
{
    match samples {
        Samples::Micros(list) => value_of_micros(alloc, code, list, places),
        Samples::Any(list) => value_at(alloc, code, list, places),
    }
}

/// The value over those of the events whose units lie in the ranges, where no list has the places of them all.
fn value_of_several(
    alloc: Global,
    code: &PiCode,
    events: &PlacedEvents<'_>,
    samples: &Samples,
    ranges: &ViewRanges,
) -> Result<Option<Frac>, PiFault>
    requires { samples_in samples.now ≡ map (sample_alone code.now) events.now }
    ensures { (r : Records) (indicator : ProgramIndicator) → IsCodeOf r indicator code.now → measure_in code.now.value ≡ measure.Formula
        → Values result (program_value r indicator (map alone (filter (is_placed_in ranges.now) events.now))) }
{
    let places = events.places_within(alloc, ranges)?;
    value_at_places(alloc, code, samples, &places)
}

/// The value over those of the events whose units lie in the ranges.
fn value_within(
    alloc: Global,
    code: &PiCode,
    events: &PlacedEvents<'_>,
    samples: &Samples,
    ranges: &ViewRanges,
) -> Result<Option<Frac>, PiFault>
    requires { samples_in samples.now ≡ map (sample_alone code.now) events.now }
    ensures { (r : Records) (indicator : ProgramIndicator) → IsCodeOf r indicator code.now → measure_in code.now.value ≡ measure.Formula
        → Values result (program_value r indicator (map alone (filter (is_placed_in ranges.now) events.now))) }
{
    match events.own_places(ranges) {
        Some(places) => value_at_places(alloc, code, samples, places),
        None => value_of_several(alloc, code, events, samples, ranges),
    }
}

impl<'a> SampledEvents<'a> {
    ghost use Rattle.std.specs.Prelude.{◌≡◌, map, IfOk};
    ghost use Rattle.std.specs.List.{filter};
    ghost use Rattle.expr_eval.specs.declared.indicator.PiValue.TheVariants as taken;
    ghost use Rattle.program_cells.specs.Cells.{alone};
    ghost use Rattle.program_cells.specs.Code.{measure_in, IsCodeOf};
    ghost use Rattle.program_cells.specs.Kept.{is_placed_in};
    ghost use Rattle.program_cells.specs.Value.{Values, program_value};
    ghost use Rattle.program_cells.specs.declared.measure.Measure.TheVariants as measure;
    ghost use Rattle.dh_metadata.specs.declared.held.Records.{Records};
    ghost use Rattle.dh_metadata.specs.declared.records.ProgramIndicator.{ProgramIndicator};

    /// These events, with the samples of a form.
    pub(crate) fn of(
        alloc: Global,
        code: &'a PiCode,
        form: &Postfix,
        events: PlacedEvents<'a>,
    ) -> Result<SampledEvents<'a>, Memory>
        requires { code.now.value ≡ taken.Formula form.now }
        ensures code { IfOk result (λ sampled. sampled.code ≡ code.now) }
        ensures events { IfOk result (λ sampled. sampled.events ≡ events.entry) }
    {
        let samples = samples_of(alloc, code, form, events.list())?;
        Ok(SampledEvents {
            code,
            events,
            samples,
        })
    }

    /// The value over the events whose units lie in the ranges.
    pub(crate) fn value_within(
        &self,
        alloc: Global,
        ranges: &ViewRanges,
    ) -> Result<Option<Frac>, PiFault>
        ensures { (r : Records) (indicator : ProgramIndicator) → IsCodeOf r indicator self.now.code → measure_in self.now.code.value ≡ measure.Formula
            → Values result (program_value r indicator (map alone (filter (is_placed_in ranges.now) self.now.events))) }
    {
        value_within(alloc, self.code, &self.events, &self.samples, ranges)
    }
}
