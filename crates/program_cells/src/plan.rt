//! What is made of a program indicator once, its subjects in some periods, and its value over those of some units.
ghost use Rattle.std.specs.Prelude.{◌≡◌, ◌<◌, false, length, map, IfOk, List, ℕ};
ghost use Rattle.cell_values.specs.Held.{IsSeer, AreCellUnits};
ghost use Rattle.cell_values.specs.Seen.{seen_events};
ghost use Rattle.dh_periods.specs.declared.name.PeriodName.{PeriodName};
ghost use Rattle.dh_metadata.specs.declared.held.Records.{Records};
ghost use Rattle.dh_metadata.specs.declared.names.AnalyticsType.TheVariants as analytics;
ghost use Rattle.program_cells.specs.Cells.{cell_value};
ghost use Rattle.program_cells.specs.Enrollments.{enrollments};
ghost use Rattle.std.specs.List.{filter};
ghost use Rattle.dh_metadata.specs.declared.records.ProgramIndicator.{ProgramIndicator};
ghost use Rattle.program_cells.specs.Cells.{alone};
ghost use Rattle.program_cells.specs.Code.{IsCodeOf};
ghost use Rattle.program_cells.specs.Enrollments.{first_is};
ghost use Rattle.program_cells.specs.Kept.{IsProgramPlan, AreDuring, AreEventSubjects, AreSubjects, is_placed_in};
ghost use Rattle.program_cells.specs.Value.{Values, program_value};
ghost use Rattle.table_rows.specs.declared.event.EventRow.{EventRow};

use crate::coding::code_of;
use crate::enrolled::{enrolled_during, enrollments};
use crate::evaluation::value_over;
use crate::placed::PlacedEvents;
use crate::sampled::SampledEvents;
use crate::seen::events_during;
use crate::under::enrollments_in;
use cell_values::{CellPeriods, CellUnits, Source};
use dh_base::frac::Frac;
use dh_base::items::Items;
use dh_base::memory::Memory;
use dh_metadata::kind::Kind;
use dh_metadata::metadata::Metadata;
use dh_metadata::names::AnalyticsType;
use dh_metadata::records::ProgramIndicator;
use expr_eval::{PiCode, PiFault, PiValue};
use std::alloc::Global;
use table_rows::{EventRow, RowStore};

/// What is made of a program indicator once a query.
pub struct ProgramPlan {
    pub code: PiCode,
    /// Whether its subjects are events or enrollments.
    pub over: AnalyticsType,
    /// The enrollments of its program by the events that the user sees, if these are its subjects.
    pub enrollments: Items<Items<EventRow>>,
}

// By hand, so that it is proved here alone and not in each crate above.
impl Drop for ProgramPlan {
    fn drop(self) {
        let ProgramPlan {
            code: _,
            over: _,
            enrollments: _,
        } = self;
    }
}

/// The subjects of a program indicator in some periods, for the cells of all units.
pub enum Subjects<'a> {
    /// Each event alone, by day and identifier.
    Events(PlacedEvents<'a>),
    /// The same with the sample of each, for an indicator that takes numbers.
    Samples(SampledEvents<'a>),
    /// The events of each enrollment, by the day on which it began and its identifier.
    Enrollments(Vec<&'a [EventRow]>),
}

// By hand, so that it is proved here alone and not in each crate above.
impl<'a> Drop for Subjects<'a> {
    fn drop(self) {
        match self {
            Subjects::Events(_) => {}
            Subjects::Samples(_) => {}
            Subjects::Enrollments(_) => {}
        }
    }
}

fn enrollments_for<S: RowStore>(
    alloc: Global,
    source: &Source<'_, S>,
    program: u32,
    over: AnalyticsType,
) -> Result<Items<Items<EventRow>>, Memory>
    requires { IsSeer source.now.meta.now source.now.seer.now }
    ensures { over ≡ analytics.Enrollment → IfOk result (λ found. found
        ≡ enrollments program (seen_events source.now.meta.now source.now.seer.now.user (S.events source.now.store.now))) }
{
    match over {
        AnalyticsType::Event => Ok(Items::new(alloc)),
        AnalyticsType::Enrollment => enrollments(alloc, source, program),
    }
}

/// The plan of the program indicator with that number.
pub fn program_plan<S: RowStore>(
    alloc: Global,
    source: &Source<'_, S>,
    number: u32,
) -> Result<ProgramPlan, Memory>
    requires seer { IsSeer source.now.meta.now source.now.seer.now }
    requires there { number < length source.now.meta.now.program_indicators }
    ensures { IfOk result (IsProgramPlan source.now.meta.now source.now.seer.now.user (S.events source.now.store.now) number) }
{
    let indicator = source.meta.program_indicator(number);
    let over = indicator.analytics_type;
    let enrollments = enrollments_for(alloc, source, indicator.program, over)?;
    let code = code_of(alloc, source.meta, indicator)?;
    Ok(ProgramPlan {
        code,
        over,
        enrollments,
    })
}

// Where the cells have fewer than one in so many of the units, the samples of all events aren't worth working out.
const MANY: usize = 8;

fn event_subjects<'a>(
    alloc: Global,
    code: &'a PiCode,
    events: PlacedEvents<'a>,
    are_few: bool,
) -> Result<Subjects<'a>, Memory>
    ensures { IfOk result (AreEventSubjects code.now events.entry) }
{
    if are_few {
        return Ok(Subjects::Events(events));
    }
    match &code.value {
        PiValue::Formula(form) => {
            let sampled = SampledEvents::of(alloc, code, form, events)?;
            Ok(Subjects::Samples(sampled))
        }
        _ => Ok(Subjects::Events(events)),
    }
}

/// The subjects of a plan in some periods that the user sees. In how many units all cells lie only decides whether the samples of events
/// are worked out at once, or by each cell.
#[tactic(auto, using(crate::proofs::CellLemmas::events_made))]
pub fn subjects_during<'a, S: RowStore>(
    alloc: Global,
    source: &Source<'a, S>,
    plan: &'a ProgramPlan,
    periods: &CellPeriods,
    units: usize,
) -> Result<Subjects<'a>, Memory>
    requires { IsSeer source.now.meta.now source.now.seer.now }
    ensures { IfOk result (AreSubjects source.now.meta.now source.now.seer.now.user (S.events source.now.store.now) periods.now plan.now) }
{
    match plan.over {
        AnalyticsType::Event => {
            let events = events_during(alloc, source, plan.code.program, periods)?;
            let are_few = units < source.meta.count(Kind::OrganisationUnit) as usize / MANY;
            event_subjects(alloc, &plan.code, events, are_few)
        }
        AnalyticsType::Enrollment => {
            let kept = enrolled_during(alloc, periods.periods(), plan.enrollments.as_slice())?;
            Ok(Subjects::Enrollments(kept))
        }
    }
}

fn value_of_events(
    alloc: Global,
    code: &PiCode,
    events: &PlacedEvents<'_>,
    units: &CellUnits,
) -> Result<Option<Frac>, PiFault>
    ensures { (r : Records) (indicator : ProgramIndicator) → IsCodeOf r indicator code.now
        → Values result (program_value r indicator (map alone (filter (is_placed_in units.now.asked) events.now))) }
{
    let own = events.within(alloc, &units.asked)?;
    value_over(alloc, code, own.as_slice())
}

fn value_of_enrollments(
    alloc: Global,
    code: &PiCode,
    kept: &[&[EventRow]],
    units: &CellUnits,
) -> Result<Option<Frac>, PiFault>
    ensures { (r : Records) (indicator : ProgramIndicator) → IsCodeOf r indicator code.now
        → Values result (program_value r indicator (filter (first_is (is_placed_in units.now.asked)) (map (λ subject. subject.now) kept.now))) }
{
    let own = enrollments_in(alloc, &units.asked, kept)?;
    value_over(alloc, code, own.as_slice())
}

/// The value of a plan in a cell of these units, by its subjects in the periods of the cell. There is none where no subject gives a
/// sample.
pub fn value(
    alloc: Global,
    plan: &ProgramPlan,
    subjects: &Subjects<'_>,
    units: &CellUnits,
) -> Result<Option<Frac>, PiFault>
    ensures { (r : Records) (user n : ℕ) (periods : List PeriodName) (all : List EventRow)
        → IsProgramPlan r user all n plan.now → AreSubjects r user all periods plan.now subjects.now
        → AreCellUnits r user units.now → units.now.alone ≡ false
        → Values result (cell_value r n periods units.now.units (seen_events r user all)) }
{
    match subjects {
        Subjects::Events(events) => value_of_events(alloc, &plan.code, events, units),
        Subjects::Samples(sampled) => sampled.value_within(alloc, &units.asked),
        Subjects::Enrollments(kept) => {
            value_of_enrollments(alloc, &plan.code, kept.as_slice(), units)
        }
    }
}
