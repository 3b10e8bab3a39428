//! What a program indicator takes of each subject.

ghost use Rattle.std.specs.Prelude.{◌≡◌, ◌++◌, option_and_then, OnOk};
ghost use Rattle.std.specs.Option.{option_to_list};
ghost use Rattle.table_rows.specs.declared.event.EventRow.{EventRow};
ghost use Rattle.program_cells.specs.Items.{first_of};
ghost use Rattle.program_cells.specs.Value.{measure_by, measure_of, ids_of};
ghost use Rattle.program_cells.specs.declared.measure.Measure.TheVariants as measure;

use dh_base::memory::Memory;
use dh_base::uid::Uid;
use expr_lang::{Branch, Expr, Item, branch_at};
use table_rows::EventRow;

/// What a program indicator takes of each subject: the number of an expression, or identifiers, of
/// which the different ones are counted.
#[derive(Clone, Copy)]
pub enum Measure {
    Formula,
    Events,
    Enrollments,
    Entities,
}

fn measure_by(item: &Item) -> Measure
    ensures { result ≡ measure_by item.now }
{
    match item {
        Item::EventCount => Measure::Events,
        Item::EnrollmentCount => Measure::Enrollments,
        Item::EntityCount => Measure::Entities,
        _ => Measure::Formula,
    }
}

/// What is taken by an expression: a count variable is a whole expression.
pub(crate) fn measure_of(expr: &Expr) -> Measure
    ensures { result ≡ measure_of expr.now.tree }
{
    let items = expr.items();
    let branches = expr.branches();
    match branch_at(items, branches, branches.len() - 1) {
        Branch::Item(place) => measure_by(&items[place]),
        Branch::Day(_) => Measure::Formula,
        Branch::Unary(_, _) => Measure::Formula,
        Branch::Binary(_, _, _) => Measure::Formula,
        Branch::Number(_) => Measure::Formula,
        Branch::If(_, _, _) => Measure::Formula,
    }
}

fn push_some(ids: &mut Vec<Uid>, id: Option<Uid>) -> Result<(), Memory>
    ensures { OnOk result (ids.new.items ≡ ids.old.items ++ option_to_list id) }
{
    if let Some(id) = id {
        ids.push(id)?;
    }
    Ok(())
}

fn push_events(ids: &mut Vec<Uid>, subject: &[EventRow]) -> Result<(), Memory>
    ensures { OnOk result (ids.new.items ≡ ids.old.items ++ ids_of measure.Events subject.now) }
{
    for event in subject {
        ids.push(event.id)?;
    }
    Ok(())
}

fn enrollment_of(subject: &[EventRow]) -> Option<Uid>
    ensures { result ≡ option_and_then (λ (event : EventRow). event.enrollment) (first_of subject.now) }
{
    match subject.first() {
        Some(event) => event.enrollment,
        None => None,
    }
}

fn entity_of(subject: &[EventRow]) -> Option<Uid>
    ensures { result ≡ option_and_then (λ (event : EventRow). event.entity) (first_of subject.now) }
{
    match subject.first() {
        Some(event) => event.entity,
        None => None,
    }
}

/// Adds the identifiers of what is counted of a subject.
pub(crate) fn push_ids(
    ids: &mut Vec<Uid>,
    measure: Measure,
    subject: &[EventRow],
) -> Result<(), Memory>
    ensures { OnOk result (ids.new.items ≡ ids.old.items ++ ids_of measure subject.now) }
{
    match measure {
        Measure::Events => push_events(ids, subject),
        Measure::Enrollments => push_some(ids, enrollment_of(subject)),
        Measure::Entities => push_some(ids, entity_of(subject)),
        Measure::Formula => Ok(()),
    }
}
