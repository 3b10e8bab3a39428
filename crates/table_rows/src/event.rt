//! Rows of events and of registrations.
ghost use Rattle.std.specs.Prelude.{◌≡◌, ◌++◌, ◌∷◌, [], map, IfOk, OnOk};
ghost use Rattle.table_rows.specs.Events.{events_of, is_event_of, is_reg_of};

use dh_base::items::Items;
use dh_base::memory::Memory;
use dh_base::uid::Uid;
use dh_periods::Period;
use std::alloc::Global;

/// The value of a data element of an event, or of an attribute.
#[derive(Clone, Copy)]
pub enum ItemValue {
    /// A number in millionths, of a value type that has one.
    Number(i64),
    /// A date, as days since 1 January 1970.
    Day(i32),
    /// A text.
    Plain,
}

/// A live event. A unit stands by its order in the tree, days are days since 1 January 1970.
pub struct EventRow {
    pub id: Uid,
    pub enrollment: Option<Uid>,
    pub entity: Option<Uid>,
    pub program: u32,
    pub stage: u32,
    pub order: u32,
    /// The day on which it occurred.
    pub day: i32,
    /// The day of its enrollment.
    pub enrolled: Option<i32>,
    /// Data elements with their values.
    pub values: Items<(u32, ItemValue)>,
    /// Attributes of its entity with their values.
    pub attributes: Items<(u32, ItemValue)>,
}

// By hand, so that it is proved here alone and not in each crate above.
impl Drop for EventRow {
    fn drop(self) {
        let EventRow {
            id: _,
            enrollment: _,
            entity: _,
            program: _,
            stage: _,
            order: _,
            day: _,
            enrolled: _,
            values: _,
            attributes: _,
        } = self;
    }
}

/// A data set that was registered as complete.
#[derive(Clone, Copy)]
pub struct RegRow {
    pub set: u32,
    pub period: Period,
    pub order: u32,
    pub attribute: u32,
    /// The day of the registration.
    pub day: i32,
}

/// The events that are asked for: of a program, from the one day to the other, both counted.
#[derive(Clone, Copy)]
pub struct EventsAsked {
    pub program: u32,
    pub from_day: i32,
    pub to_day: i32,
}

fn copy_values(
    alloc: Global,
    values: &[(u32, ItemValue)],
) -> Result<Items<(u32, ItemValue)>, Memory>
    ensures { IfOk result (λ copy. copy ≡ values.now) }
{
    Ok(Items::from(Vec::from_slice(alloc, values)?))
}

impl EventRow {
    /// Whether it is of the program and occurred from the one day to the other.
    pub fn is_of(&self, program: u32, from_day: i32, to_day: i32) -> bool
        ensures { result ≡ is_event_of program from_day to_day self.now }
    {
        self.program == program && from_day <= self.day && self.day <= to_day
    }

    /// A copy of it.
    pub fn copy(&self, alloc: Global) -> Result<EventRow, Memory>
        ensures { IfOk result (λ copy. copy ≡ self.now) }
    {
        let values = copy_values(alloc, self.values.as_slice())?;
        let attributes = copy_values(alloc, self.attributes.as_slice())?;
        Ok(EventRow {
            id: self.id,
            enrollment: self.enrollment,
            entity: self.entity,
            program: self.program,
            stage: self.stage,
            order: self.order,
            day: self.day,
            enrolled: self.enrolled,
            values,
            attributes,
        })
    }
}

/// Adds the event, if it is asked for.
pub fn put_event<'a>(
    found: &mut Vec<&'a EventRow>,
    event: &'a EventRow,
    asked: &EventsAsked,
) -> Result<(), Memory>
    ensures { OnOk result (map (λ event. event.now) found.new.items
        ≡ map (λ event. event.now) found.old.items ++ events_of asked.now.program asked.now.from_day asked.now.to_day (event.now ∷ [])) }
{
    if event.is_of(asked.program, asked.from_day, asked.to_day) {
        found.push(event)?;
    }
    Ok(())
}

/// Copies of lent events.
pub(crate) fn copies(alloc: Global, lent: &[&EventRow]) -> Result<Items<EventRow>, Memory>
    ensures { IfOk result (λ copies. copies ≡ map (λ event. event.now) lent.now) }
{
    let mut found: Vec<EventRow> = Vec::new(alloc);
    for event in lent {
        found.push(event.copy(alloc)?)?;
    }
    Ok(Items::from(found))
}

impl RegRow {
    /// Whether it is of the data set.
    pub fn is_of(&self, set: u32) -> bool
        ensures { result ≡ is_reg_of set self.now }
    {
        self.set == set
    }
}
