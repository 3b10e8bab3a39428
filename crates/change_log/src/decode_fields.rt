ghost use Rattle.std.specs.Prelude.{◌≡◌, bytes_eq, nat_lt, Some, None};
ghost use Rattle.dh_periods.specs.Texts.{period_text, period_of};
ghost use Rattle.dh_base.specs.Limits.{is_day};
ghost use Rattle.change_log.specs.Given.{Gives};
ghost use Rattle.change_log.specs.Forms.{event_statuses, enrollment_statuses};
ghost use Rattle.change_log.specs.Reading.{canonical_of, given_day_at};

use crate::fault::ReadFault;
use crate::field::Field;
use crate::periods::period_len;
use crate::read_words::{read_i32, read_short_text};
use dh_base::items::Items;
use dh_base::limits::is_day;
use dh_base::uid::Uid;
use dh_changes::keys::{ApprovalKey, RegKey, ValueKey};
use dh_changes::tracker::{Enrollment, Entity, Event};
use dh_periods::Period;
use std::alloc::Global;

// A text that is read as a period is its own one, or that of a week with a zero more.
fn canonical(text: &[u8]) -> Option<Period>
    ensures { result ≡ canonical_of text.now }
{
    let period = Period::parse(text)?;
    if text.len() as u64 == period_len(period) {
        Some(period)
    } else {
        None
    }
}

impl Field for Period {
    ghost use Rattle.change_log.specs.Reading.{period_at};

    ghost form = { period_at };

    #[tactic(auto, unfolding(crate::specs::Reading::period_at))]
    fn read(_alloc: Global, rest: &mut &[u8]) -> Result<Period, ReadFault> {
        let text = read_short_text(rest)?;
        match canonical(text) {
            Some(period) => Ok(period),
            None => Err(ReadFault::Bad),
        }
    }
}

/// A day, or none.
impl Field for Option<i32> {
    ghost use Rattle.change_log.specs.Reading.{day_at};

    ghost form = { day_at };

    #[tactic(auto, unfolding(crate::specs::Reading::day_at))]
    fn read(_alloc: Global, rest: &mut &[u8]) -> Result<Option<i32>, ReadFault> {
        let number = read_i32(rest)?;
        if number == i32::MIN {
            Ok(None)
        } else if is_day(number) {
            Ok(Some(number))
        } else {
            Err(ReadFault::Bad)
        }
    }
}

#[tactic(auto, unfolding(crate::specs::Reading::given_day_at))]
pub(crate) fn read_given_day(rest: &mut &[u8]) -> Result<i32, ReadFault>
    ensures { Gives (given_day_at rest.old.now) result rest.new.now }
{
    let number = read_i32(rest)?;
    if is_day(number) {
        Ok(number)
    } else {
        Err(ReadFault::Bad)
    }
}

impl Field for ValueKey {
    ghost use Rattle.change_log.specs.Reading.{value_key_at};

    ghost form = { value_key_at };

    #[tactic(auto, unfolding(crate::specs::Reading::value_key_at))]
    fn read(alloc: Global, rest: &mut &[u8]) -> Result<ValueKey, ReadFault> {
        let (element, (period, (unit, (combo, attribute)))) = Field::read(alloc, rest)?;
        Ok(ValueKey {
            element,
            period,
            unit,
            combo,
            attribute,
        })
    }
}

impl Field for ApprovalKey {
    ghost use Rattle.change_log.specs.Reading.{approval_key_at};

    ghost form = { approval_key_at };

    #[tactic(auto, unfolding(crate::specs::Reading::approval_key_at))]
    fn read(alloc: Global, rest: &mut &[u8]) -> Result<ApprovalKey, ReadFault> {
        let (workflow, (period, (unit, attribute))) = Field::read(alloc, rest)?;
        Ok(ApprovalKey {
            workflow,
            period,
            unit,
            attribute,
        })
    }
}

impl Field for RegKey {
    ghost use Rattle.change_log.specs.Reading.{reg_key_at};

    ghost form = { reg_key_at };

    #[tactic(auto, unfolding(crate::specs::Reading::reg_key_at))]
    fn read(alloc: Global, rest: &mut &[u8]) -> Result<RegKey, ReadFault> {
        let (set, (period, (unit, attribute))) = Field::read(alloc, rest)?;
        Ok(RegKey {
            set,
            period,
            unit,
            attribute,
        })
    }
}

// An event's own identifier, its enrollment, its program and its stage.
type EventIds = (Uid, (Option<Uid>, (Uid, Uid)));

// Where a tracker object is, in what status, and its two days.
type State = (Uid, (u8, (Option<i32>, Option<i32>)));

impl Field for Event {
    ghost use Rattle.change_log.specs.Reading.{event_at};

    ghost form = { event_at };

    #[tactic(auto, unfolding(crate::specs::Reading::event_at))]
    fn read(alloc: Global, rest: &mut &[u8]) -> Result<Event, ReadFault> {
        let (ids, (state, values)): (EventIds, (State, Items<(Uid, Items<u8>)>)) = Field::read(
            alloc, rest,
        )?;
        let (id, (enrollment, (program, stage))) = ids;
        let (unit, (status, (occurred, scheduled))) = state;
        if status < 6 {
            Ok(Event {
                id,
                enrollment,
                program,
                stage,
                unit,
                status,
                occurred,
                scheduled,
                values,
            })
        } else {
            Err(ReadFault::Bad)
        }
    }
}

impl Field for Enrollment {
    ghost use Rattle.change_log.specs.Reading.{enrollment_at};

    ghost form = { enrollment_at };

    #[tactic(auto, unfolding(crate::specs::Reading::enrollment_at))]
    fn read(alloc: Global, rest: &mut &[u8]) -> Result<Enrollment, ReadFault> {
        let ((id, (entity, program)), (unit, (status, (enrolled, occurred)))) = Field::read(
            alloc, rest,
        )?;
        if status < 3 {
            Ok(Enrollment {
                id,
                entity,
                program,
                unit,
                status,
                enrolled,
                occurred,
            })
        } else {
            Err(ReadFault::Bad)
        }
    }
}

impl Field for Entity {
    ghost use Rattle.change_log.specs.Reading.{entity_at};

    ghost form = { entity_at };

    #[tactic(auto, unfolding(crate::specs::Reading::entity_at))]
    fn read(alloc: Global, rest: &mut &[u8]) -> Result<Entity, ReadFault> {
        let ((id, (kind, unit)), attributes) = Field::read(alloc, rest)?;
        Ok(Entity {
            id,
            kind,
            unit,
            attributes,
        })
    }
}
