ghost use Rattle.std.specs.Prelude.{◌≡◌, ◌++◌, ◌<◌, ⊤, OnOk};
ghost use Rattle.change_log.specs.Forms.{StateFits, PairsFit, event_statuses, enrollment_statuses};
ghost use Rattle.change_log.specs.Forms.{IsPeriod, IsValueKey, IsApprovalKey, IsRegKey, IsEvent, IsEnrollment, IsEntity};
ghost use Rattle.change_log.specs.Fields.{period_bytes, day_bytes, value_key_bytes, approval_key_bytes, reg_key_bytes, event_bytes, enrollment_bytes, entity_bytes};

use crate::periods::period_len;
use crate::put::Put;
use crate::write_words::put_short_text;
use dh_base::memory::Memory;
use dh_changes::keys::{ApprovalKey, RegKey, ValueKey};
use dh_changes::tracker::{Enrollment, Entity, Event};
use dh_periods::Period;
use std::alloc::Global;

impl Put for Period {
    ghost bytes = { period_bytes };

    ghost Fits = { λ period. ⊤ };

    ghost Holds = { IsPeriod };

    #[tactic(auto, unfolding(crate::specs::Fields::period_bytes))]
    fn put(&self, alloc: Global, out: &mut Vec<u8>) -> Result<(), Memory> {
        let len = period_len(*self);
        prove!(len < 256);
        let text = self.print(alloc)?;
        put_short_text(out, &text)
    }
}

/// A day, or none.
impl Put for Option<i32> {
    ghost bytes = { day_bytes };

    ghost Fits = { λ day. ⊤ };

    ghost Holds = { λ day. ⊤ };

    fn put(&self, alloc: Global, out: &mut Vec<u8>) -> Result<(), Memory> {
        match self {
            Some(day) => day.put(alloc, out),
            None => i32::MIN.put(alloc, out),
        }
    }
}

impl Put for ValueKey {
    ghost bytes = { value_key_bytes };

    ghost Fits = { λ key. ⊤ };

    ghost Holds = { IsValueKey };

    fn put(&self, alloc: Global, out: &mut Vec<u8>) -> Result<(), Memory> {
        let ids = (self.unit, (self.combo, self.attribute));
        (self.element, (self.period, ids)).put(alloc, out)
    }
}

impl Put for ApprovalKey {
    ghost bytes = { approval_key_bytes };

    ghost Fits = { λ key. ⊤ };

    ghost Holds = { IsApprovalKey };

    fn put(&self, alloc: Global, out: &mut Vec<u8>) -> Result<(), Memory> {
        let ids = (self.unit, self.attribute);
        (self.workflow, (self.period, ids)).put(alloc, out)
    }
}

impl Put for RegKey {
    ghost bytes = { reg_key_bytes };

    ghost Fits = { λ key. ⊤ };

    ghost Holds = { IsRegKey };

    fn put(&self, alloc: Global, out: &mut Vec<u8>) -> Result<(), Memory> {
        let ids = (self.unit, self.attribute);
        (self.set, (self.period, ids)).put(alloc, out)
    }
}

impl Put for Event {
    ghost bytes = { event_bytes };

    ghost Fits = { λ event. StateFits event_statuses event.status event.occurred event.scheduled × PairsFit event.values };

    ghost Holds = { IsEvent };

    fn put(&self, alloc: Global, out: &mut Vec<u8>) -> Result<(), Memory> {
        let ids = (self.id, (self.enrollment, (self.program, self.stage)));
        let state = (self.unit, (self.status, (self.occurred, self.scheduled)));
        (ids, (state, &self.values)).put(alloc, out)
    }
}

impl Put for Enrollment {
    ghost bytes = { enrollment_bytes };

    ghost Fits = { λ enrollment. StateFits enrollment_statuses enrollment.status enrollment.enrolled enrollment.occurred };

    ghost Holds = { IsEnrollment };

    fn put(&self, alloc: Global, out: &mut Vec<u8>) -> Result<(), Memory> {
        let ids = (self.id, (self.entity, self.program));
        let state = (self.unit, (self.status, (self.enrolled, self.occurred)));
        (ids, state).put(alloc, out)
    }
}

impl Put for Entity {
    ghost bytes = { entity_bytes };

    ghost Fits = { λ entity. PairsFit entity.attributes };

    ghost Holds = { IsEntity };

    fn put(&self, alloc: Global, out: &mut Vec<u8>) -> Result<(), Memory> {
        let ids = (self.id, (self.kind, self.unit));
        (ids, &self.attributes).put(alloc, out)
    }
}
