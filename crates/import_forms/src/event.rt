//! Events.

ghost use Rattle.std.specs.Prelude.{◌≡◌, [], IfOk};
ghost use Rattle.json_read.specs.Views.{data_of};
ghost use Rattle.import_forms.specs.Events.{event_of};

use crate::both::both;
use crate::pair::{Pair, values_of};
use crate::text::four_texts_in;
use dh_base::items::Items;
use json::Value;
use json_read::fault::FormFault;
use json_read::form::{ReadJson, require_object};
use std::alloc::{AllocError, Global};

/// An event, as it stands in the body.
#[derive(Drop)]
pub struct BundleEvent {
    pub id: Option<Items<u8>>,
    /// The enrollment, that around it where it names none.
    pub enrollment: Option<Items<u8>>,
    pub program: Option<Items<u8>>,
    /// The program stage.
    pub stage: Option<Items<u8>>,
    /// The organisation unit.
    pub unit: Option<Items<u8>>,
    pub occurred: Option<Items<u8>>,
    pub scheduled: Option<Items<u8>>,
    pub status: Option<Items<u8>>,
    pub values: Items<Pair>,
}

// The event without its values.
#[tactic(auto, unfolding(crate::specs::Events::event_of))]
fn event_of(alloc: Global, value: &Value<'_>) -> Result<BundleEvent, AllocError>
    ensures { IfOk result (λ event. event ≡ event_of [] (data_of value.now)) }
{
    let (ids, facts) = both(
        four_texts_in(
            alloc,
            value,
            "event",
            "enrollment",
            "program",
            "programStage",
        ),
        four_texts_in(
            alloc,
            value,
            "orgUnit",
            "occurredAt",
            "scheduledAt",
            "status",
        ),
    )?;
    let ((id, enrollment), (program, stage)) = ids;
    let ((unit, occurred), (scheduled, status)) = facts;
    Ok(BundleEvent {
        id,
        enrollment,
        program,
        stage,
        unit,
        occurred,
        scheduled,
        status,
        values: Items::new(alloc),
    })
}

impl ReadJson for BundleEvent {
    ghost use Rattle.import_forms.specs.Events.{event_form};

    ghost form = { event_form };

    #[tactic(auto, unfolding(crate::specs::Events::event_form, crate::specs::Events::event_of))]
    fn read(alloc: Global, value: &Value<'_>) -> Result<BundleEvent, FormFault> {
        require_object(alloc, value)?;
        let values = values_of(alloc, value)?;
        let mut event = event_of(alloc, value)?;
        event.values = values;
        Ok(event)
    }
}
