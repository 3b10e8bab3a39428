//! Values, brought to an engine as the loader's.

ghost use Rattle.std.specs.Prelude.{◌≡◌};
ghost use Rattle.engine.specs.InMemory.{Loads};
ghost use Rattle.offline_replies.specs.Load.{asked_for};

use dh_base::codes::Refusal;
use dh_base::items::Items;
use dh_base::memory::Memory;
use dh_changes::outcome::ImportStrategy;
use engine::{ChangeRequest, Engine, Report, Unkept, load};
use import_forms::set::{SetParams, SetValue, ValueSet};
use std::alloc::Global;

/// Brings values to the engine. They are let go of here.
#[tactic(auto, unfolding(crate::specs::Load::set_of))]
pub(crate) fn load_values(
    alloc: Global,
    engine: &mut Engine<Unkept>,
    moment: i64,
    values: Items<SetValue>,
) -> Result<Result<Report, Refusal>, Memory>
    requires { engine.old.faults ≡ 0 }
    ensures { Loads engine.old (asked_for moment values) result engine.new }
{
    let request = ChangeRequest::Values(ValueSet {
        params: SetParams {
            strategy: ImportStrategy::CreateAndUpdate,
            dry: false,
        },
        data_set: None,
        complete_date: None,
        period: None,
        unit: None,
        attribute: None,
        values,
    });
    let found = load(alloc, engine, moment, &request);
    drop(request);
    found
}
