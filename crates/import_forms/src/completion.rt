//! Complete data set registrations.

ghost use Rattle.std.specs.Prelude.{◌≡◌, IfOk};
ghost use Rattle.json_read.specs.Views.{data_of};
ghost use Rattle.import_forms.specs.Bodies.{body_of, Gives};
ghost use Rattle.import_forms.specs.Completions.{completion_of, completions_of};

use crate::body::{BodyForm, read_body};
use crate::both::both;
use crate::text::{four_held_texts_in, held_text_in, truth_in};
use dh_base::items::Items;
use dh_base::memory::Memory;
use dh_changes::outcome::BodyFault;
use dh_changes::text::Text;
use json::Value;
use json_read::fault::FormFault;
use json_read::form::{ReadJson, require_object, required_list};
use std::alloc::Global;

/// A complete data set registration, as it stands in the body.
pub struct Completion {
    pub data_set: Option<Text>,
    pub period: Option<Text>,
    /// The organisation unit.
    pub unit: Option<Text>,
    /// The attribute option combination.
    pub attribute: Option<Text>,
    /// The day of the registration, by default that of the request.
    pub date: Option<Text>,
    /// Whether the set is completed; else the registration is taken away.
    pub done: bool,
}

// By hand, so that it is proved here alone and not in each crate above.
impl Drop for Completion {
    fn drop(self) {
        let Completion {
            data_set: _,
            period: _,
            unit: _,
            attribute: _,
            date: _,
            done: _,
        } = self;
    }
}

#[tactic(auto, unfolding(crate::specs::Completions::completion_of))]
fn completion_of(alloc: Global, value: &Value<'_>) -> Result<Completion, Memory>
    ensures { IfOk result (λ found. found ≡ completion_of (data_of value.now)) }
{
    let (key, date) = both(
        four_held_texts_in(
            alloc,
            value,
            "dataSet",
            "period",
            "organisationUnit",
            "attributeOptionCombo",
        ),
        held_text_in(alloc, value, "date"),
    )?;
    let ((data_set, period), (unit, attribute)) = key;
    Ok(Completion {
        data_set,
        period,
        unit,
        attribute,
        date,
        done: truth_in(value, "completed").unwrap_or(true),
    })
}

impl ReadJson for Completion {
    ghost use Rattle.import_forms.specs.Completions.{completion_form};

    ghost form = { completion_form };

    fn read(alloc: Global, value: &Value<'_>) -> Result<Completion, FormFault> {
        require_object(alloc, value)?;
        match completion_of(alloc, value) {
            Ok(found) => Ok(found),
            Err(_) => Err(FormFault::Memory),
        }
    }
}

// The registrations of a body.
struct AllCompletions;

impl BodyForm<Items<Completion>> for AllCompletions {
    ghost use Rattle.import_forms.specs.Completions.{completions_of};

    ghost meant = { λ form. completions_of };

    #[tactic(auto, unfolding(crate::specs::Completions::completions_of))]
    fn form(&self, alloc: Global, value: &Value<'_>) -> Result<Items<Completion>, FormFault> {
        require_object(alloc, value)?;
        required_list(alloc, value, "completeDataSetRegistrations")
    }
}

/// The complete data set registrations of a body. A body that isn't JSON or no object is at fault with
/// the empty path, one without the list at the list's key.
pub fn read_completions(alloc: Global, body: &[u8]) -> Result<Items<Completion>, BodyFault>
    ensures { Gives (body_of completions_of body.now) result }
{
    read_body(alloc, body, &AllCompletions)
}
