//! Data value sets.

ghost use Rattle.std.specs.Prelude.{◌≡◌, IfOk, codes};
ghost use Rattle.json_read.specs.Views.{data_of};
ghost use Rattle.json_read.specs.Given as forms;
ghost use Rattle.import_forms.specs.Bodies.{body_of, Gives};
ghost use Rattle.import_forms.specs.Sets.{value_of, values_at, fields_of, set_of};

use crate::body::{BodyForm, read_body};
use crate::both::both;
use crate::text::{four_held_texts_in, held_text_in, held_written_in, text_at, truth_in};
use dh_base::items::Items;
use dh_base::memory::Memory;
use dh_changes::outcome::{BodyFault, ImportStrategy};
use dh_changes::text::Text;
use json::Value;
use json_read::fault::FormFault;
use json_read::form::{ReadJson, field_or, read_list, require_object};
use json_read::look::is_null;
use std::alloc::Global;

/// How a set is to be imported.
#[derive(Clone, Copy)]
pub struct SetParams {
    pub strategy: ImportStrategy,
    /// Whether the set is only judged.
    pub dry: bool,
}

/// A value of a set, as it stands in the body.
#[derive(Drop)]
pub struct SetValue {
    /// The data element.
    pub element: Option<Text>,
    /// The category option combination.
    pub combo: Option<Text>,
    /// The attribute option combination.
    pub attribute: Option<Text>,
    pub value: Option<Text>,
    pub period: Option<Text>,
    /// The organisation unit.
    pub unit: Option<Text>,
    pub deleted: bool,
}

/// The values of a set.
#[derive(Drop)]
pub struct SetValues {
    pub values: Items<SetValue>,
}

/// A data value set, as it stands in the body. A value's own texts go before those of the set.
pub struct ValueSet {
    pub params: SetParams,
    pub data_set: Option<Text>,
    pub complete_date: Option<Text>,
    pub period: Option<Text>,
    /// The organisation unit.
    pub unit: Option<Text>,
    /// The attribute option combination.
    pub attribute: Option<Text>,
    pub values: Items<SetValue>,
}

// By hand, so that it is proved here alone and not in each crate above.
impl Drop for ValueSet {
    fn drop(self) {
        let ValueSet {
            params: _,
            data_set: _,
            complete_date: _,
            period: _,
            unit: _,
            attribute: _,
            values: _,
        } = self;
    }
}

#[tactic(auto, unfolding(crate::specs::Sets::value_of))]
fn value_of(alloc: Global, value: &Value<'_>) -> Result<SetValue, Memory>
    ensures { IfOk result (λ found. found ≡ value_of (data_of value.now)) }
{
    let (key, (attribute, told)) = both(
        four_held_texts_in(
            alloc,
            value,
            "dataElement",
            "categoryOptionCombo",
            "period",
            "orgUnit",
        ),
        both(
            held_text_in(alloc, value, "attributeOptionCombo"),
            held_written_in(alloc, value, "value"),
        ),
    )?;
    let ((element, combo), (period, unit)) = key;
    Ok(SetValue {
        element,
        combo,
        attribute,
        value: told,
        period,
        unit,
        deleted: truth_in(value, "deleted").unwrap_or(false),
    })
}

impl ReadJson for SetValue {
    ghost use Rattle.import_forms.specs.Sets.{value_form};

    ghost form = { value_form };

    fn read(alloc: Global, value: &Value<'_>) -> Result<SetValue, FormFault> {
        require_object(alloc, value)?;
        match value_of(alloc, value) {
            Ok(found) => Ok(found),
            Err(_) => Err(FormFault::Memory),
        }
    }
}

impl ReadJson for SetValues {
    ghost use Rattle.import_forms.specs.Sets.{values_form};

    ghost form = { values_form };

    #[tactic(auto, unfolding(crate::specs::Sets::values_form))]
    fn read(alloc: Global, value: &Value<'_>) -> Result<SetValues, FormFault> {
        if is_null(value) {
            return Ok(SetValues {
                values: Items::new(alloc),
            });
        }
        let values: Items<SetValue> = read_list(alloc, value)?;
        Ok(SetValues { values })
    }
}

type Texts = (Option<Text>, Option<Text>);

// The texts of a set and its values, in their order.
fn fields_of(
    alloc: Global,
    value: &Value<'_>,
) -> Result<(Texts, (Option<Text>, (Texts, Items<SetValue>))), FormFault>
    ensures { forms.Gives (fields_of (data_of value.now)) result }
{
    both(
        both(
            text_at(alloc, value, "dataSet"),
            text_at(alloc, value, "completeDate"),
        ),
        both(
            text_at(alloc, value, "period"),
            both(
                both(
                    text_at(alloc, value, "orgUnit"),
                    text_at(alloc, value, "attributeOptionCombo"),
                ),
                read_values(alloc, value),
            ),
        ),
    )
}

impl BodyForm<ValueSet> for SetParams {
    ghost use Rattle.import_forms.specs.Sets.{set_of};

    ghost meant = { set_of };

    #[tactic(auto, unfolding(crate::specs::Sets::set_of))]
    fn form(&self, alloc: Global, value: &Value<'_>) -> Result<ValueSet, FormFault> {
        require_object(alloc, value)?;
        let ((data_set, complete_date), (period, place)) = fields_of(alloc, value)?;
        let ((unit, attribute), values) = place;
        Ok(ValueSet {
            params: *self,
            data_set,
            complete_date,
            period,
            unit,
            attribute,
            values,
        })
    }
}

/// The values of a bundle: those under `dataValues`, none where the key is absent or null. No other key is
/// looked at. A fault has its path from the bundle's top.
#[tactic(auto, unfolding(crate::specs::Sets::values_at))]
pub fn read_values(alloc: Global, bundle: &Value<'_>) -> Result<Items<SetValue>, FormFault>
    ensures { forms.Gives (values_at (codes "dataValues") (data_of bundle.now)) result }
{
    let none = SetValues {
        values: Items::new(alloc),
    };
    let found: SetValues = field_or(alloc, bundle, "dataValues", none)?;
    Ok(found.values)
}

/// The data value set of a body. A body that isn't JSON or no object is at fault with the empty path.
/// Of several faults the first counts, by the order `dataSet`, `completeDate`, `period`, `orgUnit`,
/// `attributeOptionCombo`, `dataValues`.
pub fn read_set(alloc: Global, body: &[u8], params: SetParams) -> Result<ValueSet, BodyFault>
    ensures { Gives (body_of (set_of params) body.now) result }
{
    read_body(alloc, body, &params)
}
