//! Tracker bundles.

ghost use Rattle.std.specs.Prelude.{◌≡◌, IfOk};
ghost use Rattle.json_read.specs.Views.{data_of};
ghost use Rattle.json_read.specs.Given as forms;
ghost use Rattle.import_forms.specs.Bodies.{body_of, Gives};
ghost use Rattle.import_forms.specs.Bundles.{three_lists, in_order, bundle_of};

use crate::body::{BodyForm, read_body};
use crate::both::both;
use crate::enrollment::{BundleEnrollment, EnrollmentForm, put_enrollments};
use crate::entity::{BundleEntity, EntityForm, put_entities};
use crate::event::BundleEvent;
use crate::lists::list_at;
use dh_base::items::Items;
use dh_base::memory::Memory;
use dh_changes::outcome::{BodyFault, ImportStrategy};
use json::Value;
use json_read::fault::FormFault;
use json_read::form::require_object;
use std::alloc::Global;

/// How a bundle is to be imported.
#[derive(Clone, Copy)]
pub struct BundleParams {
    pub strategy: ImportStrategy,
    /// Whether one conflict leaves all objects unwritten.
    pub atomic: bool,
}

/// A tracker bundle, each of its lists in the order in which its objects are judged: those of the body's list first, then
/// those that stand in other objects, in the order of these.
pub struct Bundle {
    pub params: BundleParams,
    pub entities: Items<BundleEntity>,
    pub enrollments: Items<BundleEnrollment>,
    pub events: Items<BundleEvent>,
}

// By hand, so that it is proved here alone and not in each crate above.
impl Drop for Bundle {
    fn drop(self) {
        let Bundle {
            params: _,
            entities: _,
            enrollments: _,
            events: _,
        } = self;
    }
}

// The three lists of a body, each object with those that stand in it.
type Lists = (
    Items<EntityForm>,
    (Items<EnrollmentForm>, Items<BundleEvent>),
);

fn three_lists(alloc: Global, value: &Value<'_>) -> Result<Lists, FormFault>
    ensures { forms.Gives (three_lists (data_of value.now)) result }
{
    both(
        list_at(alloc, value, "trackedEntities"),
        both(
            list_at(alloc, value, "enrollments"),
            list_at(alloc, value, "events"),
        ),
    )
}

#[tactic(auto, unfolding(crate::specs::Bundles::in_order))]
fn in_order(alloc: Global, params: BundleParams, lists: Lists) -> Result<Bundle, Memory>
    ensures { IfOk result (λ bundle. bundle ≡ in_order params lists) }
{
    let (forms, (mut all, mut events)) = lists;
    let mut entities = Items::new(alloc);
    let mut enrollments = Items::new(alloc);
    put_entities(forms, &mut entities, &mut all)?;
    put_enrollments(all, &mut enrollments, &mut events)?;
    Ok(Bundle {
        params,
        entities,
        enrollments,
        events,
    })
}

impl BodyForm<Bundle> for BundleParams {
    ghost use Rattle.import_forms.specs.Bundles.{bundle_of};

    ghost meant = { bundle_of };

    #[tactic(auto, unfolding(crate::specs::Bundles::bundle_of))]
    fn form(&self, alloc: Global, value: &Value<'_>) -> Result<Bundle, FormFault> {
        require_object(alloc, value)?;
        let lists = three_lists(alloc, value)?;
        match in_order(alloc, *self, lists) {
            Ok(bundle) => Ok(bundle),
            Err(_) => Err(FormFault::Memory),
        }
    }
}

/// The tracker bundle of a body. A body that isn't JSON or no object is at fault with the empty path. Of several faults
/// the first counts, by the order `trackedEntities`, `enrollments`, `events`; in an object the list of those that stand
/// in it comes before its attributes.
pub fn read_bundle(alloc: Global, body: &[u8], params: BundleParams) -> Result<Bundle, BodyFault>
    ensures { Gives (body_of (bundle_of params) body.now) result }
{
    read_body(alloc, body, &params)
}
