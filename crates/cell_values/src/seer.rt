//! What a user sees.
ghost use Rattle.std.specs.Prelude.{◌≡◌, ◌<◌, length, IfOk};
ghost use Rattle.dh_sharing.specs.declared.access.Right.TheVariants as right;
ghost use Rattle.dh_metadata.specs.Approval.{unit_rows};
ghost use Rattle.dh_metadata.specs.Objects.{is_shared};
ghost use Rattle.dh_metadata.specs.Users.{may_of};
ghost use Rattle.cell_values.specs.Seen.{sees_options, sees_attribute, need_for, is_event_seen, is_reg_seen};
ghost use Rattle.cell_values.specs.Held.{IsSeer};

use crate::places::unit_ranges;
use dh_base::memory::Memory;
use dh_base::plain::Need;
use dh_metadata::kind::Kind;
use dh_metadata::metadata::Metadata;
use dh_sharing::access::Right;
use dh_sharing::ranges::ViewRanges;
use org_tree::tree::Tree;
use std::alloc::Global;
use std::marker::Model;
use table_rows::{EventRow, RegRow};

/// A user who asks. It is made of metadata, and asked with the same metadata.
pub struct Seer {
    user: u32,
    views: ViewRanges,
}

// By hand, so that it is proved here alone and not in each crate above.
impl Drop for Seer {
    fn drop(self) {
        let Seer { user: _, views: _ } = self;
    }
}

impl Model for Seer {
    ghost use Rattle.cell_values.specs.Held.{View};

    ghost Value = { View };

    ghost view = { λ seer. record { user = seer.user; views = seer.views } };
}

fn is_shared(kind: Kind) -> bool
    ensures { result ≡ is_shared kind }
{
    match kind {
        Kind::CategoryOption
        | Kind::DataElement
        | Kind::DataSet
        | Kind::Indicator
        | Kind::ValidationRule
        | Kind::TrackedEntityType
        | Kind::Program
        | Kind::ProgramIndicator => true,
        _ => false,
    }
}

/// Whether the user has the right to the object. Nobody has one to an object that isn't there or
/// is of a kind that isn't shared.
#[tactic(auto, using(crate::proofs::RightLemmas::may_not_past, crate::proofs::RightLemmas::may_not_unshared))]
fn may(meta: &Metadata, user: u32, right: Right, kind: Kind, n: u32) -> bool
    requires { user < length meta.now.users }
    ensures { result ≡ may_of meta.now user right kind n }
{
    if !is_shared(kind) {
        return false;
    }
    if meta.count(kind) <= n {
        return false;
    }
    meta.may(user, right, kind, n)
}

fn sees_options(meta: &Metadata, user: u32, options: &[u32]) -> bool
    requires { user < length meta.now.users }
    ensures { result ≡ sees_options meta.now user options.now }
{
    for option in options {
        if !may(meta, user, Right::DataRead, Kind::CategoryOption, *option) {
            return false;
        }
    }
    true
}

impl Seer {
    /// The user with that number.
    pub fn of(alloc: Global, meta: &Metadata, user: u32) -> Result<Seer, Memory>
        requires { user < length meta.now.users }
        ensures seer { IfOk result (λ seer. IsSeer meta.now seer) }
        ensures user { IfOk result (λ seer. seer.user ≡ user) }
    {
        let views = unit_ranges(alloc, meta.tree(), meta.view_units(user), false)?;
        Ok(Seer { user, views })
    }

    /// The user's number.
    pub fn user(&self) -> u32
        ensures { result ≡ self.now.user }
    {
        self.user
    }

    /// The orders of the view units and of all under them.
    pub fn views(&self) -> &ViewRanges
        ensures { result.now ≡ self.now.views }
    {
        &self.views
    }

    /// The tree of the organisation units.
    pub fn tree<'a>(&'a self, meta: &'a Metadata) -> &'a Tree
        ensures value { result.now ≡ unit_rows meta.now }
        // a unit has one number in the tree and in the metadata
        ensures numbers { length result.now ≡ length meta.now.organisation_units }
    {
        meta.tree()
    }

    /// Whether the user may read the object. Nobody may read one that isn't there or is of a kind
    /// that isn't shared.
    pub fn may_read(&self, meta: &Metadata, kind: Kind, number: u32) -> bool
        requires { IsSeer meta.now self.now }
        ensures { result ≡ may_of meta.now self.now.user right.Read kind number }
    {
        may(meta, self.user, Right::Read, kind, number)
    }

    /// Whether the user may read the data of each option of the attribute option combination.
    #[tactic(auto, unfolding(crate::specs::Seen::sees_attribute))]
    pub fn sees_attribute(&self, meta: &Metadata, attribute: u32) -> bool
        requires { IsSeer meta.now self.now }
        ensures { result ≡ sees_attribute meta.now self.now.user attribute }
    {
        if meta.count(Kind::CategoryOptionCombo) <= attribute {
            return false;
        }
        let combo = meta.option_combo(attribute);
        sees_options(meta, self.user, combo.category_options.as_slice())
    }

    /// What the user has to see approved of the element.
    #[tactic(auto, unfolding(crate::specs::Seen::need_for))]
    pub fn need_for(&self, meta: &Metadata, element: u32) -> Need
        requires seer { IsSeer meta.now self.now }
        requires element { element < length meta.now.data_elements }
        ensures { result ≡ need_for meta.now self.now.user element }
    {
        match meta.workflow_of(element) {
            None => Need::All,
            Some(workflow) => meta.need(self.user, workflow),
        }
    }

    /// Whether the user sees the event.
    #[tactic(auto, unfolding(crate::specs::Seen::is_event_seen))]
    pub fn sees_event(&self, meta: &Metadata, event: &EventRow) -> bool
        requires { IsSeer meta.now self.now }
        ensures { result ≡ is_event_seen meta.now self.now.user event.now }
    {
        self.views.holds(event.order)
            && may(
                meta,
                self.user,
                Right::DataRead,
                Kind::Program,
                event.program,
            )
    }

    /// Whether the user sees the registration.
    #[tactic(auto, unfolding(crate::specs::Seen::is_reg_seen))]
    pub fn sees_reg(&self, meta: &Metadata, reg: &RegRow) -> bool
        requires { IsSeer meta.now self.now }
        ensures { result ≡ is_reg_seen meta.now self.now.user reg.now }
    {
        self.views.holds(reg.order)
            && may(meta, self.user, Right::Read, Kind::DataSet, reg.set)
            && self.sees_attribute(meta, reg.attribute)
    }
}
