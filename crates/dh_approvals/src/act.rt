//! What may be done with approvals, and why it may be refused.

use dh_base::uid::Uid;
use dh_changes::keys::ApprovalKey;

/// What is done with an approval.
#[derive(Clone, Copy)]
pub enum Verb {
    Approve,
    Unapprove,
    Accept,
    Unaccept,
}

/// What is asked for.
#[derive(Clone, Copy)]
pub struct ApprovalAct {
    pub verb: Verb,
    /// What the approval is of: a workflow, a period of its type, a unit, an attribute option combination.
    pub key: ApprovalKey,
    /// The position among the workflow's levels, counted from 0, whose level in the tree is that of the unit.
    pub position: u8,
}

/// Why an act is refused.
#[derive(Clone, Copy)]
pub enum ApprovalFault {
    /// The user lacks the right to do this at the unit.
    NoRight,
    /// A reporting unit under the unit, at the next position, isn't approved: the first in the order of the tree.
    NotReady { unit: Uid },
    /// There is nothing left to approve, or to accept.
    AlreadyApproved,
    /// There is nothing to take back, or to accept.
    NotApproved,
    /// An ancestor at a lower position is approved: the nearest one.
    ApprovedAbove { unit: Uid },
    /// A reporting unit under the unit, at the next position, is approved and not accepted; or the unit's own
    /// approval isn't accepted.
    NotAccepted { unit: Uid },
}
