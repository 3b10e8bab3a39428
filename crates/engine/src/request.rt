//! What may be asked to be changed, and what it comes to.
ghost use Rattle.std.specs.Prelude.{◌≡◌};

use dh_approvals::ApprovalAct;
use dh_base::codes::Refusal;
use dh_base::items::Items;
use dh_base::memory::Memory;
use dh_changes::change::Write;
use import_forms::bundle::Bundle;
use import_forms::completion::Completion;
use import_forms::set::ValueSet;

/// What may be asked to be changed.
pub enum ChangeRequest {
    /// Data values are imported.
    Values(ValueSet),
    /// Data sets are registered as complete, or no longer.
    Completion(Items<Completion>),
    /// Data is approved or accepted, or no longer.
    Approval(ApprovalAct),
    /// Tracker objects are written or taken away.
    Tracker(Bundle),
}

// By hand, so that it is proved here alone and not in each crate above.
impl Drop for ChangeRequest {
    fn drop(self) {
        match self {
            ChangeRequest::Values(_) => {}
            ChangeRequest::Completion(_) => {}
            ChangeRequest::Approval(_) => {}
            ChangeRequest::Tracker(_) => {}
        }
    }
}

/// The writes that a request comes to, and the body and status of the report on it.
#[derive(Drop)]
pub struct Judged {
    pub writes: Items<Write>,
    pub body: Items<u8>,
    pub status: u16,
}

/// Why a request comes to no writes and no report.
#[derive(Drop)]
pub enum JudgeFault {
    /// A rule of its kind refuses the whole request.
    Refused(Refusal),
    /// Out of memory.
    Memory,
}

impl From<Memory> for JudgeFault {
    ghost use Rattle.engine.specs.declared.request.JudgeFault.TheVariants as fault;

    ghost from_gives = { λ _ made. made ≡ fault.Memory };

    fn from(_error: Memory) -> JudgeFault {
        JudgeFault::Memory
    }
}
