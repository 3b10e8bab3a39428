//! What an act on an approval comes to.
ghost use Rattle.std.specs.Prelude.{◌≡◌, ◌<◌, IfOk, Some};
ghost use Rattle.std.specs.List.{All};
ghost use Rattle.change_log.specs.Forms.{WriteFits};
ghost use Rattle.dh_base.specs.Memory.{Answers, IsFirst};
ghost use Rattle.dh_changes.specs.World.{facts};
ghost use Rattle.value_import.specs.Outcomes.{IsKnown};
ghost use Rattle.engine.specs.Requests.{approval_body, approval_report, refusal_of, approval_by, cause_of};

use crate::request::{JudgeFault, Judged};
use dh_approvals::{ApprovalAct, ApprovalFault, decide};
use dh_base::codes::{Code, Refusal};
use dh_base::items::Items;
use dh_base::memory::Memory;
use dh_base::uid::Uid;
use dh_changes::change::Write;
use dh_changes::outcome::Who;
use dh_changes::world::World;
use dh_metadata::metadata::Metadata;
use std::alloc::Global;

const BODY: &[u8] = b"{\"httpStatus\":\"OK\",\"httpStatusCode\":200,\"status\":\"OK\"}";

// The report on an act that is done, with its write.
#[tactic(auto, unfolding(crate::specs::Requests::approval_body))]
fn report(alloc: Global, write: Write) -> Result<Judged, Memory>
    requires { WriteFits write }
    ensures value { IfOk result (λ judged. judged ≡ approval_report write) }
    ensures fits { IfOk result (λ judged. All WriteFits judged.writes) }
{
    let mut writes = Items::new(alloc);
    writes.push(write)?;
    match Vec::from_slice(alloc, BODY) {
        Ok(body) => Ok(Judged {
            writes,
            body: Items::from(body),
            status: 200,
        }),
        Err(_) => {
            drop(writes);
            Err(Memory)
        }
    }
}

fn refused(alloc: Global, code: Code, detail: &[u8]) -> JudgeFault
    ensures { IsFirst (Some (record { code = code; detail = detail.now })) (cause_of result) }
{
    match Vec::from_slice(alloc, detail) {
        Ok(detail) => JudgeFault::Refused(Refusal {
            code,
            detail: Items::from(detail),
        }),
        Err(_) => JudgeFault::Memory,
    }
}

// How a refused act is reported.
fn refusal_of(alloc: Global, fault: ApprovalFault) -> JudgeFault
    ensures { IsFirst (Some (refusal_of fault)) (cause_of result) }
{
    match fault {
        ApprovalFault::NoRight => refused(alloc, Code::F40, b""),
        ApprovalFault::NotReady { unit } => refused(alloc, Code::F41, &unit.bytes()),
        ApprovalFault::AlreadyApproved => refused(alloc, Code::F42, b""),
        ApprovalFault::NotApproved => refused(alloc, Code::F43, b""),
        ApprovalFault::ApprovedAbove { unit } => refused(alloc, Code::F44, &unit.bytes()),
        ApprovalFault::NotAccepted { unit } => refused(alloc, Code::F45, &unit.bytes()),
    }
}

/// What the act of this asker comes to, over what is recorded. Only users approve.
pub(crate) fn judge_approval(
    alloc: Global,
    world: &World,
    meta: &Metadata,
    who: Who,
    act: &ApprovalAct,
) -> Result<Judged, JudgeFault>
    requires { IsKnown meta.now who }
    ensures value { Answers cause_of (approval_by (facts world.now) meta.now who act.now) result }
    ensures fits { IfOk result (λ judged. All WriteFits judged.writes) }
{
    let user = match who {
        Who::User(user) => user,
        Who::Loader => return Err(refusal_of(alloc, ApprovalFault::NoRight)),
    };
    match decide(world, meta, user, act) {
        Ok(write) => Ok(report(alloc, write)?),
        Err(fault) => Err(refusal_of(alloc, fault)),
    }
}
