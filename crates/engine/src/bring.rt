//! A change, from the request to the log.
ghost use Rattle.std.specs.List.{All};
ghost use Rattle.change_log.specs.Forms.{WriteFits};
ghost use Rattle.std.specs.Prelude.{◌≡◌};
ghost use Rattle.change_log.specs.Log.{IsWhole, NeverFails};
ghost use Rattle.value_import.specs.Outcomes.{IsKnown};
ghost use Rattle.engine.specs.Seen.{Brings, Puts, fault_by, log_fault};

use crate::machine::{ChangeFault, Report};
use crate::{ChangeRequest, JudgeFault, Judged, judge, maker_of};
use change_log::{AppendFault, ChangeLog};
use dh_base::uid::Uid;
use dh_changes::outcome::Who;
use dh_metadata::metadata::Metadata;
use dh_outside::Keeper;
use std::alloc::Global;

// Why a change isn't made, by why it isn't appended.
fn log_fault(fault: AppendFault) -> ChangeFault
    ensures { result ≡ log_fault fault }
{
    match fault {
        AppendFault::LogFull { limit } => ChangeFault::LogFull { limit },
        AppendFault::StoreFault => ChangeFault::StoreFault,
        AppendFault::Memory => ChangeFault::Memory,
    }
}

// Puts the writes last in the log, if there are any.
#[tactic(auto, unfolding(crate::specs::Machine::report_of))]
fn put<K: Keeper>(
    alloc: Global,
    log: &mut ChangeLog<K>,
    user: Option<Uid>,
    moment: i64,
    judged: Judged,
) -> Result<Report, ChangeFault>
    requires whole { IsWhole log.old }
    requires fits { All WriteFits judged.writes }
    ensures puts { Puts log.old (record { user = user; moment = moment; writes = judged.writes }) judged result log.new }
    ensures whole { IsWhole log.new }
    ensures sure { NeverFails K.keeper_faults → log.old.faults ≡ 0 → log.new.faults ≡ 0 }
{
    let Judged {
        writes,
        body,
        status,
    } = judged;
    if writes.as_slice().len() == 0 {
        let number = log.count();
        return Ok(Report {
            body,
            status,
            number,
        });
    }
    match log.append(alloc, user, moment, writes) {
        Ok(number) => Ok(Report {
            body,
            status,
            number,
        }),
        Err(fault) => Err(log_fault(fault)),
    }
}

// Why a change isn't made, by why its request came to nothing.
fn fault_by(met: JudgeFault) -> ChangeFault
    ensures { result ≡ fault_by met }
{
    match met {
        JudgeFault::Refused(refusal) => ChangeFault::Refused(refusal),
        JudgeFault::Memory => ChangeFault::Memory,
    }
}

// Brings to the log what a request comes to. The reply's body is made before the keeper is called.
pub(crate) fn bring<K: Keeper>(
    alloc: Global,
    log: &mut ChangeLog<K>,
    meta: &Metadata,
    who: Who,
    moment: i64,
    request: &ChangeRequest,
) -> Result<Report, ChangeFault>
    requires whole { IsWhole log.old }
    requires known { IsKnown meta.now who }
    ensures brings { Brings meta.now log.old (record { who = who; moment = moment; request = request.now }) result log.new }
    ensures whole { IsWhole log.new }
    ensures sure { NeverFails K.keeper_faults → log.old.faults ≡ 0 → log.new.faults ≡ 0 }
{
    let user = maker_of(meta, who);
    match judge(alloc, log.world(), meta, who, moment, request) {
        Ok(found) => put(alloc, log, user, moment, found),
        Err(met) => Err(fault_by(met)),
    }
}
