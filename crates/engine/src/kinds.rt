//! What a request comes to.
ghost use Rattle.std.specs.Prelude.{◌<◌, ◌^◌, Ok, IfOk};
ghost use Rattle.std.specs.List.{All};
ghost use Rattle.dh_base.specs.Memory.{Answers};
ghost use Rattle.change_log.specs.Forms.{WriteFits};
ghost use Rattle.dh_changes.specs.World.{facts};
ghost use Rattle.value_import.specs.Outcomes.{IsKnown};
ghost use Rattle.tracker_import.specs.Outcomes.{total_of};
ghost use Rattle.engine.specs.Requests.{bundle_report, cause_of, import_report, judged_by};

use crate::approval::judge_approval;
use crate::report::{report_body, report_status};
use crate::request::{ChangeRequest, JudgeFault, Judged};
use crate::summary::{summary_body, summary_status};
use dh_base::items::Items;
use dh_changes::outcome::{Verdict, Who};
use dh_changes::world::World;
use dh_metadata::metadata::Metadata;
use std::alloc::Global;
use tracker_import::verdict::verdict as bundle_verdict;
use value_import::verdict::{judge_completions, verdict};

// The report on an import is its summary.
fn import_report(alloc: Global, verdict: Verdict) -> Result<Judged, JudgeFault>
    requires { All WriteFits verdict.writes }
    ensures value { Answers cause_of (Ok (import_report verdict)) result }
    ensures fits { IfOk result (λ judged. All WriteFits judged.writes) }
{
    let body = Items::from(summary_body(alloc, &verdict)?);
    let status = summary_status(&verdict);
    Ok(Judged {
        writes: verdict.writes,
        body,
        status,
    })
}

// The report on a tracker bundle.
fn bundle_report(alloc: Global, verdict: Verdict) -> Result<Judged, JudgeFault>
    requires total { total_of verdict < 2 ^ 64 }
    requires fits { All WriteFits verdict.writes }
    ensures value { Answers cause_of (Ok (bundle_report verdict)) result }
    ensures fits { IfOk result (λ judged. All WriteFits judged.writes) }
{
    let body = Items::from(report_body(alloc, &verdict)?);
    let status = report_status(&verdict);
    Ok(Judged {
        writes: verdict.writes,
        body,
        status,
    })
}

/// What the request of this asker comes to at a moment, over what is recorded.
pub fn judge(
    alloc: Global,
    world: &World,
    meta: &Metadata,
    who: Who,
    moment: i64,
    request: &ChangeRequest,
) -> Result<Judged, JudgeFault>
    requires { IsKnown meta.now who }
    ensures value { Answers cause_of (judged_by (facts world.now) meta.now who moment request.now) result }
    ensures fits { IfOk result (λ judged. All WriteFits judged.writes) }
{
    match request {
        ChangeRequest::Values(set) => {
            let found = verdict(alloc, world, meta, who, moment, set)?;
            import_report(alloc, found)
        }
        ChangeRequest::Completion(list) => {
            let found = judge_completions(alloc, world, meta, who, moment, list.as_slice())?;
            import_report(alloc, found)
        }
        ChangeRequest::Approval(act) => judge_approval(alloc, world, meta, who, act),
        ChangeRequest::Tracker(bundle) => {
            let found = bundle_verdict(alloc, world, meta, who, bundle)?;
            bundle_report(alloc, found)
        }
    }
}
