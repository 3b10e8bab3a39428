//! The reply to a change.
ghost use Rattle.std.specs.Prelude.{◌≡◌, ◌<◌, true, [], length, Some, None, IfOk};
ghost use Rattle.request_session.specs.Heads.{is_reply_status};
ghost use Rattle.change_log.specs.Log.{NeverFails};
ghost use Rattle.engine.specs.Seen.{IsSound};
ghost use Rattle.engine.specs.MetaAfter.{published_meta};
ghost use Rattle.request_session.specs.Replies.{text_in};
ghost use Rattle.request_replies.specs.Texts.{told, report_reply, IsTold, change_text, refusal_reply};
ghost use Rattle.query_lang.specs.Given.{refusal};
ghost use Rattle.dh_base.specs.declared.codes.Code.TheVariants.{F23};
ghost use Rattle.request_replies.specs.Changes.{ChangeReply, asking};

use crate::texts::{number_reply, refusal_reply};
use dh_base::codes::{Code, Refusal};
use dh_base::items::Items;
use dh_base::memory::Memory;
use dh_changes::outcome::Who;
use dh_outside::Keeper;
use engine::{ChangeFault, ChangeRequest, Engine, Report};
use request_session::{Reply, whole_reply};
use std::alloc::Global;

// The reply to a change that isn't refused. It takes no memory.
#[tactic(auto, unfolding(crate::specs::Texts::report_reply))]
fn accepted(report: Report, keep: bool) -> Reply
    requires { is_reply_status report.status ≡ true }
    ensures { text_in result ≡ report_reply keep report }
{
    let Report {
        body,
        status,
        number,
    } = report;
    whole_reply(status, None, Some(number), keep, body.items)
}

fn not_stored(alloc: Global, keep: bool) -> Result<Reply, Memory>
    ensures { IfOk result (λ reply. text_in reply ≡ refusal_reply None keep (refusal F23 [])) }
{
    let refused = Refusal {
        code: Code::F23,
        detail: Items::new(alloc),
    };
    refusal_reply(alloc, None, keep, &refused)
}

/// What the machine answered to a change is told. A report takes no memory.
#[tactic(auto, using(crate::proofs::TellLemmas::is_told, crate::proofs::TellLemmas::change_told))]
pub fn tell(alloc: Global, found: Result<Report, ChangeFault>, keep: bool) -> Result<Reply, Memory>
    requires { IfOk found (λ report. is_reply_status report.status ≡ true) }
    ensures tells { IsTold (told result) (change_text keep found) }
    ensures sure { IfOk found (λ report. told result ≡ Some (report_reply keep report)) }
{
    match found {
        Ok(report) => Ok(accepted(report, keep)),
        Err(ChangeFault::Refused(refused)) => refusal_reply(alloc, None, keep, &refused),
        Err(ChangeFault::LogFull { limit }) => number_reply(alloc, keep, Code::F22, limit),
        Err(ChangeFault::StoreFault) => not_stored(alloc, keep),
        Err(ChangeFault::Memory) => Err(Memory),
    }
}

/// The reply to a change that a user asks for. A change that was made needs no memory to be told.
pub(crate) fn reply_to_change<K: Keeper>(
    alloc: Global,
    engine: &mut Engine<K>,
    user: u32,
    moment: i64,
    request: ChangeRequest,
    keep: bool,
) -> Result<Reply, Memory>
    requires { user < length (published_meta engine.old).users }
    ensures replies { ChangeReply engine.old (asking moment user request) keep (told result) engine.new }
    ensures sound { IsSound engine.old → IsSound engine.new }
    ensures sure { NeverFails K.keeper_faults → engine.old.faults ≡ 0 → engine.new.faults ≡ 0 }
{
    let found = engine.change(alloc, Who::User(user), moment, &request);
    drop(request);
    tell(alloc, found, keep)
}
