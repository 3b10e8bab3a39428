//! The report on a tracker bundle.
ghost use Rattle.std.specs.Prelude.{◌≡◌, ◌<◌, ◌^◌, IfOk, map};
ghost use Rattle.serde_json.specs.View.{view};
ghost use Rattle.engine.specs.Report as report;
ghost use Rattle.tracker_import.specs.Outcomes.{total_of};

use crate::text::text_of;
use dh_base::memory::Memory;
use dh_base::uid::Uid;
use dh_changes::outcome::{Conflict, Verdict};
use request_session::{with_number, with_text, with_value};
use serde_json::{Map, Value};
use std::alloc::{AllocError, Global};

fn uid_value(alloc: Global, uid: Option<Uid>) -> Result<Value, AllocError>
    ensures { IfOk result (λ v. view v ≡ report.uid_of uid) }
{
    match uid {
        Some(uid) => Ok(Value::String(String::from_utf8_lossy(alloc, &uid.bytes())?)),
        None => Ok(Value::Null),
    }
}

#[tactic(auto, unfolding(crate::specs::Report::error_of))]
fn error_value(alloc: Global, conflict: &Conflict) -> Result<Value, AllocError>
    ensures { IfOk result (λ v. view v ≡ report.error_of conflict.now) }
{
    let uid = uid_value(alloc, conflict.uid)?;
    let members = with_value(alloc, Map::new(alloc), "uid", uid)?;
    let members = with_text(alloc, members, "errorCode", conflict.code.number())?;
    let members = with_number(alloc, members, "index", conflict.index)?;
    Ok(Value::Object(members))
}

fn error_values(alloc: Global, conflicts: &[Conflict]) -> Result<Vec<Value>, Memory>
    ensures { IfOk result (λ values. map view values.items ≡ map report.error_of conflicts.now) }
{
    let mut values = Vec::with_capacity(alloc, conflicts.len())?;
    for conflict in conflicts {
        values.push(error_value(alloc, conflict)?)?;
    }
    Ok(values)
}

#[tactic(auto, unfolding(crate::specs::Report::stats_of))]
fn stats(alloc: Global, verdict: &Verdict) -> Result<Value, AllocError>
    requires { total_of verdict.now < 2 ^ 64 }
    ensures { IfOk result (λ v. view v ≡ report.stats_of verdict.now) }
{
    let total = verdict.imported + verdict.updated + verdict.ignored + verdict.deleted;
    let members = with_number(alloc, Map::new(alloc), "created", verdict.imported)?;
    let members = with_number(alloc, members, "deleted", verdict.deleted)?;
    let members = with_number(alloc, members, "ignored", verdict.ignored)?;
    let members = with_number(alloc, members, "total", total)?;
    let members = with_number(alloc, members, "updated", verdict.updated)?;
    Ok(Value::Object(members))
}

#[tactic(auto, unfolding(crate::specs::Report::is_clean))]
fn is_clean(verdict: &Verdict) -> bool
    ensures { result ≡ report.is_clean verdict.now }
{
    verdict.conflicts.len() == 0
}

#[tactic(auto, unfolding(crate::specs::Report::is_idle))]
fn is_idle(verdict: &Verdict) -> bool
    ensures { result ≡ report.is_idle verdict.now }
{
    verdict.writes.len() == 0
}

/// The status of the reply.
pub(crate) fn report_status(verdict: &Verdict) -> u16
    ensures { result ≡ report.report_status_of verdict.now }
{
    if is_clean(verdict) {
        return 200;
    }
    if is_idle(verdict) { 409 } else { 200 }
}

fn word(verdict: &Verdict) -> &'static str
    ensures { result.now ≡ report.word_of verdict.now }
{
    if is_clean(verdict) {
        return "OK";
    }
    if is_idle(verdict) { "ERROR" } else { "WARNING" }
}

// The report with these errors.
#[tactic(auto, unfolding(crate::specs::Report::body_of, crate::specs::Report::report_of, crate::specs::Report::validation_of))]
fn report_value(alloc: Global, verdict: &Verdict, errors: Vec<Value>) -> Result<Value, AllocError>
    requires total { total_of verdict.now < 2 ^ 64 }
    requires errors { map view errors.items ≡ map report.error_of verdict.now.conflicts }
    ensures { IfOk result (λ v. view v ≡ report.report_of verdict.now) }
{
    let errors = with_value(alloc, Map::new(alloc), "errorReports", Value::Array(errors))?;
    let members = with_value(
        alloc,
        Map::new(alloc),
        "validationReport",
        Value::Object(errors),
    )?;
    let members = with_text(alloc, members, "status", word(verdict))?;
    match stats(alloc, verdict) {
        Ok(stats) => Ok(Value::Object(with_value(alloc, members, "stats", stats)?)),
        Err(fault) => {
            drop(members);
            Err(fault)
        }
    }
}

/// The body of the reply to a tracker bundle.
#[tactic(auto, using(crate::proofs::ReportLemmas::report_whole), unfolding(crate::specs::Report::report_text))]
pub(crate) fn report_body(alloc: Global, verdict: &Verdict) -> Result<Vec<u8>, Memory>
    requires { total_of verdict.now < 2 ^ 64 }
    ensures { IfOk result (λ text. text.items ≡ report.report_text verdict.now) }
{
    let errors = error_values(alloc, verdict.conflicts.as_slice())?;
    let value = report_value(alloc, verdict, errors)?;
    Ok(text_of(alloc, value)?)
}
