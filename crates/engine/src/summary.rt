//! The summary of an import: the body and the status of the reply to it.
ghost use Rattle.std.specs.Prelude.{◌≡◌, IfOk, map};
ghost use Rattle.http.specs.StatusCode.{IsStatusCode};
ghost use Rattle.serde_json.specs.View.{view};
ghost use Rattle.engine.specs.Summary.{conflict_of, counts_of, response_of, summary_of, summary_status_of, is_clean, word_within, word_of};
ghost use Rattle.engine.specs.Summary.{summary_response, summary_text};

use crate::text::text_of;
use dh_base::memory::Memory;
use dh_changes::outcome::{Conflict, Verdict};
use request_session::{response_value, with_number, with_text, with_value};
use serde_json::{Map, Value};
use std::alloc::{AllocError, Global};

#[tactic(auto, unfolding(crate::specs::Summary::conflict_of))]
fn conflict_value(alloc: Global, conflict: &Conflict) -> Result<Value, AllocError>
    ensures { IfOk result (λ v. view v ≡ conflict_of conflict.now) }
{
    let members = with_text(alloc, Map::new(alloc), "errorCode", conflict.code.number())?;
    let members = with_number(alloc, members, "index", conflict.index)?;
    Ok(Value::Object(members))
}

fn conflict_values(alloc: Global, conflicts: &[Conflict]) -> Result<Vec<Value>, Memory>
    ensures { IfOk result (λ values. map view values.items ≡ map conflict_of conflicts.now) }
{
    let mut values = Vec::with_capacity(alloc, conflicts.len())?;
    for conflict in conflicts {
        values.push(conflict_value(alloc, conflict)?)?;
    }
    Ok(values)
}

#[tactic(auto, unfolding(crate::specs::Summary::counts_of))]
fn counts_value(alloc: Global, verdict: &Verdict) -> Result<Value, AllocError>
    ensures { IfOk result (λ v. view v ≡ counts_of verdict.now) }
{
    let members = with_number(alloc, Map::new(alloc), "deleted", verdict.deleted)?;
    let members = with_number(alloc, members, "ignored", verdict.ignored)?;
    let members = with_number(alloc, members, "imported", verdict.imported)?;
    let members = with_number(alloc, members, "updated", verdict.updated)?;
    Ok(Value::Object(members))
}

#[tactic(auto, unfolding(crate::specs::Summary::is_clean))]
fn is_clean(verdict: &Verdict) -> bool
    ensures { result ≡ is_clean verdict.now }
{
    verdict.conflicts.as_slice().len() == 0
}

/// The status of the reply to an import of values or completions: 200, or 409 where there is a conflict.
pub fn summary_status(verdict: &Verdict) -> u16
    ensures value { result ≡ summary_status_of verdict.now }
    ensures status { IsStatusCode result }
{
    if is_clean(verdict) { 200 } else { 409 }
}

fn word_within(verdict: &Verdict) -> &'static str
    ensures { result.now ≡ word_within verdict.now }
{
    if is_clean(verdict) {
        "SUCCESS"
    } else {
        "WARNING"
    }
}

fn word(verdict: &Verdict) -> &'static str
    ensures { result.now ≡ word_of verdict.now }
{
    if is_clean(verdict) { "OK" } else { "WARNING" }
}

// The response with these conflicts.
#[tactic(auto, unfolding(crate::specs::Summary::response_of, crate::specs::Summary::summary_response))]
fn response(alloc: Global, verdict: &Verdict, conflicts: Vec<Value>) -> Result<Value, AllocError>
    requires { map view conflicts.items ≡ map conflict_of verdict.now.conflicts }
    ensures { IfOk result (λ v. view v ≡ summary_response verdict.now) }
{
    let members = with_value(alloc, Map::new(alloc), "conflicts", Value::Array(conflicts))?;
    let members = with_text(alloc, members, "responseType", "ImportSummary")?;
    let members = with_text(alloc, members, "status", word_within(verdict))?;
    match counts_value(alloc, verdict) {
        Ok(counts) => Ok(Value::Object(with_value(alloc, members, "importCount", counts)?)),
        Err(fault) => {
            drop(members);
            Err(fault)
        }
    }
}

/// The body of the reply to an import of values or completions.
#[tactic(auto, using(crate::proofs::SummaryLemmas::summary_whole), unfolding(crate::specs::Summary::summary_of, crate::specs::Summary::summary_text))]
pub fn summary_body(alloc: Global, verdict: &Verdict) -> Result<Vec<u8>, Memory>
    ensures { IfOk result (λ text. text.items ≡ summary_text verdict.now) }
{
    let conflicts = conflict_values(alloc, verdict.conflicts.as_slice())?;
    let response = response(alloc, verdict, conflicts)?;
    let value = response_value(alloc, summary_status(verdict), response, word(verdict))?;
    Ok(text_of(alloc, value)?)
}
