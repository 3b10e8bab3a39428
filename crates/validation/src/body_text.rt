//! The body that tells violations.
ghost use Rattle.std.specs.Prelude.{◌≡◌, map, IfOk};
ghost use Rattle.std.specs.List.{All};
ghost use Rattle.serde_json.specs.Data.{put as with_member};
ghost use Rattle.serde_json.specs.View.{view, members_view};
ghost use Rattle.serde_json.specs.Written.{compact_text};
ghost use Rattle.validation.specs.Body.{text_of, side_of, violation_of, violations_of, body_of};
ghost use Rattle.validation.specs.Run.{IsRuleOf};

use crate::outcome::Violation;
use dh_base::frac::Frac;
use dh_base::memory::Memory;
use dh_base::print::print_rounded;
use dh_metadata::metadata::Metadata;
use serde_json::{Map, Value, put};
use std::alloc::{AllocError, Global};

/// The members and one more.
fn with_value(
    alloc: Global,
    members: Map<String, Value>,
    name: &str,
    value: Value,
) -> Result<Map<String, Value>, AllocError>
    ensures { IfOk result (λ more. members_view more.entries ≡ with_member name.now (view value) (members_view members.entries)) }
{
    let mut members = members;
    put(&mut members, alloc, name, value)?;
    Ok(members)
}

/// Bytes as a JSON text, where those that aren't UTF-8 are replaced.
fn text_value(alloc: Global, bytes: &[u8]) -> Result<Value, Memory>
    ensures { IfOk result (λ v. view v ≡ text_of bytes.now) }
{
    Ok(Value::String(String::from_utf8_lossy(alloc, bytes)?))
}

/// A side's value with up to six decimals, null where it is missing.
fn side_value(alloc: Global, side: Option<Frac>) -> Result<Value, Memory>
    ensures { IfOk result (λ v. view v ≡ side_of side) }
{
    match side {
        None => Ok(Value::Null),
        Some(value) => {
            let text = print_rounded(alloc, value, 6)?;
            text_value(alloc, text.as_slice())
        }
    }
}

/// The members and one more, that of a side's value.
fn with_side(
    alloc: Global,
    members: Map<String, Value>,
    name: &str,
    side: Option<Frac>,
) -> Result<Map<String, Value>, Memory>
    ensures { IfOk result (λ more. members_view more.entries ≡ with_member name.now (side_of side) (members_view members.entries)) }
{
    let value = side_value(alloc, side)?;
    Ok(with_value(alloc, members, name, value)?)
}

#[tactic(auto, unfolding(crate::specs::Body::violation_with))]
fn violation_value(alloc: Global, meta: &Metadata, violation: &Violation) -> Result<Value, Memory>
    requires { IsRuleOf meta.now violation.now }
    ensures { IfOk result (λ v. view v ≡ violation_of meta.now violation.now) }
{
    let id = text_value(alloc, &meta.rule(violation.rule).id.bytes())?;
    let members = with_value(alloc, Map::new(alloc), "id", id)?;
    let members = with_side(alloc, members, "leftsideValue", violation.left)?;
    let members = with_side(alloc, members, "rightsideValue", violation.right)?;
    Ok(Value::Object(members))
}

fn violation_values(
    alloc: Global,
    meta: &Metadata,
    violations: &[Violation],
) -> Result<Vec<Value>, Memory>
    requires { All (IsRuleOf meta.now) violations.now }
    ensures { IfOk result (λ list. map view list.items ≡ violations_of meta.now violations.now) }
{
    let mut list = Vec::new(alloc);
    for each in violations {
        let value = violation_value(alloc, meta, each)?;
        list.push(value)?;
    }
    Ok(list)
}

#[tactic(auto, unfolding(crate::specs::Body::body_of))]
fn body_value(alloc: Global, meta: &Metadata, violations: &[Violation]) -> Result<Value, Memory>
    requires { All (IsRuleOf meta.now) violations.now }
    ensures { IfOk result (λ v. view v ≡ body_of meta.now violations.now) }
{
    let list = violation_values(alloc, meta, violations)?;
    let members = with_value(
        alloc,
        Map::new(alloc),
        "validationRuleViolations",
        Value::Array(list),
    )?;
    Ok(Value::Object(members))
}

/// The text of the body that tells these violations.
pub fn body(alloc: Global, meta: &Metadata, violations: &[Violation]) -> Result<Vec<u8>, Memory>
    requires { All (IsRuleOf meta.now) violations.now }
    ensures { IfOk result (λ text. text.items ≡ compact_text (body_of meta.now violations.now)) }
{
    let body = body_value(alloc, meta, violations)?;
    Ok(body.to_vec(alloc)?)
}
