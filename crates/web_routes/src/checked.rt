//! What a check is of.
ghost use Rattle.std.specs.Prelude.{◌≡◌, ◌<◌, length, option_and_then, IfOk, IfSome};
ghost use Rattle.dh_base.specs.Uid.{uid_of};
ghost use Rattle.dh_base.specs.Memory.{Answers};
ghost use Rattle.dh_metadata.specs.Approval.{unit_rows};
ghost use Rattle.dh_metadata.specs.Linked.{AreBelow};
ghost use Rattle.dh_metadata.specs.Users.{view_units_of};
ghost use Rattle.dh_metadata.specs.declared.kind.Kind.TheVariants.{DataSet};
ghost use Rattle.query_lang.specs.Named.{readable};
ghost use Rattle.query_lang.specs.Units.{unit_seen};
ghost use Rattle.query_lang.specs.View.{is_under_any};
ghost use Rattle.web_routes.specs.Given.{cause_of};
ghost use Rattle.web_routes.specs.Checks.{set_text, period_in, unit_in, checked_of};

use crate::fault::{RouteFault, found, refused};
use crate::pairs::value_of;
use crate::path::rest_of;
use dh_base::codes::Code;
use dh_base::items::Items;
use dh_base::uid::Uid;
use dh_metadata::kind::Kind;
use dh_metadata::metadata::Metadata;
use dh_periods::Period;
use dh_sharing::access::Right;
use std::alloc::Global;

/// What a check is of: a data set and a unit by number, and a period.
#[derive(Clone, Copy)]
pub struct Checked {
    pub set: u32,
    pub period: Period,
    pub unit: u32,
}

/// How long `validation/dataSet/` is, which stands before the identifier.
const FRONT: usize = 19;

/// The identifier that stands after the route's name.
#[tactic(auto, unfolding(crate::specs::Checks::set_text))]
fn set_text(path: &[u8]) -> &[u8]
    ensures { result.now ≡ set_text path.now }
{
    match rest_of(path) {
        None => b"",
        Some(rest) => {
            if rest.len() < FRONT {
                return b"";
            }
            &rest[FRONT..]
        }
    }
}

/// The data set of that identifier, where the user may read it.
#[tactic(auto, unfolding(query_lang::specs::Named::readable))]
fn set_named(meta: &Metadata, user: u32, text: &[u8]) -> Option<u32>
    requires { user < length meta.now.users }
    ensures value { result ≡ option_and_then (λ id. readable meta.now user DataSet id) (uid_of text.now) }
    ensures in_range { IfSome result (λ set. set < length meta.now.data_sets) }
{
    let number = meta.find(Kind::DataSet, Uid::parse(text)?)?;
    if meta.may(user, Right::Read, Kind::DataSet, number) {
        Some(number)
    } else {
        None
    }
}

#[tactic(auto, unfolding(crate::specs::Checks::period_in))]
fn period_in(alloc: Global, pairs: &[(Items<u8>, Items<u8>)]) -> Result<Period, RouteFault>
    ensures { Answers cause_of (period_in pairs.now) result }
{
    match value_of(pairs, b"pe") {
        Some(text) => found(alloc, Code::F21, b"pe", Period::parse(text)),
        None => Err(refused(alloc, Code::F21, b"pe")),
    }
}

/// Whether the unit is under one of these.
fn is_under_any(meta: &Metadata, views: &[u32], unit: u32) -> bool
    requires unit { unit < length meta.now.organisation_units }
    requires views { AreBelow (length meta.now.organisation_units) views.now }
    ensures { result ≡ is_under_any (unit_rows meta.now) views.now unit }
{
    for view in views {
        if meta.tree().is_under(unit, *view) {
            return true;
        }
    }
    false
}

/// The unit of that identifier, where the user sees it.
#[tactic(auto, unfolding(query_lang::specs::Units::unit_seen))]
fn unit_named(meta: &Metadata, user: u32, text: &[u8]) -> Option<u32>
    requires { user < length meta.now.users }
    ensures value { result ≡ option_and_then (λ id. unit_seen meta.now user id) (uid_of text.now) }
    ensures in_range { IfSome result (λ unit. unit < length meta.now.organisation_units) }
{
    let unit = meta.find(Kind::OrganisationUnit, Uid::parse(text)?)?;
    if is_under_any(meta, meta.view_units(user), unit) {
        Some(unit)
    } else {
        None
    }
}

#[tactic(auto, unfolding(crate::specs::Checks::unit_in))]
fn unit_in(
    alloc: Global,
    meta: &Metadata,
    user: u32,
    pairs: &[(Items<u8>, Items<u8>)],
) -> Result<u32, RouteFault>
    requires { user < length meta.now.users }
    ensures value { Answers cause_of (unit_in meta.now user pairs.now) result }
    ensures in_range { IfOk result (λ unit. unit < length meta.now.organisation_units) }
{
    match value_of(pairs, b"ou") {
        None => Err(refused(alloc, Code::F21, b"ou")),
        Some(text) => found(alloc, Code::F15, text, unit_named(meta, user, text)),
    }
}

/// What a check is of: F14 of the data set in the path, F21 of the period, F21 and F15 of the unit.
#[tactic(auto, unfolding(crate::specs::Checks::checked_of, crate::specs::Checks::set_for))]
pub(crate) fn checked_of(
    alloc: Global,
    meta: &Metadata,
    user: u32,
    path: &[u8],
    pairs: &[(Items<u8>, Items<u8>)],
) -> Result<Checked, RouteFault>
    requires { user < length meta.now.users }
    ensures value { Answers cause_of (checked_of meta.now user path.now pairs.now) result }
    ensures set { IfOk result (λ checked. checked.set < length meta.now.data_sets) }
    ensures unit { IfOk result (λ checked. checked.unit < length meta.now.organisation_units) }
{
    let text = set_text(path);
    let set = found(alloc, Code::F14, text, set_named(meta, user, text))?;
    let period = period_in(alloc, pairs)?;
    let unit = unit_in(alloc, meta, user, pairs)?;
    Ok(Checked { set, period, unit })
}
