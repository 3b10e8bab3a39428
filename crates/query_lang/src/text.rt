//! The pairs of a query's text.
ghost use Rattle.std.specs.Prelude.{◌≡◌, [], true, false, not, bytes_eq, codes, ◌≤ℤ◌, ◌<◌, IfOk, IfSome, length, position, option_map};
ghost use Rattle.dh_base.specs.declared.limits.TheConstants.{FIRST_QUERY_DAY, LAST_QUERY_DAY};
ghost use Rattle.std.specs.List.{list_any};
ghost use Rattle.std.specs.Option.{option_copied};
ghost use Rattle.dh_base.specs.Memory.{Answers, IsFirst};
ghost use Rattle.query_lang.specs.Given.{cause_of, left_in, refusal};
ghost use Rattle.query_lang.specs.Form.{is_colon, pairs_of, decoded, is_unsupported};
ghost use Rattle.query_lang.specs.Form.{head_of, fresh, with_dx, with_periods, with_units, with_dimension, with_pair, with_pairs, nothing, whole};
ghost use Rattle.query_lang.specs.Form.{form_of};

use crate::Axis;
use crate::dimension::items_of;
use crate::fault::refused;
use crate::form::{Draft, Form};
use crate::item::{DxItem, UnitItem};
use crate::period::period_items;
use crate::plain::QueryFault;
use dh_base::codes::Code;
use dh_base::memory::Memory;
use form_urlencoded::{decode, raw_pairs};
use std::alloc::Global;

/// Parameters that choose other data.
const DATA_PARAMETERS: [&[u8]; 7] = [
    b"startDate",
    b"endDate",
    b"measureCriteria",
    b"preAggregationMeasureCriteria",
    b"lastYears",
    b"aggregationType",
    b"relativePeriodDate",
];

/// Parameters that choose other names, or leave out data.
const SCHEME_PARAMETERS: [&[u8]; 7] = [
    b"outputIdScheme",
    b"inputIdScheme",
    b"timeField",
    b"orgUnitField",
    b"skipData",
    b"completedOnly",
    b"approvalLevel",
];

/// Parameters that choose another layout.
const LAYOUT_PARAMETERS: [&[u8]; 7] = [
    b"userOrgUnit",
    b"order",
    b"columns",
    b"rows",
    b"tableLayout",
    b"includeNumDen",
    b"skipRounding",
];

fn is_one_of(names: &[&[u8]], name: &[u8]) -> bool
    ensures { result ≡ list_any (λ other. bytes_eq name.now other.now) names.now }
{
    for other in names {
        if name == *other {
            return true;
        }
    }
    false
}

/// Parameters that would change the answer and aren't offered.
#[tactic(auto, unfolding(crate::specs::Form::is_unsupported))]
fn is_unsupported(name: &[u8]) -> bool
    ensures { result ≡ is_unsupported name.now }
{
    is_one_of(&DATA_PARAMETERS, name)
        || is_one_of(&SCHEME_PARAMETERS, name)
        || is_one_of(&LAYOUT_PARAMETERS, name)
}

fn colon(value: &[u8]) -> Option<usize>
    ensures value { result ≡ position is_colon value.now }
    ensures inside { IfSome result (λ at. at < length value.now) }
{
    value.iter().position(|byte| *byte == b':')
}

#[tactic(auto, unfolding(crate::specs::Form::head_of))]
fn head_of(value: &[u8]) -> &[u8]
    ensures { result.now ≡ head_of value.now }
{
    match colon(value) {
        Some(at) => &value[..at],
        None => value,
    }
}

/// The items of a dimension that wasn't named before.
#[tactic(auto, unfolding(crate::specs::Form::tail_of))]
fn fresh<'a, T>(named: &Option<T>, value: &'a [u8]) -> Option<&'a [u8]>
    ensures { option_copied result ≡ fresh named.now value.now }
{
    if named.is_some() {
        return None;
    }
    match colon(value) {
        Some(at) => Some(&value[at + 1..]),
        None => None,
    }
}

#[tactic(auto, unfolding(crate::specs::Form::with_dx, crate::specs::Items::dx_items))]
fn with_dx(alloc: Global, draft: &mut Draft, value: &[u8]) -> Result<(), QueryFault>
    ensures { Answers cause_of (with_dx draft.old value.now) (left_in draft.new result) }
{
    if let Some(tail) = fresh(&draft.dx, value) {
        if let Some(items) = items_of::<DxItem>(alloc, tail)? {
            draft.dx = Some(items);
            return Ok(());
        }
    }
    Err(refused(alloc, Code::F10, value))
}

#[tactic(auto, unfolding(crate::specs::Form::with_periods))]
fn with_periods(
    alloc: Global,
    draft: &mut Draft,
    filter: bool,
    value: &[u8],
    day: i32,
) -> Result<(), QueryFault>
    requires from { FIRST_QUERY_DAY ≤ℤ day }
    requires to { day ≤ℤ LAST_QUERY_DAY }
    ensures { Answers cause_of (with_periods day draft.old filter value.now) (left_in draft.new result) }
{
    if let Some(tail) = fresh(&draft.periods, value) {
        if let Some(items) = period_items(alloc, tail, day)? {
            draft.periods = Some(Axis { items, filter });
            return Ok(());
        }
    }
    Err(refused(alloc, Code::F10, value))
}

#[tactic(auto, unfolding(crate::specs::Form::with_units, crate::specs::Items::unit_items))]
fn with_units(
    alloc: Global,
    draft: &mut Draft,
    filter: bool,
    value: &[u8],
) -> Result<(), QueryFault>
    ensures { Answers cause_of (with_units draft.old filter value.now) (left_in draft.new result) }
{
    if let Some(tail) = fresh(&draft.units, value) {
        if let Some(items) = items_of::<UnitItem>(alloc, tail)? {
            draft.units = Some(Axis { items, filter });
            return Ok(());
        }
    }
    Err(refused(alloc, Code::F10, value))
}

#[tactic(auto, unfolding(crate::specs::Form::with_dimension))]
fn with_dimension(
    alloc: Global,
    draft: &mut Draft,
    filter: bool,
    value: &[u8],
    day: i32,
) -> Result<(), QueryFault>
    requires from { FIRST_QUERY_DAY ≤ℤ day }
    requires to { day ≤ℤ LAST_QUERY_DAY }
    ensures { Answers cause_of (with_dimension day draft.old filter value.now) (left_in draft.new result) }
{
    let head = head_of(value);
    if !filter && head == b"dx".as_slice() {
        return with_dx(alloc, draft, value);
    }
    if head == b"pe".as_slice() {
        return with_periods(alloc, draft, filter, value, day);
    }
    if head == b"ou".as_slice() {
        return with_units(alloc, draft, filter, value);
    }
    Err(refused(alloc, Code::F17, head))
}

#[tactic(auto, unfolding(crate::specs::Form::with_pair))]
fn with_pair(
    alloc: Global,
    draft: &mut Draft,
    name: &[u8],
    value: &[u8],
    day: i32,
) -> Result<(), QueryFault>
    requires from { FIRST_QUERY_DAY ≤ℤ day }
    requires to { day ≤ℤ LAST_QUERY_DAY }
    ensures { Answers cause_of (with_pair day draft.old name.now value.now) (left_in draft.new result) }
{
    if is_unsupported(name) {
        return Err(refused(alloc, Code::F17, name));
    }
    if name == b"dimension".as_slice() {
        return with_dimension(alloc, draft, false, value, day);
    }
    if name == b"filter".as_slice() {
        return with_dimension(alloc, draft, true, value, day);
    }
    if name == b"skipMeta".as_slice() {
        draft.meta = value != b"true".as_slice();
    }
    Ok(())
}

#[tactic(auto, unfolding(crate::specs::Form::decoded))]
fn decoded(alloc: Global, bytes: &[u8]) -> Result<Vec<u8>, Memory>
    ensures { IfOk result (λ text. text.items ≡ decoded bytes.now) }
{
    match decode(alloc, bytes) {
        Ok(text) => Ok(Vec::from_slice(alloc, text.as_str().as_bytes())?),
        Err(_) => Err(Memory),
    }
}

fn with_encoded(
    alloc: Global,
    draft: &mut Draft,
    name: &[u8],
    value: &[u8],
    day: i32,
) -> Result<(), QueryFault>
    requires from { FIRST_QUERY_DAY ≤ℤ day }
    requires to { day ≤ℤ LAST_QUERY_DAY }
    ensures { Answers cause_of (with_pair day draft.old (decoded name.now) (decoded value.now)) (left_in draft.new result) }
{
    let name = decoded(alloc, name)?;
    let value = decoded(alloc, value)?;
    with_pair(alloc, draft, &name, &value, day)
}

#[tactic(auto, unfolding(crate::specs::Form::pairs_of))]
fn put_pairs(alloc: Global, draft: &mut Draft, text: &[u8], day: i32) -> Result<(), QueryFault>
    requires from { FIRST_QUERY_DAY ≤ℤ day }
    requires to { day ≤ℤ LAST_QUERY_DAY }
    ensures { Answers cause_of (with_pairs day draft.old (pairs_of text.now)) (left_in draft.new result) }
{
    for (name, value) in raw_pairs(text) {
        with_encoded(alloc, draft, name, value, day)?;
    }
    Ok(())
}

fn drafted(alloc: Global, text: &[u8], day: i32) -> Result<Draft, QueryFault>
    requires from { FIRST_QUERY_DAY ≤ℤ day }
    requires to { day ≤ℤ LAST_QUERY_DAY }
    ensures { Answers cause_of (with_pairs day nothing (pairs_of text.now)) result }
{
    let mut draft = Draft {
        dx: None,
        periods: None,
        units: None,
        meta: true,
    };
    match put_pairs(alloc, &mut draft, text, day) {
        Ok(()) => Ok(draft),
        Err(fault) => {
            drop(draft);
            Err(fault)
        }
    }
}

#[tactic(auto, unfolding(crate::specs::Form::whole))]
fn whole(alloc: Global, draft: Draft) -> Result<Form, QueryFault>
    ensures { Answers cause_of (whole draft) result }
{
    let Draft {
        dx,
        periods,
        units,
        meta,
    } = draft;
    let Some(dx) = dx else {
        return Err(refused(alloc, Code::F11, b""));
    };
    let Some(periods) = periods else {
        return Err(refused(alloc, Code::F12, b""));
    };
    let Some(units) = units else {
        return Err(refused(alloc, Code::F13, b""));
    };
    Ok(Form {
        dx,
        periods,
        units,
        meta,
    })
}

/// The form of a query's text on a day from 1 January 1910 to 31 December 2099.
#[tactic(auto, unfolding(crate::specs::Form::form_of))]
pub fn form_of(alloc: Global, text: &[u8], day: i32) -> Result<Form, QueryFault>
    requires from { FIRST_QUERY_DAY ≤ℤ day }
    requires to { day ≤ℤ LAST_QUERY_DAY }
    ensures { Answers cause_of (form_of day text.now) result }
{
    let draft = drafted(alloc, text, day)?;
    whole(alloc, draft)
}
