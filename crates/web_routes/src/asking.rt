//! What a user asks for by a route.
ghost use Rattle.std.specs.Prelude.{◌≡◌, ℕ, ◌≤ℤ◌, ◌<◌, length, IfOk};
ghost use Rattle.dh_base.specs.declared.limits.TheConstants.{FIRST_QUERY_DAY, LAST_QUERY_DAY};
ghost use Rattle.dh_metadata.specs.declared.held.Records.{Records};
ghost use Rattle.dh_base.specs.Memory.{Answers};
ghost use Rattle.web_routes.specs.Given.{cause_of};
ghost use Rattle.web_routes.specs.Calls.{user_for, query_call, check_call, update_call, values_call, completions_call, uncompletion_call};
ghost use Rattle.web_routes.specs.Calls.{approval_call, tracker_call, call_of, allowed_call, IsBy};

use crate::approval::act_of;
use crate::call::Call;
use crate::checked::checked_of;
use crate::completion::uncompletion_of;
use crate::fault::{RouteFault, found, refused};
use crate::form::{asked_of, bundle_params_of, kind_of, params_of};
use crate::pairs::pairs_of;
use crate::table::{Route, authority_of};
use dh_approvals::Verb;
use dh_base::codes::Code;
use dh_base::items::Items;
use dh_metadata::metadata::Metadata;
use http_wire::Request;
use import_forms::bundle::read_bundle;
use import_forms::completion::read_completions;
use import_forms::set::read_set;
use query_lang::{MOST_CELLS, read_query};
use std::alloc::Global;

/// The user whose token it is.
#[tactic(auto, unfolding(crate::specs::Calls::user_for))]
pub(crate) fn user_for(
    alloc: Global,
    meta: &Metadata,
    token: &Option<Items<u8>>,
) -> Result<u32, RouteFault>
    ensures value { Answers cause_of (user_for meta.now token.now) result }
    ensures in_range { IfOk result (λ user. user < length meta.now.users) }
{
    match token {
        Some(token) => found(alloc, Code::F8, b"", meta.user_of(token.as_slice())),
        None => Err(refused(alloc, Code::F8, b"")),
    }
}

#[tactic(auto, unfolding(crate::specs::Calls::query_call))]
fn query_call(
    alloc: Global,
    request: &Request,
    meta: &Metadata,
    user: u32,
    day: i32,
) -> Result<Call, RouteFault>
    requires user { user < length meta.now.users }
    requires from { FIRST_QUERY_DAY ≤ℤ day }
    requires to { day ≤ℤ LAST_QUERY_DAY }
    ensures value { Answers cause_of (query_call meta.now day user request.now) result }
    ensures user { IfOk result (λ call. IsBy meta.now user call) }
{
    let asked = asked_of(alloc, &request.asked)?;
    let query = read_query(alloc, request.query.as_slice(), meta, user, day, MOST_CELLS)?;
    Ok(Call::Query { user, asked, query })
}

#[tactic(auto, unfolding(crate::specs::Calls::check_call))]
fn check_call(
    alloc: Global,
    request: &Request,
    meta: &Metadata,
    user: u32,
) -> Result<Call, RouteFault>
    requires { user < length meta.now.users }
    ensures value { Answers cause_of (check_call meta.now user request.now) result }
    ensures user { IfOk result (λ call. IsBy meta.now user call) }
{
    let asked = asked_of(alloc, &request.asked)?;
    let pairs = pairs_of(alloc, request.query.as_slice())?;
    let checked = checked_of(alloc, meta, user, request.path.as_slice(), &pairs)?;
    Ok(Call::Check {
        user,
        asked,
        checked,
    })
}

#[tactic(auto, unfolding(crate::specs::Calls::update_call))]
fn update_call(alloc: Global, text: &[u8]) -> Result<Call, RouteFault>
    ensures value { Answers cause_of (update_call text.now) result }
    ensures user { (r : Records) (user : ℕ) → IfOk result (λ call. IsBy r user call) }
{
    let pairs = pairs_of(alloc, text)?;
    let kind = kind_of(alloc, &pairs)?;
    Ok(Call::Update { kind })
}

#[tactic(auto, unfolding(crate::specs::Calls::values_call))]
fn values_call(alloc: Global, request: &Request, user: u32) -> Result<Call, RouteFault>
    ensures value { Answers cause_of (values_call user request.now) result }
    ensures user { (r : Records) → IfOk result (λ call. IsBy r user call) }
{
    let pairs = pairs_of(alloc, request.query.as_slice())?;
    let params = params_of(alloc, &pairs)?;
    let set = read_set(alloc, request.body.as_slice(), params)?;
    Ok(Call::Values { user, set })
}

#[tactic(auto, unfolding(crate::specs::Calls::completions_call))]
fn completions_call(alloc: Global, body: &[u8], user: u32) -> Result<Call, RouteFault>
    ensures value { Answers cause_of (completions_call user body.now) result }
    ensures user { (r : Records) → IfOk result (λ call. IsBy r user call) }
{
    let list = read_completions(alloc, body)?;
    Ok(Call::Completion { user, list })
}

#[tactic(auto, unfolding(crate::specs::Calls::uncompletion_call))]
fn uncompletion_call(
    alloc: Global,
    meta: &Metadata,
    text: &[u8],
    user: u32,
) -> Result<Call, RouteFault>
    ensures value { Answers cause_of (uncompletion_call meta.now user text.now) result }
    ensures user { IfOk result (λ call. IsBy meta.now user call) }
{
    let pairs = pairs_of(alloc, text)?;
    let completion = uncompletion_of(alloc, meta, &pairs)?;
    let mut list = Items::new(alloc);
    list.push(completion)?;
    Ok(Call::Completion { user, list })
}

#[tactic(auto, unfolding(crate::specs::Calls::approval_call))]
fn approval_call(
    alloc: Global,
    request: &Request,
    meta: &Metadata,
    user: u32,
    verb: Verb,
) -> Result<Call, RouteFault>
    ensures value { Answers cause_of (approval_call meta.now user verb request.now.query) result }
    ensures user { IfOk result (λ call. IsBy meta.now user call) }
{
    let pairs = pairs_of(alloc, request.query.as_slice())?;
    let act = act_of(alloc, meta, verb, &pairs)?;
    Ok(Call::Approval { user, act })
}

#[tactic(auto, unfolding(crate::specs::Calls::tracker_call))]
fn tracker_call(alloc: Global, request: &Request, user: u32) -> Result<Call, RouteFault>
    ensures value { Answers cause_of (tracker_call user request.now) result }
    ensures user { (r : Records) → IfOk result (λ call. IsBy r user call) }
{
    let pairs = pairs_of(alloc, request.query.as_slice())?;
    let params = bundle_params_of(alloc, &pairs)?;
    let bundle = read_bundle(alloc, request.body.as_slice(), params)?;
    Ok(Call::Tracker { user, bundle })
}

fn call_of(
    alloc: Global,
    request: &Request,
    meta: &Metadata,
    user: u32,
    route: Route,
    day: i32,
) -> Result<Call, RouteFault>
    requires user { user < length meta.now.users }
    requires from { FIRST_QUERY_DAY ≤ℤ day }
    requires to { day ≤ℤ LAST_QUERY_DAY }
    ensures value { Answers cause_of (call_of meta.now day user route request.now) result }
    ensures user { IfOk result (λ call. IsBy meta.now user call) }
{
    match route {
        Route::Query => query_call(alloc, request, meta, user, day),
        Route::Check => check_call(alloc, request, meta, user),
        Route::Update => update_call(alloc, request.query.as_slice()),
        Route::Values => values_call(alloc, request, user),
        Route::Complete => completions_call(alloc, request.body.as_slice(), user),
        Route::Uncomplete => uncompletion_call(alloc, meta, request.query.as_slice(), user),
        Route::Approve => approval_call(alloc, request, meta, user, Verb::Approve),
        Route::Unapprove => approval_call(alloc, request, meta, user, Verb::Unapprove),
        Route::Accept => approval_call(alloc, request, meta, user, Verb::Accept),
        Route::Unaccept => approval_call(alloc, request, meta, user, Verb::Unaccept),
        Route::Tracker => tracker_call(alloc, request, user),
    }
}

#[tactic(auto, unfolding(crate::specs::Calls::allowed_call))]
pub(crate) fn allowed_call(
    alloc: Global,
    request: &Request,
    meta: &Metadata,
    user: u32,
    route: Route,
    day: i32,
) -> Result<Call, RouteFault>
    requires user { user < length meta.now.users }
    requires from { FIRST_QUERY_DAY ≤ℤ day }
    requires to { day ≤ℤ LAST_QUERY_DAY }
    ensures value { Answers cause_of (allowed_call meta.now day user route request.now) result }
    ensures user { IfOk result (λ call. IsBy meta.now user call) }
{
    if let Some(authority) = authority_of(route) {
        if !meta.has_authority(user, authority) {
            return Err(refused(alloc, Code::F31, authority));
        }
    }
    call_of(alloc, request, meta, user, route, day)
}
