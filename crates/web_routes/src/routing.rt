//! Requests as calls.
ghost use Rattle.std.specs.Prelude.{◌≡◌, ◌≤ℤ◌, ◌<◌, length, IfOk};
ghost use Rattle.dh_base.specs.declared.limits.TheConstants.{FIRST_QUERY_DAY, LAST_QUERY_DAY};
ghost use Rattle.dh_base.specs.Memory.{Answers};
ghost use Rattle.web_routes.specs.Given.{cause_of};
ghost use Rattle.web_routes.specs.Calls.{routed, IsSound};

use crate::asking::{allowed_call, user_for};
use crate::call::Call;
use crate::fault::RouteFault;
use crate::table::route_of;
use dh_metadata::metadata::Metadata;
use http_wire::Request;
use std::alloc::Global;

/// The call that a request stands for on a day from 1 January 1910 to 31 December 2099, or its refusal. Of several
/// causes the first counts, in the order: F6 and F7 of the path and the method, F8 of the user, F31 of the right, F21
/// and F10 to F17 of the parameters, F20 of the body.
#[tactic(auto, using(crate::proofs::CallLaws::sound_call), unfolding(crate::specs::Calls::routed))]
pub fn route(
    alloc: Global,
    request: &Request,
    meta: &Metadata,
    day: i32,
) -> Result<Call, RouteFault>
    requires from { FIRST_QUERY_DAY ≤ℤ day }
    requires to { day ≤ℤ LAST_QUERY_DAY }
    ensures value { Answers cause_of (routed meta.now day request.now) result }
    ensures sound { IfOk result (λ call. IsSound meta.now call) }
{
    let route = route_of(alloc, request.method.as_slice(), request.path.as_slice())?;
    let user = user_for(alloc, meta, &request.token)?;
    allowed_call(alloc, request, meta, user, route, day)
}
