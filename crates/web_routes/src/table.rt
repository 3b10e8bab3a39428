//! The table of routes.
ghost use Rattle.std.specs.Prelude.{◌≡◌, find};
ghost use Rattle.std.specs.List.{list_any};
ghost use Rattle.std.specs.Option.{option_copied};
ghost use Rattle.dh_base.specs.Memory.{Answers};
ghost use Rattle.web_routes.specs.Given.{cause_of};
ghost use Rattle.web_routes.specs.Routes.{name_of, other_name_of, method_of, authority_of, is_named, has_rest, takes, route_of};

use crate::fault::{RouteFault, found, refused};
use crate::path::{is_front_and_id, rest_of};
use dh_base::codes::Code;
use std::alloc::Global;

/// What a request may ask for: a method at a path.
#[derive(Clone, Copy)]
pub enum Route {
    /// A query.
    Query,
    /// Validation of a data set.
    Check,
    /// An update of the tables.
    Update,
    /// Data values.
    Values,
    /// Complete data set registrations.
    Complete,
    /// A registration is taken away.
    Uncomplete,
    /// Tracker objects.
    Tracker,
    /// Data is approved.
    Approve,
    /// An approval is taken away.
    Unapprove,
    /// Approved data is accepted.
    Accept,
    /// An acceptance is taken away.
    Unaccept,
}

const ALL_ROUTES: [Route; 11] = [
    Route::Query,
    Route::Check,
    Route::Update,
    Route::Values,
    Route::Complete,
    Route::Uncomplete,
    Route::Tracker,
    Route::Approve,
    Route::Unapprove,
    Route::Accept,
    Route::Unaccept,
];

fn name_of(route: Route) -> &'static [u8]
    ensures { result.now ≡ name_of route }
{
    match route {
        Route::Query => b"analytics",
        Route::Check => b"validation/dataSet/",
        Route::Update => b"resourceTables/analytics",
        Route::Values => b"dataValueSets",
        Route::Complete => b"completeDataSetRegistrations",
        Route::Uncomplete => b"completeDataSetRegistrations",
        Route::Tracker => b"tracker",
        Route::Approve => b"dataApprovals",
        Route::Unapprove => b"dataApprovals",
        Route::Accept => b"dataAcceptances",
        Route::Unaccept => b"dataAcceptances",
    }
}

fn other_name_of(route: Route) -> Option<&'static [u8]>
    ensures { option_copied result ≡ other_name_of route }
{
    match route {
        Route::Query => Some(b"analytics.json"),
        Route::Values => Some(b"dataValueSets.json"),
        Route::Check
        | Route::Update
        | Route::Complete
        | Route::Uncomplete
        | Route::Tracker
        | Route::Approve
        | Route::Unapprove
        | Route::Accept
        | Route::Unaccept => None,
    }
}

fn method_of(route: Route) -> &'static [u8]
    ensures { result.now ≡ method_of route }
{
    match route {
        Route::Query => b"GET",
        Route::Check => b"GET",
        Route::Update => b"POST",
        Route::Values => b"POST",
        Route::Complete => b"POST",
        Route::Uncomplete => b"DELETE",
        Route::Tracker => b"POST",
        Route::Approve => b"POST",
        Route::Unapprove => b"DELETE",
        Route::Accept => b"POST",
        Route::Unaccept => b"DELETE",
    }
}

/// The authority that a user needs for the route.
pub fn authority_of(route: Route) -> Option<&'static [u8]>
    ensures { option_copied result ≡ authority_of route }
{
    match route {
        Route::Update => Some(b"F_PERFORM_MAINTENANCE"),
        Route::Values => Some(b"F_DATAVALUE_ADD"),
        Route::Complete => Some(b"F_DATAVALUE_ADD"),
        Route::Uncomplete => Some(b"F_DATAVALUE_ADD"),
        Route::Query
        | Route::Check
        | Route::Tracker
        | Route::Approve
        | Route::Unapprove
        | Route::Accept
        | Route::Unaccept => None,
    }
}

#[tactic(auto, unfolding(crate::specs::Routes::is_named))]
fn is_named(route: Route, text: &[u8]) -> bool
    ensures { result ≡ is_named route text.now }
{
    if text == name_of(route) {
        return true;
    }
    match other_name_of(route) {
        Some(name) => text == name,
        None => false,
    }
}

#[tactic(auto, unfolding(crate::specs::Routes::has_rest))]
fn has_rest(route: Route, rest: &[u8]) -> bool
    ensures { result ≡ has_rest rest.now route }
{
    match route {
        Route::Check => is_front_and_id(rest, name_of(route)),
        Route::Query
        | Route::Update
        | Route::Values
        | Route::Complete
        | Route::Uncomplete
        | Route::Tracker
        | Route::Approve
        | Route::Unapprove
        | Route::Accept
        | Route::Unaccept => is_named(route, rest),
    }
}

/// Whether one of the routes has this rest.
fn is_known(routes: &[Route], rest: &[u8]) -> bool
    ensures { result ≡ list_any (has_rest rest.now) routes.now }
{
    for route in routes {
        if has_rest(*route, rest) {
            return true;
        }
    }
    false
}

/// The first of the routes that takes the method at this rest.
#[tactic(auto, unfolding(crate::specs::Routes::takes))]
fn taken(routes: &[Route], method: &[u8], rest: &[u8]) -> Option<Route>
    ensures { result ≡ find (takes method.now rest.now) routes.now }
{
    for route in routes {
        if has_rest(*route, rest) && method == method_of(*route) {
            return Some(*route);
        }
    }
    None
}

/// The route of a method and a path. It is refused with F6 where no route has the path, with F7 where none of those
/// that have it has the method.
#[tactic(auto, unfolding(crate::specs::Routes::route_of, crate::specs::Routes::route_at, crate::specs::Routes::all_routes))]
pub fn route_of(alloc: Global, method: &[u8], path: &[u8]) -> Result<Route, RouteFault>
    ensures { Answers cause_of (route_of method.now path.now) result }
{
    let Some(rest) = rest_of(path) else {
        return Err(refused(alloc, Code::F6, b""));
    };
    if is_known(&ALL_ROUTES, rest) {
        found(alloc, Code::F7, b"", taken(&ALL_ROUTES, method, rest))
    } else {
        Err(refused(alloc, Code::F6, b""))
    }
}
