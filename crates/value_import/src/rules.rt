//! Conditions on the place of a value or a completion.

ghost use Rattle.std.specs.Prelude.{◌≡◌, ◌<◌, length, not, pos, int_lt, ◌-ℤ◌};
ghost use Rattle.std.specs.Ordering.{int_eq};
ghost use Rattle.dh_changes.specs.World.{facts};
ghost use Rattle.value_import.specs.Outcomes.{IsKnown};
ghost use Rattle.value_import.specs.Ranges.{IsWithin};
ghost use Rattle.value_import.specs.Rules.{first_of, place_conditions, is_beyond, is_future, is_past, is_expired};

use crate::place::Place;
use crate::rights::{is_captured, may_write};
use dh_base::codes::Code;
use dh_changes::outcome::Who;
use dh_changes::world::World;
use dh_metadata::metadata::Metadata;
use dh_periods::{Period, containing};

/// The first condition on the place that holds.
#[tactic(auto, unfolding(crate::specs::Rules::place_conditions))]
pub fn place_condition(world: &World, meta: &Metadata, who: Who, place: &Place) -> Option<Code>
    requires who { IsKnown meta.now who }
    requires place { IsWithin meta.now place.now }
    ensures { result ≡ first_of (place_conditions (facts world.now) meta.now who place.now) }
{
    if !meta.is_assigned(place.set, place.unit) {
        return Some(Code::C8);
    }
    let Who::User(user) = who else {
        return None;
    };
    if !may_write(world, meta, place, user) {
        return Some(Code::C9);
    }
    if !is_captured(world, meta, place.unit, user) {
        return Some(Code::C10);
    }
    None
}

fn ahead(later: i32, earlier: i32) -> i64
    ensures { result ≡ later -ℤ earlier }
{
    i64::from(later) - i64::from(earlier)
}

fn is_more(count: i64, most: i64) -> bool
    ensures { result ≡ int_lt most count }
{
    most < count
}

fn is_some_days(days: i64) -> bool
    ensures { result ≡ not (int_eq days (pos 0)) }
{
    days != 0
}

#[tactic(auto, unfolding(crate::specs::Rules::is_beyond))]
fn is_beyond(today: i32, most: i64, period: Period) -> bool
    ensures { result ≡ is_beyond today most period }
{
    match containing(period.kind(), today, today) {
        Some(now) => is_more(ahead(period.ordinal(), now.ordinal()), most),
        None => false,
    }
}

/// Whether the period is too far in the future.
#[tactic(auto, unfolding(crate::specs::Rules::is_future, crate::specs::Rules::open_periods))]
pub fn is_future(meta: &Metadata, today: i32, place: &Place) -> bool
    requires { IsWithin meta.now place.now }
    ensures { result ≡ is_future meta.now today place.now }
{
    is_beyond(
        today,
        meta.data_set(place.set).open_future_periods,
        place.period,
    )
}

#[tactic(auto, unfolding(crate::specs::Rules::is_past))]
fn is_past(today: i32, days: i64, period: Period) -> bool
    ensures { result ≡ is_past today days period }
{
    is_some_days(days) && is_more(ahead(today, period.last()), days)
}

/// Whether the period is past, and the user may not write there any more.
#[tactic(auto, unfolding(crate::specs::Rules::is_expired, crate::specs::Rules::expiry_days, crate::specs::Rules::edit_expired))]
pub fn is_expired(meta: &Metadata, today: i32, place: &Place, user: u32) -> bool
    requires user { user < length meta.now.users }
    requires place { IsWithin meta.now place.now }
    ensures { result ≡ is_expired meta.now today place.now user }
{
    is_past(today, meta.data_set(place.set).expiry_days, place.period)
        && !meta.has_authority(user, b"F_EDIT_EXPIRED")
}
