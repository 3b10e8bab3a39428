//! The day of a moment.
ghost use Rattle.std.specs.Prelude.{◌≡◌, ◌≤ℤ◌};
ghost use Rattle.dh_base.specs.declared.limits.TheConstants.{FIRST_QUERY_DAY, LAST_QUERY_DAY};
ghost use Rattle.dh_periods.specs.Moment.{day_of, whole_days};

use dh_base::limits::{FIRST_QUERY_DAY, LAST_QUERY_DAY};

const SECONDS: i64 = 86_400;

fn whole_days(moment: i64) -> i64
    ensures { result ≡ whole_days moment }
{
    moment.div_euclid(SECONDS)
}

/// The day of a moment, as days since 1 January 1970: the moment in seconds since then, divided by
/// 86,400 and rounded down, then held between 1910-01-01 and 2099-12-31.
#[tactic(auto, unfolding(crate::specs::Moment::day_of))]
pub fn day_of(moment: i64) -> i32
    ensures value { result ≡ day_of moment }
    ensures from { FIRST_QUERY_DAY ≤ℤ result }
    ensures to { result ≤ℤ LAST_QUERY_DAY }
{
    let days = whole_days(moment);
    if days < FIRST_QUERY_DAY {
        return FIRST_QUERY_DAY as i32;
    }
    if LAST_QUERY_DAY < days {
        return LAST_QUERY_DAY as i32;
    }
    days as i32
}
