//! The year of a day.
ghost use Rattle.std.specs.Prelude.{◌≡◌};
ghost use Rattle.table_sums.specs.Years.{day_year};

use dh_periods::{PeriodType, containing};

/// The year of a day.
#[tactic(auto, unfolding(crate::specs::Years::day_year))]
pub fn day_year(day: i32) -> Option<i32>
    ensures { result ≡ day_year day }
{
    match containing(PeriodType::Daily, day, day) {
        Some(period) => Some(period.year()),
        None => None,
    }
}
