//! Whether lists are those of a store.
ghost use Rattle.std.specs.Prelude.{◌≡◌, Bool};
ghost use Rattle.std.specs.List.{list_all, list_any};
ghost use Rattle.table_rows.specs.Events.{is_day_if_any};
ghost use Rattle.table_rows.specs.Rows.{same_place};
ghost use Rattle.table_rows.specs.Store.{is_store, have_own_places};

use crate::event::{EventRow, ItemValue, RegRow};
use crate::ranked::rise;
use crate::row::Row;
use dh_base::limits::{MOST_RECORDS, is_day};

fn is_placed_again(row: &Row, later: &[Row]) -> bool
    ensures { result ≡ list_any (same_place row.now) later.now }
{
    for other in later {
        if row.has_place_of(other) {
            return true;
        }
    }
    false
}

fn have_own_places(rows: &[Row]) -> bool
    ensures { result ≡ have_own_places rows.now }
{
    for i in 0..rows.len() {
        if is_placed_again(&rows[i], &rows[i + 1..]) {
            return false;
        }
    }
    true
}

fn is_day_if_any(day: Option<i32>) -> bool
    ensures { result ≡ is_day_if_any day }
{
    match day {
        Some(day) => is_day(day),
        None => true,
    }
}

// What has days, which may lie outside of the years that a store holds.
trait HasDays {
    ghost lie: { Self → Bool };

    fn has_days(&self) -> bool
        ensures { result ≡ lie self.now };
}

impl HasDays for (u32, ItemValue) {
    ghost use Rattle.table_rows.specs.Events.{has_day};

    ghost lie = { has_day };

    fn has_days(&self) -> bool {
        match self.1 {
            ItemValue::Day(day) => is_day(day),
            ItemValue::Number(_) => true,
            ItemValue::Plain => true,
        }
    }
}

impl HasDays for EventRow {
    ghost use Rattle.table_rows.specs.Events.{has_days};

    ghost lie = { has_days };

    #[tactic(auto, unfolding(crate::specs::Events::has_days))]
    fn has_days(&self) -> bool {
        is_day(self.day)
            && is_day_if_any(self.enrolled)
            && have_days(self.values.as_slice())
            && have_days(self.attributes.as_slice())
    }
}

impl HasDays for RegRow {
    ghost use Rattle.dh_base.specs.Limits.{is_day};

    ghost lie = { λ reg. is_day reg.day };

    fn has_days(&self) -> bool {
        is_day(self.day)
    }
}

fn have_days<T: HasDays>(list: &[T]) -> bool
    ensures { result ≡ list_all T.lie list.now }
{
    for member in list {
        if !member.has_days() {
            return false;
        }
    }
    true
}

/// Whether these are the lists of a store: each in its order without a repeat and of at most
/// 4,194,304 members, with days from 1900-01-01 to 2100-12-31, the years ascending, and of a group
/// no two rows of one order. Each row is compared with each: this is for a few rows.
#[tactic(auto, unfolding(crate::specs::Store::is_store))]
pub fn is_store(rows: &[Row], events: &[EventRow], regs: &[RegRow], years: &[i32]) -> bool
    ensures { result ≡ is_store rows.now events.now regs.now years.now }
{
    rows.len() <= MOST_RECORDS
        && events.len() <= MOST_RECORDS
        && regs.len() <= MOST_RECORDS
        && rise(rows)
        && rise(events)
        && rise(regs)
        && rise(years)
        && have_days(events)
        && have_days(regs)
        && have_own_places(rows)
}
