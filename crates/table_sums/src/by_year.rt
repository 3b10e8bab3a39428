//! Lists cut by year, each looked at once for all years.
ghost use Rattle.std.specs.Prelude.{◌≡◌, ◌<◌, ◌++◌, ◌∷◌, [], true, false, ℤ, List, Bool, length, map, get_or, set, IfOk, OnOk, IfSome, IfNone};
ghost use Rattle.std.specs.List.{list_any};
ghost use Rattle.std.specs.Ordering.{int_cmp, int_eq};
ghost use Rattle.table_rows.specs.Store.{rises};
ghost use Rattle.table_sums.specs.Years.{is_year_if_any};
ghost use Rattle.table_sums.specs.YearParts.{cut_by};

use crate::find::place_of;
use crate::year_days::day_year;
use dh_base::items::Items;
use dh_base::memory::Memory;
use std::alloc::Global;
use table_rows::{EventRow, RegRow, Row};

/// What is of a year.
pub(crate) trait Dated {
    ghost is_in: { ℤ → Self → Bool };

    /// The year that it is of.
    fn year(&self) -> Option<i32>
        ensures { (year : ℤ) → is_in year self.now ≡ is_year_if_any result year };
}

impl Dated for Row {
    ghost use Rattle.table_sums.specs.Years.{is_row_in};

    ghost is_in = { is_row_in };

    fn year(&self) -> Option<i32> {
        Some(self.period.year())
    }
}

impl Dated for RegRow {
    ghost use Rattle.table_sums.specs.Years.{is_reg_in};

    ghost is_in = { is_reg_in };

    fn year(&self) -> Option<i32> {
        Some(self.period.year())
    }
}

impl Dated for EventRow {
    ghost use Rattle.table_sums.specs.Years.{is_event_in};

    ghost is_in = { is_event_in };

    fn year(&self) -> Option<i32> {
        day_year(self.day)
    }
}

// Which of ascending years a member is of.
fn place_among<T: Dated>(years: &[i32], member: &T) -> Option<usize>
    requires { rises int_cmp years.now ≡ true }
    ensures found { IfSome result (λ at. at < length years.now) }
    ensures year { IfSome result (λ at. (d year : ℤ) → T.is_in year member.now ≡ int_eq (get_or years.now at d) year) }
    ensures none { IfNone result (list_any (λ year. T.is_in year member.now) years.now ≡ false) }
{
    match member.year() {
        Some(year) => place_of(years, year),
        None => None,
    }
}

// An empty list for each year.
fn empty_lists<T: Drop>(alloc: Global, years: &[i32]) -> Result<Vec<Items<T>>, Memory>
    ensures { IfOk result (λ lists. lists.items ≡ map (λ year. []) years.now) }
{
    let mut lists = Vec::new(alloc);
    for _year in years {
        lists.push(Items::new(alloc))?;
    }
    Ok(lists)
}

fn add<T: Drop>(lists: &mut Vec<Items<T>>, at: usize, member: T) -> Result<(), Memory>
    requires { at < length lists.old.items }
    ensures { OnOk result (lists.new.items ≡ set lists.old.items at (get_or lists.old.items at [] ++ member ∷ [])) }
{
    lists[at].push(member)
}

// Puts a member into the list of its year, if that is among them.
fn put<T: Dated + Drop>(lists: &mut Vec<Items<T>>, years: &[i32], member: T) -> Result<(), Memory>
    requires years { rises int_cmp years.now ≡ true }
    requires lists { length lists.old.items ≡ length years.now }
    ensures { (before : List T) → lists.old.items ≡ cut_by T.is_in years.now before
        → OnOk result (lists.new.items ≡ cut_by T.is_in years.now (before ++ member ∷ [])) }
{
    match place_among(years, &member) {
        Some(at) => add(lists, at, member),
        None => {
            drop(member);
            Ok(())
        }
    }
}

/// A list for each of ascending years, with the members of that year.
pub(crate) fn lists_by_year<T: Dated + Drop>(
    alloc: Global,
    list: Vec<T>,
    years: &[i32],
) -> Result<Vec<Items<T>>, Memory>
    requires { rises int_cmp years.now ≡ true }
    ensures { IfOk result (λ lists. lists.items ≡ cut_by T.is_in years.now list.items) }
{
    let mut lists = empty_lists(alloc, years)?;
    for member in list {
        put(&mut lists, years, member)?;
    }
    Ok(lists)
}

/// Takes out one of the lists.
pub(crate) fn take_at<T>(alloc: Global, lists: &mut Vec<Items<T>>, at: usize) -> Items<T>
    requires { at < length lists.old.items }
    ensures taken { result ≡ get_or lists.old.items at [] }
    ensures left { lists.new.items ≡ set lists.old.items at [] }
{
    std::mem::replace(&mut lists[at], Items::new(alloc))
}
