//! The periods of the dimension `pe`.
ghost use Rattle.std.specs.Prelude.{◌≡◌, [], ◌≤ℤ◌, IfOk, OnOk, Some, None, if◌then◌else◌, option_map};
ghost use Rattle.dh_base.specs.declared.limits.TheConstants.{FIRST_QUERY_DAY, LAST_QUERY_DAY};
ghost use Rattle.dh_periods.specs.Keys.{same_period};
ghost use Rattle.query_lang.specs.Once.{with_new, once_from, KnowsPeriods};
ghost use Rattle.query_lang.specs.Items.{period_form, periods_from, period_items};

use crate::once::item_texts;
use dh_base::items::Items;
use dh_base::memory::Memory;
use dh_periods::{Period, relative};
use std::alloc::Global;
use std::collections::HashSet;

#[tactic(auto, unfolding(crate::specs::Items::period_form))]
fn period_form(alloc: Global, text: &[u8], day: i32) -> Result<Option<Vec<Period>>, Memory>
    requires from { FIRST_QUERY_DAY ≤ℤ day }
    requires to { day ≤ℤ LAST_QUERY_DAY }
    ensures { IfOk result (λ found. option_map (λ periods. periods.items) found ≡ period_form day text.now) }
{
    match Period::parse(text) {
        Some(period) => Ok(Some(Vec::from_slice(alloc, &[period])?)),
        None => relative(alloc, text, day),
    }
}

/// Puts a period at the end unless it is there.
fn put_new(kept: &mut Vec<Period>, seen: &mut HashSet<Period>, period: Period) -> Result<(), Memory>
    requires { KnowsPeriods seen.old kept.old.items }
    ensures kept { OnOk result (kept.new.items ≡ with_new same_period kept.old.items period) }
    ensures seen { OnOk result (KnowsPeriods seen.new kept.new.items) }
{
    if seen.contains(&period) {
        return Ok(());
    }
    seen.insert(period)?;
    kept.push(period)?;
    Ok(())
}

fn put_all(
    kept: &mut Vec<Period>,
    seen: &mut HashSet<Period>,
    periods: &[Period],
) -> Result<(), Memory>
    requires { KnowsPeriods seen.old kept.old.items }
    ensures kept { OnOk result (kept.new.items ≡ once_from same_period kept.old.items periods.now) }
    ensures seen { OnOk result (KnowsPeriods seen.new kept.new.items) }
{
    for period in periods {
        put_new(kept, seen, *period)?;
    }
    Ok(())
}

/// Puts the periods of items at the end, each once, and says whether each item has a form.
fn put_each(
    alloc: Global,
    kept: &mut Vec<Period>,
    seen: &mut HashSet<Period>,
    texts: &[Items<u8>],
    day: i32,
) -> Result<bool, Memory>
    requires from { FIRST_QUERY_DAY ≤ℤ day }
    requires to { day ≤ℤ LAST_QUERY_DAY }
    requires known { KnowsPeriods seen.old kept.old.items }
    ensures { IfOk result (λ whole. periods_from day kept.old.items texts.now ≡ (if whole then Some kept.new.items else None)) }
{
    for text in texts {
        let Some(found) = period_form(alloc, text.as_slice(), day)? else {
            return Ok(false);
        };
        put_all(kept, seen, &found)?;
    }
    Ok(true)
}

/// The periods of the items of a dimension, each once; `None` where an item has no form.
#[tactic(auto, unfolding(crate::specs::Items::period_items))]
pub(crate) fn period_items(
    alloc: Global,
    text: &[u8],
    day: i32,
) -> Result<Option<Items<Period>>, Memory>
    requires from { FIRST_QUERY_DAY ≤ℤ day }
    requires to { day ≤ℤ LAST_QUERY_DAY }
    ensures { IfOk result (λ found. found ≡ period_items day text.now) }
{
    let texts = item_texts(alloc, text)?;
    let mut kept = Vec::new(alloc);
    let mut seen = HashSet::new(alloc);
    if put_each(alloc, &mut kept, &mut seen, &texts, day)? {
        Ok(Some(Items::from(kept)))
    } else {
        Ok(None)
    }
}
