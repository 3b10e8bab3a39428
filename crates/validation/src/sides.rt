//! The values of a rule's sides.
ghost use Rattle.std.specs.Prelude.{◌≡◌, map, get_or, None, IfOk, OnOk};
ghost use Rattle.cell_values.specs.Seen.{seen_of, contents_of};
ghost use Rattle.validation.specs.Check.{given_at, side_value};
ghost use Rattle.validation.specs.Run.{IsSpot, AreKnownAt};

use crate::known::{ItemKey, key_of, look_up, note};
use crate::spot::Spot;
use cell_values::{Source, item_groups, item_plans, item_values};
use dh_base::frac::Frac;
use dh_base::memory::Memory;
use dh_base::plain::Strategy;
use expr_eval::{Value, compile, eval};
use expr_lang::{Expr, Item};
use std::alloc::Global;
use std::collections::BTreeMap;
use table_rows::RowStore;

fn first_of(values: &[Option<Frac>]) -> Option<Frac>
    ensures { result ≡ get_or values.now 0 None }
{
    if values.is_empty() {
        return None;
    }
    values[0]
}

/// The value of an item at the unit alone and inside the period, from the records.
fn value_of<S: RowStore>(
    alloc: Global,
    source: &Source<'_, S>,
    spot: &Spot,
    item: &Item,
) -> Result<Option<Frac>, Memory>
    requires { IsSpot source.now.meta.now source.now.seer.now spot.now }
    ensures { IfOk result (λ value. value ≡ given_at source.now.meta.now
        (seen_of source.now.meta.now source.now.seer.now.user
        (contents_of (S.rows source.now.store.now) (S.events source.now.store.now) (S.regs source.now.store.now)))
        spot.now.place item.now) }
{
    let items = [*item];
    let plans = item_plans(alloc, source, &items)?;
    let groups = item_groups(alloc, plans.as_slice(), &spot.periods)?;
    let values = item_values(
        alloc,
        source,
        plans.as_slice(),
        groups.as_slice(),
        &spot.periods,
        &spot.units,
    )?;
    Ok(first_of(&values))
}

/// The value of an item. One that has a key is valued once a check.
fn item_value<S: RowStore>(
    alloc: Global,
    source: &Source<'_, S>,
    spot: &Spot,
    known: &mut BTreeMap<ItemKey, Option<Frac>>,
    item: &Item,
) -> Result<Option<Frac>, Memory>
    requires spot { IsSpot source.now.meta.now source.now.seer.now spot.now }
    requires known { AreKnownAt source.now.meta.now source.now.seer.now
        (contents_of (S.rows source.now.store.now) (S.events source.now.store.now) (S.regs source.now.store.now))
        spot.now.place known.old.entries }
    ensures known { OnOk result (AreKnownAt source.now.meta.now source.now.seer.now
        (contents_of (S.rows source.now.store.now) (S.events source.now.store.now) (S.regs source.now.store.now))
        spot.now.place known.new.entries) }
    ensures value { IfOk result (λ value. value ≡ given_at source.now.meta.now
        (seen_of source.now.meta.now source.now.seer.now.user
        (contents_of (S.rows source.now.store.now) (S.events source.now.store.now) (S.regs source.now.store.now)))
        spot.now.place item.now) }
{
    let Some(key) = key_of(item) else {
        return value_of(alloc, source, spot, item);
    };
    if let Some(value) = look_up(known, &key) {
        return Ok(value);
    }
    let value = value_of(alloc, source, spot, item)?;
    note(known, &key, &value)?;
    Ok(value)
}

/// The values of items, in their order.
fn item_values_of<S: RowStore>(
    alloc: Global,
    source: &Source<'_, S>,
    spot: &Spot,
    known: &mut BTreeMap<ItemKey, Option<Frac>>,
    items: &[Item],
) -> Result<Vec<Option<Frac>>, Memory>
    requires spot { IsSpot source.now.meta.now source.now.seer.now spot.now }
    requires known { AreKnownAt source.now.meta.now source.now.seer.now
        (contents_of (S.rows source.now.store.now) (S.events source.now.store.now) (S.regs source.now.store.now))
        spot.now.place known.old.entries }
    ensures known { OnOk result (AreKnownAt source.now.meta.now source.now.seer.now
        (contents_of (S.rows source.now.store.now) (S.events source.now.store.now) (S.regs source.now.store.now))
        spot.now.place known.new.entries) }
    ensures values { IfOk result (λ values. values.items ≡ map (given_at source.now.meta.now
        (seen_of source.now.meta.now source.now.seer.now.user
        (contents_of (S.rows source.now.store.now) (S.events source.now.store.now) (S.regs source.now.store.now)))
        spot.now.place) items.now) }
{
    let mut values = Vec::new(alloc);
    for item in items {
        let value = item_value(alloc, source, spot, known, item)?;
        values.push(value)?;
    }
    Ok(values)
}

/// The value of a side under its own missing-value strategy.
pub(crate) fn side_value<S: RowStore>(
    alloc: Global,
    source: &Source<'_, S>,
    spot: &Spot,
    known: &mut BTreeMap<ItemKey, Option<Frac>>,
    side: &(Expr, Strategy),
) -> Result<Value, Memory>
    requires spot { IsSpot source.now.meta.now source.now.seer.now spot.now }
    requires known { AreKnownAt source.now.meta.now source.now.seer.now
        (contents_of (S.rows source.now.store.now) (S.events source.now.store.now) (S.regs source.now.store.now))
        spot.now.place known.old.entries }
    ensures known { OnOk result (AreKnownAt source.now.meta.now source.now.seer.now
        (contents_of (S.rows source.now.store.now) (S.events source.now.store.now) (S.regs source.now.store.now))
        spot.now.place known.new.entries) }
    ensures value { IfOk result (λ value. value ≡ side_value source.now.meta.now
        (seen_of source.now.meta.now source.now.seer.now.user
        (contents_of (S.rows source.now.store.now) (S.events source.now.store.now) (S.regs source.now.store.now)))
        spot.now.place side.now) }
{
    let form = compile(alloc, &side.0)?;
    let values = item_values_of(alloc, source, spot, known, side.0.items())?;
    eval(alloc, &form, values.as_slice(), side.1)
}
