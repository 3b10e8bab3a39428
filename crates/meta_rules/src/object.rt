//! Reading the texts of an object.

ghost use Rattle.std.specs.Prelude.{◌≡◌, IfOk};
ghost use Rattle.expr_grammar.specs.Answer.{Reading};
ghost use Rattle.expr_lang.specs.declared.tree.Place.TheVariants.{Aggregate};
ghost use Rattle.expr_lang.specs.declared.tree.Sort.TheVariants.{Number};
ghost use Rattle.std.specs.Option.{option_or};
ghost use Rattle.dh_base.specs.Memory.{Finds};
ghost use Rattle.meta_rules.specs.Read.{expr_in};
ghost use Rattle.meta_rules.specs.Objects.{expr_cause, unread};

use crate::expr_fault::ExprError;
use crate::read::read;
use dh_base::items::Items;
use dh_base::uid::Uid;
use dh_metadata::ids::Ids;
use expr_lang::{DayItems, Expr, Place, Sort};
use std::alloc::{AllocError, Global};

/// The numbers over aggregate data that two texts of an object are.
fn read_numbers(
    alloc: Global,
    ids: &Ids,
    days: &DayItems,
    uid: Uid,
    first: &[u8],
    second: &[u8],
) -> Result<(Expr, Expr), ExprError>
    ghost reading: { Reading }
    ensures { Finds expr_cause (option_or (unread reading.answer ids.now days.now uid Aggregate Number first.now)
        (unread reading.answer ids.now days.now uid Aggregate Number second.now))
        (λ pair. (pair.0 ≡ expr_in reading.answer days.now Aggregate Number first.now)
        × (pair.1 ≡ expr_in reading.answer days.now Aggregate Number second.now)) result }
{
    let (place, wanted) = (Place::Aggregate, Sort::Number);
    let first = read(alloc, ids, days, uid, first, place, wanted)?;
    let second = read(alloc, ids, days, uid, second, place, wanted)?;
    Ok((first, second))
}

/// A copy of its name, and the numbers over aggregate data that two texts of an object are.
pub fn read_named(
    alloc: Global,
    ids: &Ids,
    days: &DayItems,
    uid: Uid,
    name: &[u8],
    first: &[u8],
    second: &[u8],
) -> Result<(Items<u8>, (Expr, Expr)), ExprError>
    ghost reading: { Reading }
    ensures { Finds expr_cause (option_or (unread reading.answer ids.now days.now uid Aggregate Number first.now)
        (unread reading.answer ids.now days.now uid Aggregate Number second.now))
        (λ texts. (texts.0 ≡ name.now)
        × (texts.1.0 ≡ expr_in reading.answer days.now Aggregate Number first.now)
        × (texts.1.1 ≡ expr_in reading.answer days.now Aggregate Number second.now)) result }
{
    let name = copied(alloc, name)?;
    match read_numbers(alloc, ids, days, uid, first, second) {
        Ok(read) => Ok((name, read)),
        Err(fault) => {
            drop(name);
            Err(fault)
        }
    }
}

/// A copy of a name.
pub fn copied(alloc: Global, name: &[u8]) -> Result<Items<u8>, AllocError>
    ensures { IfOk result (λ copy. copy ≡ name.now) }
{
    Ok(Items::from(Vec::from_slice(alloc, name)?))
}
