//! The groups of an element, and those of a cell.
ghost use Rattle.std.specs.Prelude.{◌≡◌, ◌++◌, ◌∷◌, [], cond, IfOk, OnOk};
ghost use Rattle.std.specs.List.{filter};
ghost use Rattle.cell_values.specs.Held.{IsSeer};
ghost use Rattle.cell_values.specs.Cells.{is_named, is_in_some};
ghost use Rattle.cell_values.specs.Plans.{is_group_read, inside};

use crate::cell::Operand;
use crate::seer::Seer;
use dh_metadata::kind::Kind;
use dh_metadata::metadata::Metadata;
use dh_periods::Period;
use std::alloc::{AllocError, Global};
use table_rows::Group;

/// Puts the item last, if it is to be kept.
pub(crate) fn push_if<T: Copy>(list: &mut Vec<T>, item: &T, keeps: bool) -> Result<(), AllocError>
    ensures { OnOk result (list.new.items ≡ list.old.items ++ cond keeps (item.now ∷ []) []) }
{
    if keeps {
        list.push(*item)?;
    }
    Ok(())
}

fn is_named(named: Option<u32>, n: u32) -> bool
    ensures { result ≡ is_named named n }
{
    match named {
        None => true,
        Some(named) => n == named,
    }
}

/// Whether the period lies in some of the others.
pub(crate) fn is_in_some(periods: &[Period], period: &Period) -> bool
    ensures { result ≡ is_in_some periods.now period.now }
{
    for asked in periods {
        if period.inside(*asked) {
            return true;
        }
    }
    false
}

/// Whether the group is of the combinations that are named, and may be read.
#[tactic(auto, unfolding(crate::specs::Plans::is_group_read))]
fn is_read(meta: &Metadata, seer: &Seer, group: &Group, operand: &Operand) -> bool
    requires { IsSeer meta.now seer.now }
    ensures { result ≡ is_group_read meta.now seer.now.user operand.now.combo operand.now.attribute group.now }
{
    is_named(operand.combo, group.combo)
        && is_named(operand.attribute, group.attribute)
        && seer.sees_attribute(meta, group.attribute)
        && seer.may_read(meta, Kind::DataElement, group.element)
}

/// The groups that are of the combinations that are named, and may be read.
pub(crate) fn read_groups(
    alloc: Global,
    meta: &Metadata,
    seer: &Seer,
    groups: &[Group],
    operand: &Operand,
) -> Result<Vec<Group>, AllocError>
    requires { IsSeer meta.now seer.now }
    ensures { IfOk result (λ kept. kept.items ≡ filter (is_group_read meta.now seer.now.user operand.now.combo operand.now.attribute) groups.now) }
{
    let mut kept = Vec::new(alloc);
    for group in groups {
        push_if(&mut kept, group, is_read(meta, seer, group, operand))?;
    }
    Ok(kept)
}

/// The groups whose period lies in some of these.
pub(crate) fn inside(
    alloc: Global,
    groups: &[Group],
    periods: &[Period],
) -> Result<Vec<Group>, AllocError>
    ensures { IfOk result (λ kept. kept.items ≡ inside periods.now groups.now) }
{
    let mut kept = Vec::new(alloc);
    for group in groups {
        push_if(&mut kept, group, is_in_some(periods, &group.period))?;
    }
    Ok(kept)
}
