//! The units of a query against metadata.
ghost use Rattle.std.specs.Prelude.{◌≡◌, ◌<◌, ◌++◌, [], length, IfOk, OnOk};
ghost use Rattle.dh_metadata.specs.Approval.{unit_rows};
ghost use Rattle.dh_metadata.specs.Users.{view_units_of};
ghost use Rattle.dh_metadata.specs.Linked.{IsBelow};
ghost use Rattle.dh_base.specs.Memory.{Answers};
ghost use Rattle.query_lang.specs.Given.{cause_of};
ghost use Rattle.query_lang.specs.View.{Covers};
ghost use Rattle.query_lang.specs.Each.{each_of};
ghost use Rattle.query_lang.specs.Units.{unit_seen, part_of, part_members, members_of, units_of};

use crate::QueryFault;
use crate::choice::chosen_units;
use crate::fault::refused;
use crate::item::{UnitForm, UnitItem};
use crate::part::Part;
use crate::view::is_covered;
use dh_base::codes::Code;
use dh_base::items::Items;
use dh_base::memory::Memory;
use dh_base::uid::Uid;
use dh_metadata::kind::Kind;
use dh_metadata::metadata::Metadata;
use dh_sharing::ranges::ViewRanges;
use std::alloc::Global;

#[tactic(auto, unfolding(crate::specs::Units::unit_seen), using(crate::proofs::ViewLemmas::unit_in))]
fn unit_seen(meta: &Metadata, user: u32, view: &ViewRanges, id: Uid) -> Option<u32>
    requires user { user < length meta.now.users }
    requires view { Covers (unit_rows meta.now) (view_units_of meta.now user) view.now }
    ensures { result ≡ unit_seen meta.now user id }
{
    let unit = meta.find(Kind::OrganisationUnit, id)?;
    if is_covered(meta.tree(), view, meta.view_units(user), unit) {
        Some(unit)
    } else {
        None
    }
}

#[tactic(auto, unfolding(crate::specs::Units::part_of))]
fn part_of(
    alloc: Global,
    meta: &Metadata,
    user: u32,
    view: &ViewRanges,
    item: &UnitItem,
) -> Result<Part, QueryFault>
    requires user { user < length meta.now.users }
    requires view { Covers (unit_rows meta.now) (view_units_of meta.now user) view.now }
    ensures { Answers cause_of (part_of meta.now user item.now) result }
{
    match &item.form {
        UnitForm::Unit(id) => match unit_seen(meta, user, view, *id) {
            Some(unit) => Ok(Part::Unit(unit)),
            None => Err(refused(alloc, Code::F15, item.text.as_slice())),
        },
        UnitForm::User => Ok(Part::User),
        UnitForm::Children => Ok(Part::Children),
        UnitForm::Grandchildren => Ok(Part::Grandchildren),
        UnitForm::Level(level) => Ok(Part::Level(*level)),
        UnitForm::Group(id) => match meta.find(Kind::OrganisationUnitGroup, *id) {
            Some(group) => Ok(Part::Group(group)),
            None => Err(refused(alloc, Code::F14, item.text.as_slice())),
        },
    }
}

/// The items of the dimension `ou`, or the first refusal.
pub(crate) fn each_part(
    alloc: Global,
    meta: &Metadata,
    user: u32,
    view: &ViewRanges,
    items: &[UnitItem],
) -> Result<Items<Part>, QueryFault>
    requires user { user < length meta.now.users }
    requires view { Covers (unit_rows meta.now) (view_units_of meta.now user) view.now }
    ensures { Answers cause_of (each_of (part_of meta.now user) items.now) result }
{
    let mut all = Vec::new(alloc);
    for item in items {
        let part = part_of(alloc, meta, user, view, item)?;
        all.push(part)?;
    }
    Ok(Items::from(all))
}

#[tactic(auto, unfolding(crate::specs::Units::group_units))]
fn push_members(units: &mut Vec<u32>, meta: &Metadata, part: Part) -> Result<(), Memory>
    ensures { OnOk result (units.new.items ≡ units.old.items ++ part_members meta.now part) }
{
    if let Part::Group(group) = part {
        if group < meta.count(Kind::OrganisationUnitGroup) {
            units.extend_from_slice(meta.unit_group(group).organisation_units.as_slice())?;
        }
    }
    Ok(())
}

#[tactic(auto, unfolding(crate::specs::Units::members_of))]
fn members_of(alloc: Global, meta: &Metadata, parts: &[Part]) -> Result<Vec<u32>, Memory>
    ensures { IfOk result (λ units. units.items ≡ members_of meta.now parts.now) }
{
    let mut units = Vec::new(alloc);
    for part in parts {
        push_members(&mut units, meta, *part)?;
    }
    Ok(units)
}

/// The units that the items choose.
#[tactic(auto, unfolding(crate::specs::Units::units_of), using(crate::proofs::ViewLemmas::views_in))]
pub(crate) fn units_of(
    alloc: Global,
    meta: &Metadata,
    user: u32,
    parts: &[Part],
) -> Result<Items<u32>, Memory>
    requires { user < length meta.now.users }
    ensures { IfOk result (λ units. units ≡ units_of meta.now user parts.now) }
{
    let members = members_of(alloc, meta, parts)?;
    let units = chosen_units(alloc, meta.tree(), meta.view_units(user), &members, parts)?;
    Ok(Items::from(units))
}
