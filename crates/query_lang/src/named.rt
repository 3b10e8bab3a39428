//! What the items of the dimension `dx` name.
ghost use Rattle.std.specs.Prelude.{◌≡◌, ◌<◌, [], true, length};
ghost use Rattle.dh_metadata.specs.Linked.{IsBelow};
ghost use Rattle.dh_metadata.specs.Objects.{count_of, is_shared};
ghost use Rattle.dh_base.specs.Memory.{Answers};
ghost use Rattle.query_lang.specs.Given.{cause_of};
ghost use Rattle.query_lang.specs.Each.{each_of};
ghost use Rattle.query_lang.specs.Named.{readable, alone, object_named, operand_named, named, dx_of};

use crate::fault::refused;
use crate::item::{DxForm, DxItem};
use crate::{Dx, DxKind, QueryFault};
use dh_base::codes::Code;
use dh_base::items::Items;
use dh_base::uid::Uid;
use dh_metadata::kind::Kind;
use dh_metadata::metadata::Metadata;
use dh_sharing::access::Right;
use std::alloc::Global;

/// What an item of the dimension `dx` names.
#[derive(Clone, Copy)]
pub struct Found {
    pub kind: DxKind,
    /// The object's number among those of its kind.
    pub number: u32,
    /// The option combination of an operand.
    pub part: Option<u32>,
}

#[tactic(auto, unfolding(crate::specs::Named::readable))]
fn readable(meta: &Metadata, user: u32, kind: Kind, id: Uid) -> Option<u32>
    requires user { user < length meta.now.users }
    requires shared { is_shared kind ≡ true }
    ensures value { result ≡ readable meta.now user kind id }
    ensures in_range { IsBelow (count_of meta.now kind) result }
{
    let number = meta.find(kind, id)?;
    if meta.may(user, Right::Read, kind, number) {
        Some(number)
    } else {
        None
    }
}

fn alone(kind: DxKind, number: u32) -> Found
    ensures { result ≡ alone kind number }
{
    Found {
        kind,
        number,
        part: None,
    }
}

#[tactic(auto, unfolding(crate::specs::Named::object_named))]
fn object_named(meta: &Metadata, user: u32, id: Uid) -> Option<Found>
    requires { user < length meta.now.users }
    ensures { result ≡ object_named meta.now user id }
{
    if let Some(number) = readable(meta, user, Kind::DataElement, id) {
        return Some(alone(DxKind::Element, number));
    }
    if let Some(number) = readable(meta, user, Kind::Indicator, id) {
        return Some(alone(DxKind::Indicator, number));
    }
    if let Some(number) = readable(meta, user, Kind::ProgramIndicator, id) {
        return Some(alone(DxKind::ProgramIndicator, number));
    }
    None
}

#[tactic(auto, unfolding(crate::specs::Named::operand_named, crate::specs::Named::combo_named, crate::specs::Named::is_combo_of))]
fn operand_named(meta: &Metadata, user: u32, element: Uid, combo: Uid) -> Option<Found>
    requires { user < length meta.now.users }
    ensures { result ≡ operand_named meta.now user element combo }
{
    let number = readable(meta, user, Kind::DataElement, element)?;
    let part = meta.find(Kind::CategoryOptionCombo, combo)?;
    if meta.option_combo(part).category_combo != meta.element(number).category_combo {
        return None;
    }
    Some(Found {
        kind: DxKind::Element,
        number,
        part: Some(part),
    })
}

fn named(meta: &Metadata, user: u32, form: &DxForm) -> Option<Found>
    requires { user < length meta.now.users }
    ensures { result ≡ named meta.now user form.now }
{
    match form {
        DxForm::Object(id) => object_named(meta, user, *id),
        DxForm::Operand(element, combo) => operand_named(meta, user, *element, *combo),
        DxForm::Rate(set, figure) => {
            let number = readable(meta, user, Kind::DataSet, *set)?;
            Some(alone(DxKind::Rate(*figure), number))
        }
    }
}

#[tactic(auto, unfolding(crate::specs::Named::dx_of))]
fn dx_of(alloc: Global, meta: &Metadata, user: u32, item: &DxItem) -> Result<Dx, QueryFault>
    requires { user < length meta.now.users }
    ensures { Answers cause_of (dx_of meta.now user item.now) result }
{
    let Some(named) = named(meta, user, &item.form) else {
        return Err(refused(alloc, Code::F14, item.text.as_slice()));
    };
    let text = Items::from(Vec::from_slice(alloc, item.text.as_slice())?);
    Ok(Dx {
        kind: named.kind,
        number: named.number,
        part: named.part,
        text,
    })
}

/// The items of the dimension `dx`, or the first refusal.
pub(crate) fn each_dx(
    alloc: Global,
    meta: &Metadata,
    user: u32,
    items: &[DxItem],
) -> Result<Items<Dx>, QueryFault>
    requires { user < length meta.now.users }
    ensures { Answers cause_of (each_of (dx_of meta.now user) items.now) result }
{
    let mut all = Vec::new(alloc);
    for item in items {
        let dx = dx_of(alloc, meta, user, item)?;
        all.push(dx)?;
    }
    Ok(Items::from(all))
}
