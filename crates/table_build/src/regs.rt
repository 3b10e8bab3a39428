//! The rows of complete data set registrations.
ghost use Rattle.std.specs.Prelude.{◌≡◌, ◌<◌, length, IfOk, IfSome};
ghost use Rattle.dh_changes.specs.World.{facts};
ghost use Rattle.table_build.specs.Regs as known;

use dh_base::memory::Memory;
use dh_changes::keys::RegKey;
use dh_changes::world::World;
use dh_metadata::kind::Kind;
use dh_metadata::metadata::Metadata;
use dh_periods::Period;
use dh_records::access::tree_of;
use std::alloc::Global;
use std::collections::BTreeMap;
use table_rows::RegRow;

/// The numbers of the objects that a registration's key names.
#[derive(Clone, Copy)]
pub struct RegObjects {
    /// The data set.
    pub set: u32,
    pub unit: u32,
    /// The attribute option combination.
    pub attribute: u32,
}

/// What registrations are ordered by, field by field.
#[derive(Clone, Copy, PartialEq, Eq, PartialOrd, Ord)]
pub struct RegPlace {
    pub set: u32,
    pub period: Period,
    pub order: u32,
    pub attribute: u32,
}

/// The numbers of the objects that a key names, if all stand in the metadata.
#[tactic(auto, unfolding(crate::specs::Regs::objects_of))]
pub fn objects_of(meta: &Metadata, key: &RegKey) -> Option<RegObjects>
    ensures value { result ≡ known.objects_of meta.now key.now }
    ensures in_range { IfSome result (λ objects. objects.unit < length meta.now.organisation_units) }
{
    let set = meta.find(Kind::DataSet, key.set)?;
    let unit = meta.find(Kind::OrganisationUnit, key.unit)?;
    let attribute = meta.find(Kind::CategoryOptionCombo, key.attribute)?;
    Some(RegObjects {
        set,
        unit,
        attribute,
    })
}

#[tactic(auto, unfolding(crate::specs::Regs::reg_of, crate::specs::Regs::reg_with))]
fn reg_of(meta: &Metadata, world: &World, key: &RegKey) -> Option<RegRow>
    ensures { result ≡ known.reg_of meta.now (facts world.now) key.now }
{
    let day = world.registration(key)?;
    let objects = objects_of(meta, key)?;
    Some(RegRow {
        set: objects.set,
        period: key.period,
        order: tree_of(world, meta).order(objects.unit),
        attribute: objects.attribute,
        day,
    })
}

fn place_of(reg: &RegRow) -> RegPlace
    ensures { result ≡ known.place_of reg.now }
{
    RegPlace {
        set: reg.set,
        period: reg.period,
        order: reg.order,
        attribute: reg.attribute,
    }
}

/// The rows of these keys, by data set, period, order and attribute combination: of those that hold
/// a day and name objects that stand in the metadata.
#[tactic(auto, unfolding(crate::specs::Regs::regs_of))]
pub fn regs_of(
    alloc: Global,
    meta: &Metadata,
    world: &World,
    keys: &[RegKey],
) -> Result<Vec<RegRow>, Memory>
    ensures { IfOk result (λ regs. regs.items ≡ known.regs_of meta.now (facts world.now) keys.now) }
{
    let mut map = BTreeMap::new(alloc);
    for key in keys {
        if let Some(reg) = reg_of(meta, world, key) {
            map.insert(place_of(&reg), reg)?;
        }
    }
    Ok(map.into_values().collect(alloc)?)
}
