//! The rows of data values.
ghost use Rattle.std.specs.Prelude.{◌≡◌, ◌<◌, length, Some, IfSome};
ghost use Rattle.dh_metadata.specs.Objects.{find_of};
ghost use Rattle.dh_metadata.specs.declared.kind.Kind.TheVariants.{CategoryOptionCombo};
ghost use Rattle.dh_changes.specs.World.{facts};
ghost use Rattle.table_build.specs.Values as known;

use dh_changes::keys::ValueKey;
use dh_changes::world::World;
use dh_metadata::kind::Kind;
use dh_metadata::metadata::Metadata;
use dh_records::access::tree_of;
use dh_records::approved::approved_position_of;
use dh_records::number::number_of;
use table_rows::Row;

/// The numbers of the objects that a value's key names.
#[derive(Clone, Copy)]
pub struct ValueObjects {
    pub element: u32,
    pub unit: u32,
    /// The category option combination.
    pub combo: u32,
    /// The attribute option combination.
    pub attribute: u32,
}

/// The number of a key's attribute option combination, which often is its category option combination too.
pub fn attribute_of(meta: &Metadata, key: &ValueKey, combo: u32) -> Option<u32>
    requires { find_of meta.now CategoryOptionCombo key.now.combo ≡ Some combo }
    ensures { result ≡ find_of meta.now CategoryOptionCombo key.now.attribute }
{
    if key.attribute == key.combo {
        Some(combo)
    } else {
        meta.find(Kind::CategoryOptionCombo, key.attribute)
    }
}

#[tactic(auto, unfolding(crate::specs::Values::objects_of))]
pub(crate) fn objects_of(meta: &Metadata, key: &ValueKey) -> Option<ValueObjects>
    ensures value { result ≡ known.objects_of meta.now key.now }
    ensures in_range { IfSome result (λ objects. (objects.element < length meta.now.data_elements) × (objects.unit < length meta.now.organisation_units)) }
{
    let element = meta.find(Kind::DataElement, key.element)?;
    let unit = meta.find(Kind::OrganisationUnit, key.unit)?;
    let combo = meta.find(Kind::CategoryOptionCombo, key.combo)?;
    let attribute = attribute_of(meta, key, combo)?;
    Some(ValueObjects {
        element,
        unit,
        combo,
        attribute,
    })
}

/// The row of a key that holds this text, whose objects have these numbers.
#[tactic(auto, unfolding(crate::specs::Values::row_with, crate::specs::Values::number_at))]
pub fn row_with(
    meta: &Metadata,
    world: &World,
    key: &ValueKey,
    text: &[u8],
    objects: ValueObjects,
) -> Row
    requires of { known.objects_of meta.now key.now ≡ Some objects }
    requires element { objects.element < length meta.now.data_elements }
    requires unit { objects.unit < length meta.now.organisation_units }
    ensures { result ≡ known.row_with meta.now (facts world.now) key.now text.now objects }
{
    let approved = approved_position_of(
        world,
        meta,
        objects.element,
        objects.unit,
        key.period,
        key.attribute,
    );
    Row {
        element: objects.element,
        combo: objects.combo,
        attribute: objects.attribute,
        period: key.period,
        approved,
        order: tree_of(world, meta).order(objects.unit),
        micros: match number_of(meta.element(objects.element).value_type, text) {
            Some(number) => Some(number.value()),
            None => None,
        },
    }
}
