//! What users may write, and where.

ghost use Rattle.std.specs.Prelude.{◌≡◌, ◌<◌, length};
ghost use Rattle.dh_sharing.specs.declared.access.Right.TheVariants.{DataWrite};
ghost use Rattle.dh_metadata.specs.declared.kind.Kind.TheVariants.{CategoryOption};
ghost use Rattle.dh_changes.specs.World.{facts};
ghost use Rattle.value_import.specs.Ranges.{IsWithin};
ghost use Rattle.value_import.specs.Rules.{may_write, is_captured};

use crate::place::Place;
use dh_changes::world::World;
use dh_metadata::kind::Kind;
use dh_metadata::metadata::Metadata;
use dh_records::access::{may, tree_of};
use dh_sharing::access::Right;

/// Whether the user may write data of the set and of each option of the attribute option combination.
#[tactic(auto, unfolding(crate::specs::Rules::may_write, crate::specs::Rules::options_of))]
pub fn may_write(world: &World, meta: &Metadata, place: &Place, user: u32) -> bool
    requires user { user < length meta.now.users }
    requires place { IsWithin meta.now place.now }
    ensures { result ≡ may_write (facts world.now) meta.now place.now user }
{
    let right = Right::DataWrite;
    if !may(world, meta, user, right, Kind::DataSet, place.set) {
        return false;
    }
    let options = meta
        .option_combo(place.attribute)
        .category_options
        .as_slice();
    for option in options {
        if !may(world, meta, user, right, Kind::CategoryOption, *option) {
            return false;
        }
    }
    true
}

/// Whether the unit is under a capture unit of the user.
#[tactic(auto, unfolding(crate::specs::Rules::is_captured, crate::specs::Rules::capture_units))]
pub fn is_captured(world: &World, meta: &Metadata, unit: u32, user: u32) -> bool
    requires user { user < length meta.now.users }
    requires unit { unit < length meta.now.organisation_units }
    ensures { result ≡ is_captured (facts world.now) meta.now unit user }
{
    let tree = tree_of(world, meta);
    let captures = meta.user(user).organisation_units.as_slice();
    for capture in captures {
        if tree.is_under(unit, *capture) {
            return true;
        }
    }
    false
}
