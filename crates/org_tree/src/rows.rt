ghost use Rattle.std.specs.Prelude.{◌≡◌, ◌<◌, length};
ghost use Rattle.org_tree.specs.Units.{parent_of, id_at, is_child};

use dh_base::uid::Uid;

/// The place of the unit's parent.
#[inline]
#[tactic(auto, using(crate::proofs::RowLemmas::row_reads))]
pub fn parent(units: &[(Uid, Option<u32>)], unit: u32) -> Option<u32>
    requires { unit < length units.now }
    ensures { result ≡ parent_of units.now unit }
{
    units[unit as usize].1
}

/// The unit's UID.
#[inline]
#[tactic(auto, using(crate::proofs::RowLemmas::row_reads))]
pub fn id(units: &[(Uid, Option<u32>)], unit: u32) -> Uid
    requires { unit < length units.now }
    ensures { result ≡ id_at units.now unit }
{
    units[unit as usize].0
}

/// Whether the unit's parent is the other one.
pub fn is_child_of(units: &[(Uid, Option<u32>)], unit: u32, above: u32) -> bool
    requires { unit < length units.now }
    ensures { result ≡ is_child units.now unit above }
{
    match parent(units, unit) {
        None => false,
        Some(place) => place == above,
    }
}
