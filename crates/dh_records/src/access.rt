//! Rights and the tree of the units, after the writes of a log.
ghost use Rattle.std.specs.Prelude.{◌≡◌, ◌<◌, true, length};
ghost use Rattle.dh_metadata.specs.Objects.{count_of, is_shared};
ghost use Rattle.dh_changes.specs.Facts.{Facts};
ghost use Rattle.dh_changes.specs.World.{facts};
ghost use Rattle.dh_records.specs.Access as known;

use dh_changes::world::World;
use dh_metadata::kind::Kind;
use dh_metadata::metadata::Metadata;
use dh_sharing::access::Right;
use org_tree::tree::Tree;

/// Whether the user has the right to the object of this number, after the writes of the log.
#[tactic(auto, unfolding(crate::specs::Access::access))]
pub fn may(world: &World, meta: &Metadata, user: u32, right: Right, kind: Kind, number: u32) -> bool
    requires user { user < length meta.now.users }
    requires shared { is_shared kind ≡ true }
    requires in_range { number < count_of meta.now kind }
    ensures { result ≡ known.access (facts world.now) meta.now user right kind number }
{
    meta.may(user, right, kind, number)
}

/// The tree of the organisation units after the writes of the log.
#[tactic(auto, unfolding(crate::specs::Access::tree))]
pub fn tree_of<'a>(world: &'a World, meta: &'a Metadata) -> &'a Tree
    ensures value { result.now ≡ known.tree (facts world.now) meta.now }
    // a unit has one number in the tree and in the metadata
    ensures numbers { length result.now ≡ length meta.now.organisation_units }
{
    meta.tree()
}

/// The metadata by which it is asked and viewed after a log. No write shares an object or moves a unit, so it is that of
/// the file after every log.
#[tactic(auto, unfolding(crate::specs::Access::meta_after, crate::specs::Access::access, crate::specs::Access::tree))]
pub fn meta_after(meta: &Metadata) -> &Metadata
    ensures value { (log : Facts) → result.now ≡ known.meta_after log meta.now }
    ensures after { (log : Facts) → known.IsAfter log meta.now result.now }
{
    meta
}
