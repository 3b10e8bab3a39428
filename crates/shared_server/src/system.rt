//! What the callers of one engine share.
ghost use Rattle.std.specs.Prelude.{◌≡◌, List};
ghost use Rattle.dh_changes.specs.declared.change.Change.{Change};
ghost use Rattle.engine.specs.MetaAfter.{meta_after};

use dh_metadata::metadata::Metadata;
use dh_outside::Keeper;
use dh_records::access;
use shared_engine::{Naming, Shared};
use std::alloc::Global;
use std::sync::Wait;

/// The engine that is shared, the leave to wait for its lock, and memory; by how many workers the parts of an update are built, and
/// the gate at which each stops before it builds a year.
#[derive(Drop)]
pub struct System<'a, J: Naming, K: Keeper, R: Wait, G> {
    pub shared: &'a Shared<J, K>,
    pub rt: &'a R,
    pub alloc: Global,
    pub workers: u32,
    pub gate: &'a G,
}

/// The metadata, with rights and the tree as the published changes leave them.
pub(crate) fn meta_of<J: Naming, K: Keeper>(shared: &Shared<J, K>) -> &Metadata
    ensures { (log : List Change) → result.now ≡ meta_after J.made.meta log }
{
    access::meta_after(shared.meta())
}
