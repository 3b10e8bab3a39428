ghost use Rattle.std.specs.Prelude.{◌≡◌, ℕ, List, true, OnOk};
ghost use Rattle.dh_changes.specs.Maps.{is_noted};

use crate::held::enter;
use dh_base::items::Items;
use dh_base::memory::Memory;
use dh_base::uid::Uid;
use std::alloc::Global;
use std::collections::HashMap;

/// Notes an identifier as a child of a parent.
pub fn note(
    alloc: Global,
    children: &mut HashMap<Uid, Items<Uid>>,
    parent: &Uid,
    child: Uid,
) -> Result<(), Memory>
    ensures noted { OnOk result (is_noted children.new parent.now child ≡ true) }
    ensures stays { (p c : List ℕ) → is_noted children.old p c ≡ true → is_noted children.new p c ≡ true }
{
    enter(children, parent, Items::new(alloc))?;
    match children.get_mut(parent) {
        Some(list) => list.push(child),
        None => Ok(()),
    }
}
