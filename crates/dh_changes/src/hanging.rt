ghost use Rattle.std.specs.Prelude.{◌≡◌, ◌++◌, ◌∷◌, [], None, IfOk, OnOk, if◌then◌else◌};
ghost use Rattle.dh_changes.specs.Said.{same_id};
ghost use Rattle.dh_changes.specs.Maps as maps;
ghost use Rattle.dh_changes.specs.Hanging as hang;

use crate::held::look;
use crate::index::Hangs;
use dh_base::items::Items;
use dh_base::memory::Memory;
use dh_base::uid::Uid;
use std::alloc::Global;
use std::collections::HashMap;

fn children_of<'a>(children: &'a HashMap<Uid, Items<Uid>>, parent: &Uid) -> &'a [Uid]
    ensures { result.now ≡ maps.held same_id [] children.now parent.now }
{
    match children.get(parent) {
        Some(list) => list.as_slice(),
        None => &[],
    }
}

fn hangs_on(parent: Option<Uid>, asked: Uid) -> bool
    ensures { result ≡ hang.hangs_on parent asked }
{
    match parent {
        Some(parent) => parent == asked,
        None => false,
    }
}

fn keep_if(found: &mut Vec<Uid>, id: Uid, keep: bool) -> Result<(), Memory>
    ensures { OnOk result (found.new.items ≡ found.old.items ++ (if keep then id ∷ [] else [])) }
{
    if keep {
        found.push(id)?;
    }
    Ok(())
}

/// Those noted under a parent that are there and hang on it, ascending by their bytes, each once.
pub fn live<V: Hangs>(
    alloc: Global,
    children: &HashMap<Uid, Items<Uid>>,
    objects: &HashMap<Uid, Option<V>>,
    parent: Uid,
) -> Result<Items<Uid>, Memory>
    ensures { IfOk result (λ ids. ids
        ≡ hang.hanging (λ id. V.parent (maps.held same_id None objects.now id)) (maps.held same_id [] children.now parent) parent) }
{
    let mut found = Vec::new(alloc);
    for id in children_of(children, &parent) {
        let hangs = hangs_on(V::parent_of(look(objects, id)), parent);
        keep_if(&mut found, *id, hangs)?;
    }
    found.sort_unstable();
    found.dedup();
    Ok(Items::from(found))
}
