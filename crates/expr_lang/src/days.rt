//! The elements and attributes whose values are days.

ghost use Rattle.std.specs.Prelude.{◌≡◌, IfOk};
ghost use Rattle.expr_lang.specs.Days.{IsIndexOf};

use dh_base::memory::Memory;
use dh_base::uid::Uid;
use std::alloc::Global;
use std::collections::HashSet;
use std::marker::Model;

/// Elements and attributes whose values are days. Each is found without a look at the others. Contracts
/// see the list of them.
#[derive(Drop)]
pub struct DayItems {
    listed: Vec<Uid>,
    known: HashSet<Uid>,
}

impl Model for DayItems {
    ghost use Rattle.std.specs.Prelude.{List, ℕ};
    ghost use Rattle.expr_lang.specs.Days.{IsIndexOf};

    ghost Value = { List (List ℕ) };

    ghost view = { λ days. days.listed.items };

    ghost invariant = { λ days. IsIndexOf days.known days.listed.items };
}

/// The set of these identifiers, which may repeat.
fn set_of(alloc: Global, uids: &[Uid]) -> Result<HashSet<Uid>, Memory>
    ensures { IfOk result (λ known. IsIndexOf known uids.now) }
{
    let mut known = HashSet::new(alloc);
    for uid in uids {
        known.insert(*uid)?;
    }
    Ok(known)
}

fn list_of(alloc: Global, uids: &[Uid]) -> Result<Vec<Uid>, Memory>
    ensures { IfOk result (λ listed. listed.items ≡ uids.now) }
{
    let mut listed = Vec::with_capacity(alloc, uids.len())?;
    listed.extend_from_slice(uids)?;
    Ok(listed)
}

impl DayItems {
    ghost use Rattle.std.specs.Prelude.{◌≡◌, [], IfOk};
    ghost use Rattle.expr_lang.specs.Item.{is_among_of};

    /// No elements and attributes.
    pub fn none(alloc: Global) -> DayItems
        ensures { result ≡ [] }
    {
        DayItems {
            listed: Vec::new(alloc),
            known: HashSet::new(alloc),
        }
    }

    /// These elements and attributes.
    pub fn of(alloc: Global, uids: &[Uid]) -> Result<DayItems, Memory>
        ensures { IfOk result (λ days. days ≡ uids.now) }
    {
        let known = set_of(alloc, uids)?;
        let listed = list_of(alloc, uids)?;
        Ok(DayItems { listed, known })
    }

    /// Whether this is one of them.
    pub fn has(&self, uid: Uid) -> bool
        ensures { result ≡ is_among_of uid self.now }
    {
        self.known.contains(&uid)
    }
}
