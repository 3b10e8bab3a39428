//! What objects form together where they keep the rules between them.

use dh_base::items::Items;
use dh_categories::combos::Combos;
use org_tree::tree::Tree;

/// The tree of the units, the option combinations, and what approval goes by.
#[derive(Drop)]
pub struct Structure {
    pub tree: Tree,
    pub combos: Combos,
    /// Of each data element the workflow of the data sets with it.
    pub workflows: Vec<Option<u32>>,
    /// Of each workflow the unit levels of its positions.
    pub positions: Vec<Items<i64>>,
}
