//! Expressions that were read.

use crate::tree::{Branch, Item};
use dh_base::items::Items;
use std::marker::Model;

/// An expression that was read.
pub struct Expr {
    branches: Items<Branch>,
    items: Items<Item>,
    places: Items<usize>,
}

// By hand, so that it is proved here alone and not in each crate above.
impl Drop for Expr {
    fn drop(self) {
        let Expr {
            branches: _,
            items: _,
            places: _,
        } = self;
    }
}

impl Model for Expr {
    ghost use Rattle.expr_lang.specs.contracts.tree.Item as item;
    ghost use Rattle.expr_lang.specs.contracts.tree.Leaf as leaf;
    ghost use Rattle.expr_lang.specs.Expression.{Expression, expression_code};
    ghost use Rattle.expr_lang.specs.Branches.{tree_in, AreParts};
    ghost use Rattle.expr_lang.specs.Stored.{syntax_of};

    ghost Value = { Expression };

    ghost coded = { expression_code leaf.the_row.coded item.the_row.coded };

    ghost view = { λ e. record { tree = syntax_of (tree_in e.items e.branches); items = e.items; places = e.places } };

    ghost invariant = { λ e. AreParts e.branches e.items e.places };
}

impl Expr {
    ghost use Rattle.std.specs.Prelude.{◌≡◌, ◌<◌, length, slice_index};
    ghost use Rattle.expr_lang.specs.Branches.{tree_in, AreSound, AreDifferent, AreParts};
    ghost use Rattle.expr_lang.specs.Stored.{syntax_of};

    pub(crate) fn new(branches: Items<Branch>, items: Items<Item>, places: Items<usize>) -> Expr
        requires { AreParts branches items places }
        ensures tree { result.tree ≡ syntax_of (tree_in items branches) }
        ensures items { result.items ≡ items }
        ensures places { result.places ≡ places }
    {
        Expr {
            branches,
            items,
            places,
        }
    }

    /// The nodes, each after its operands. The last one is the whole expression, and the others need
    /// not all be part of it. Their depth is at most 512.
    pub fn branches(&self) -> &[Branch]
        ensures tree { syntax_of (tree_in self.now.items result.now) ≡ self.now.tree }
        ensures some { 0 < length result.now }
        ensures sound { AreSound (length self.now.items) result.now }
        ensures different { AreDifferent self.now.items }
    {
        self.branches.as_slice()
    }

    /// The different items, in order of their first occurrence.
    pub fn items(&self) -> &[Item]
        ensures { result.now ≡ self.now.items }
    {
        self.items.as_slice()
    }

    /// The first byte of the first occurrence of an item.
    pub fn item_at(&self, n: usize) -> usize
        requires { n < length self.now.items }
        ensures { result ≡ slice_index self.now.places n }
    {
        self.places.as_slice()[n]
    }
}
