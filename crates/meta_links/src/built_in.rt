//! The combinations that every file has without naming them.
ghost use Rattle.std.specs.Prelude.{◌≡◌, ◌∷◌, [], IfOk, map};
ghost use Rattle.std.specs.List.{flat_map};
ghost use Rattle.meta_links.specs.Held.{built_in_combo, built_in_option_combo, category_combo_held, option_combo_held};
ghost use Rattle.meta_links.specs.Table.{category_combo_references, option_combo_references};

use crate::link_each::{Link, link_each};
use crate::unknown::Unknown;
use dh_base::items::Items;
use dh_base::memory::Memory;
use dh_metadata::built_in::{default_combo, default_option_combo};
use dh_metadata::ids::Ids;
use dh_metadata::raw::{RawCategoryCombo, RawOptionCombo};
use dh_metadata::records::{CategoryCombo, OptionCombo};
use std::alloc::Global;

/// The category combinations of a file, the built-in one before them.
#[derive(Drop)]
pub struct AllCombos<'a> {
    pub named: &'a Items<RawCategoryCombo>,
}

impl<'a> Link for AllCombos<'a> {
    type Held = Items<CategoryCombo>;

    ghost references = { λ all. flat_map category_combo_references all.named.now };

    ghost held = { λ ids all. built_in_combo ∷ map (category_combo_held ids) all.named.now };

    fn link(
        &self,
        alloc: Global,
        ids: &Ids,
        unknown: &mut Unknown,
    ) -> Result<Items<CategoryCombo>, Memory> {
        let built_in = built_in_combo(alloc)?;
        link_each(alloc, ids, unknown, built_in, self.named.as_slice())
    }
}

/// The option combinations of a file, the built-in one before them.
#[derive(Drop)]
pub struct AllOptionCombos<'a> {
    pub named: &'a Items<RawOptionCombo>,
}

impl<'a> Link for AllOptionCombos<'a> {
    type Held = Items<OptionCombo>;

    ghost references = { λ all. flat_map option_combo_references all.named.now };

    ghost held = { λ ids all. built_in_option_combo ∷ map (option_combo_held ids) all.named.now };

    fn link(
        &self,
        alloc: Global,
        ids: &Ids,
        unknown: &mut Unknown,
    ) -> Result<Items<OptionCombo>, Memory> {
        let built_in = built_in_option_combo(alloc)?;
        link_each(alloc, ids, unknown, built_in, self.named.as_slice())
    }
}

// The default category combination alone.
#[tactic(auto, unfolding(crate::specs::Held::built_in_combo))]
fn built_in_combo(alloc: Global) -> Result<Vec<CategoryCombo>, Memory>
    ensures { IfOk result (λ list. list.items ≡ built_in_combo ∷ []) }
{
    let mut list = Vec::new(alloc);
    list.push(CategoryCombo {
        id: default_combo(),
        name: Items::from(b"default".as_slice().to_vec(alloc)?),
        categories: Items::new(alloc),
    })?;
    Ok(list)
}

// The one option combination of the default category combination alone.
#[tactic(auto, unfolding(crate::specs::Held::built_in_option_combo))]
fn built_in_option_combo(alloc: Global) -> Result<Vec<OptionCombo>, Memory>
    ensures { IfOk result (λ list. list.items ≡ built_in_option_combo ∷ []) }
{
    let mut list = Vec::new(alloc);
    list.push(OptionCombo {
        id: default_option_combo(),
        name: Items::from(b"default".as_slice().to_vec(alloc)?),
        category_combo: 0,
        category_options: Items::new(alloc),
    })?;
    Ok(list)
}
