//! Category option combinations by their categories.

ghost use Rattle.std.specs.Prelude.{◌≡◌, ◌^◌, ◌<◌, length, map, IfOk};
ghost use Rattle.dh_categories.specs.Combos.{shown_combo, shown_combos, shown_option_combos};
ghost use Rattle.dh_categories.specs.Single.{CombosBelow};
ghost use Rattle.dh_base.specs.Memory.{Finds};
ghost use Rattle.meta_rules.specs.Faults.{rule_cause};
ghost use Rattle.dh_metadata.specs.Rows.{option_combo_rows};
ghost use Rattle.meta_rules.specs.Categories.{options_of, combo_lists, rows_broken, combo_broken};

use crate::fault::{BrokenRule, RuleError, RuleFault};
use crate::item::item_at;
use dh_base::memory::Memory;
use dh_categories::combos::Combos;
use dh_categories::fault::ComboFault;
use dh_metadata::records::{Category, CategoryCombo, OptionCombo};
use std::alloc::{AllocError, Global};

fn options(alloc: Global, categories: &[Category], place: u32) -> Result<Vec<u32>, AllocError>
    ensures { IfOk result (λ options. options.items ≡ options_of categories.now place) }
{
    match item_at(categories, place as usize) {
        Some(category) => Vec::from_slice(alloc, category.category_options.as_slice()),
        None => Ok(Vec::new(alloc)),
    }
}

/// The options of each category of a combination.
fn lists(alloc: Global, categories: &[Category], combo: &[u32]) -> Result<Vec<Vec<u32>>, Memory>
    ensures { IfOk result (λ lists. shown_combo lists ≡ map (options_of categories.now) combo.now) }
{
    let mut lists = Vec::with_capacity(alloc, combo.len())?;
    for category in combo {
        lists.push(options(alloc, categories, *category)?)?;
    }
    Ok(lists)
}

fn all_lists(
    alloc: Global,
    categories: &[Category],
    combos: &[CategoryCombo],
) -> Result<Vec<Vec<Vec<u32>>>, Memory>
    ensures { IfOk result (λ all. shown_combos all.items ≡ combo_lists categories.now combos.now) }
{
    let mut all = Vec::with_capacity(alloc, combos.len())?;
    for combo in combos {
        all.push(lists(alloc, categories, combo.categories.as_slice())?)?;
    }
    Ok(all)
}

fn rows(alloc: Global, option_combos: &[OptionCombo]) -> Result<Vec<(u32, Vec<u32>)>, Memory>
    ensures { IfOk result (λ rows. shown_option_combos rows.items ≡ option_combo_rows option_combos.now) }
{
    let mut rows = Vec::with_capacity(alloc, option_combos.len())?;
    for option_combo in option_combos {
        let options = Vec::from_slice(alloc, option_combo.category_options.as_slice())?;
        rows.push((option_combo.category_combo, options))?;
    }
    Ok(rows)
}

#[tactic(auto, unfolding(crate::specs::Categories::rows_broken))]
fn built(
    alloc: Global,
    lists: &[Vec<Vec<u32>>],
    rows: &[(u32, Vec<u32>)],
    option_combos: &[OptionCombo],
) -> Result<Combos, RuleError>
    requires few { length rows.now < 2 ^ 32 }
    requires in_range { CombosBelow (length lists.now) (shown_option_combos rows.now) }
    ensures { Finds rule_cause (rows_broken (shown_combos lists.now) (shown_option_combos rows.now) option_combos.now)
        (λ held. held ≡ shown_option_combos rows.now) result }
{
    match Combos::build(alloc, lists, rows) {
        Ok(held) => Ok(held),
        Err(ComboFault::Bad { place }) => {
            let uid = match item_at(option_combos, place as usize) {
                Some(option_combo) => Some(option_combo.id),
                None => None,
            };
            Err(RuleError::Broken(RuleFault {
                uid,
                which: BrokenRule::Combo,
            }))
        }
        Err(ComboFault::Memory) => Err(RuleError::Memory),
    }
}

/// The option combinations, which are fewer than 2^32, each of a category combination that is there.
pub fn combos_of(
    alloc: Global,
    categories: &[Category],
    combos: &[CategoryCombo],
    option_combos: &[OptionCombo],
) -> Result<Combos, RuleError>
    requires few { length option_combos.now < 2 ^ 32 }
    requires in_range { CombosBelow (length combos.now) (option_combo_rows option_combos.now) }
    ensures { Finds rule_cause (combo_broken categories.now combos.now option_combos.now) (λ held. held ≡ option_combo_rows option_combos.now) result }
{
    let lists = all_lists(alloc, categories, combos)?;
    let rows = rows(alloc, option_combos)?;
    built(alloc, &lists, &rows, option_combos)
}
