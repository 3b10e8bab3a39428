ghost use Rattle.std.specs.Prelude.{◌≡◌, ◌⊎◌, ◌^◌, ◌<◌, length, None, Some, option_map, slice_index_or, [], IfOk, IfErr, OnOk};
ghost use Rattle.dh_categories.specs.Combos.{is_bad, first_bad, only_of, shown_combos, shown_option_combos};
ghost use Rattle.dh_categories.specs.Single.{CombosBelow};
ghost use Rattle.dh_categories.specs.declared.fault.ComboFault.TheVariants as fault;

use crate::fault::ComboFault;
use crate::fits::is_one_of_each;
use crate::single::{Single, singles};
use dh_base::items::Items;
use std::alloc::{AllocError, Global};
use std::marker::Model;

/// The option combinations, each named by its place in the list that they were built of. Contracts
/// see that list: for each its category combination and its options.
#[derive(Drop)]
pub struct Combos {
    option_combos: Vec<(u32, Items<u32>)>,
    singles: Vec<Single>,
}

impl Model for Combos {
    ghost use Rattle.std.specs.Prelude.{List, ℕ};

    ghost Value = { List (ℕ × List ℕ) };

    ghost use Rattle.dh_categories.specs.Held.{IsHeld};

    ghost view = { λ combos. combos.option_combos.items };

    ghost invariant = { IsHeld };
}

impl Combos {
    /// Takes in the option combinations, which are fewer than 2^32. Each names its category combination
    /// by its place in the list of combinations, and each of these is the list of its categories, a
    /// category the list of its options.
    pub fn build(
        alloc: Global,
        combos: &[Vec<Vec<u32>>],
        option_combos: &[(u32, Vec<u32>)],
    ) -> Result<Combos, ComboFault>
        requires few { length option_combos.now < 2 ^ 32 }
        requires in_range { CombosBelow (length combos.now) (shown_option_combos option_combos.now) }
        ensures held { IfOk result (λ held. held ≡ shown_option_combos option_combos.now) }
        ensures none { OnOk result (first_bad (shown_combos combos.now) (shown_option_combos option_combos.now) ≡ None) }
        // `Bad` comes exactly where there is a first bad one, and names it
        ensures fault { IfErr result (λ e. (e ≡ fault.Memory)
            ⊎ (option_map fault.Bad (first_bad (shown_combos combos.now) (shown_option_combos option_combos.now)) ≡ Some e)) }
    {
        let option_combos = copied(alloc, option_combos)?;
        if let Some(place) = first_bad(combos, &option_combos) {
            return Err(ComboFault::Bad { place });
        }
        let singles = singles(alloc, combos.len(), &option_combos)?;
        Ok(Combos {
            option_combos,
            singles,
        })
    }

    /// The number of option combinations.
    pub fn count(&self) -> usize
        ensures { result ≡ length self.now }
    {
        self.option_combos.len()
    }

    /// The category combination of an option combination.
    pub fn combo_of(&self, option_combo: u32) -> u32
        requires { option_combo < length self.now }
        ensures { result ≡ (slice_index_or self.now option_combo (0, [])).0 }
    {
        self.option_combos[option_combo as usize].0
    }

    /// The options of an option combination.
    pub fn options_of(&self, option_combo: u32) -> &[u32]
        requires { option_combo < length self.now }
        ensures { result.now ≡ (slice_index_or self.now option_combo (0, [])).1 }
    {
        self.option_combos[option_combo as usize].1.as_slice()
    }

    /// The one option combination of a category combination, where there is exactly one.
    pub fn only(&self, combo: u32) -> Option<u32>
        ensures { result ≡ only_of self.now combo }
    {
        if combo as usize >= self.singles.len() {
            return None;
        }
        match self.singles[combo as usize] {
            Single::At(place) => Some(place),
            Single::Absent => None,
            Single::Several => None,
        }
    }
}

fn copied(
    alloc: Global,
    option_combos: &[(u32, Vec<u32>)],
) -> Result<Vec<(u32, Items<u32>)>, AllocError>
    ensures { IfOk result (λ copies. copies.items ≡ shown_option_combos option_combos.now) }
{
    let mut copies = Vec::with_capacity(alloc, option_combos.len())?;
    for i in 0..option_combos.len() {
        let options = Vec::from_slice(alloc, option_combos[i].1.as_slice())?;
        copies.push((option_combos[i].0, Items::from(options)))?;
    }
    Ok(copies)
}

/// The first that isn't one option of each category of its combination.
fn first_bad(combos: &[Vec<Vec<u32>>], option_combos: &[(u32, Items<u32>)]) -> Option<u32>
    requires few { length option_combos.now < 2 ^ 32 }
    requires in_range { CombosBelow (length combos.now) option_combos.now }
    ensures { result ≡ first_bad (shown_combos combos.now) option_combos.now }
{
    for place in 0..option_combos.len() as u32 {
        if is_wrong(combos, &option_combos[place as usize]) {
            return Some(place);
        }
    }
    None
}

fn is_wrong(combos: &[Vec<Vec<u32>>], option_combo: &(u32, Items<u32>)) -> bool
    requires { option_combo.now.0 < length combos.now }
    ensures { result ≡ is_bad (shown_combos combos.now) option_combo.now }
{
    let categories = combos[option_combo.0 as usize].as_slice();
    !is_one_of_each(categories, option_combo.1.as_slice())
}
