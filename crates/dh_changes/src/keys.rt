ghost use Rattle.std.specs.Prelude.{◌≡◌};
ghost use Rattle.std.specs.Bool.{Decides};
ghost use Rattle.dh_changes.specs.Keys.{same_value_key, same_approval_key, same_reg_key};
ghost use Rattle.dh_changes.specs.declared.keys.ValueKey.{ValueKey};
ghost use Rattle.dh_changes.specs.declared.keys.ApprovalKey.{ApprovalKey};
ghost use Rattle.dh_changes.specs.declared.keys.RegKey.{RegKey};

use dh_base::uid::Uid;
use dh_periods::Period;
use std::hash::{Hash, Hasher};

/// What a data value is of.
#[derive(Clone, Copy, PartialEq, Eq)]
pub struct ValueKey {
    /// The data element.
    pub element: Uid,
    pub period: Period,
    /// The organisation unit.
    pub unit: Uid,
    /// The category option combination.
    pub combo: Uid,
    /// The attribute option combination.
    pub attribute: Uid,
}

// Of a period its last day tells enough, where a derived hash would feed all of its fields.
impl Hash for ValueKey {
    ghost use Rattle.dh_changes.specs.Keys.{value_key_fed, same_value_keys};

    ghost hash_input = { value_key_fed };

    ghost respects_eq = { same_value_keys.fed };

    fn hash<H: Hasher>(&self, state: &mut H) {
        self.element.hash(state);
        state.write_i32(self.period.last());
        self.unit.hash(state);
        self.combo.hash(state);
        self.attribute.hash(state);
    }
}

/// What an approval is of.
#[derive(Clone, Copy, PartialEq, Eq, Hash)]
pub struct ApprovalKey {
    pub workflow: Uid,
    pub period: Period,
    /// The organisation unit.
    pub unit: Uid,
    /// The attribute option combination.
    pub attribute: Uid,
}

/// What a complete data set registration is of.
#[derive(Clone, Copy, PartialEq, Eq, Hash)]
pub struct RegKey {
    /// The data set.
    pub set: Uid,
    pub period: Period,
    /// The organisation unit.
    pub unit: Uid,
    /// The attribute option combination.
    pub attribute: Uid,
}

/// Equality of the three kinds of keys decides whether they are one key.
pub fn keys_are_told_apart()
    ensures values { (a : ValueKey) → (b : ValueKey) → Decides (same_value_key a b) (a ≡ b) }
    ensures approvals { (a : ApprovalKey) → (b : ApprovalKey) → Decides (same_approval_key a b) (a ≡ b) }
    ensures registrations { (a : RegKey) → (b : RegKey) → Decides (same_reg_key a b) (a ≡ b) }
{}
