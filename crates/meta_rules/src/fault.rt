//! Why metadata is refused.

ghost use Rattle.std.specs.Prelude.{◌≡◌};
ghost use Rattle.meta_rules.specs.declared.fault.RuleError.TheVariants as fault;
ghost use Rattle.meta_rules.specs.Faults.{rule_text};

use dh_base::memory::Memory;
use dh_base::uid::Uid;
use std::alloc::{AllocError, AllocFailed};

/// A rule between objects.
#[derive(Clone, Copy)]
pub enum BrokenRule {
    /// The organisation units aren't a tree of at most 12 levels.
    Tree,
    /// An option combination isn't one option of each category.
    Combo,
    /// A data set's element has another category combination there than its own.
    Override,
    /// An element is in data sets of two workflows.
    Workflow,
    /// The unit levels of a workflow don't ascend with the numbers of its levels.
    Levels,
    /// A program indicator names a stage of another program.
    Stage,
    /// A program indicator is aggregated in a way that is none of its own.
    Aggregation,
}

impl BrokenRule {
    /// The word for the rule in messages.
    #[tactic(auto, unfolding(crate::specs::Faults::rule_text))]
    pub fn text(self) -> &'static str
        ensures { result.now ≡ rule_text self }
    {
        match self {
            BrokenRule::Tree => "tree",
            BrokenRule::Combo => "combo",
            BrokenRule::Override => "override",
            BrokenRule::Workflow => "workflow",
            BrokenRule::Levels => "levels",
            BrokenRule::Stage => "stage",
            BrokenRule::Aggregation => "aggregation",
        }
    }
}

/// A rule that is broken, and the object that breaks it. It is `None` where no unit is the root.
#[derive(Clone, Copy)]
pub struct RuleFault {
    pub uid: Option<Uid>,
    pub which: BrokenRule,
}

/// Why objects are refused.
#[derive(Clone, Copy)]
pub enum RuleError {
    Broken(RuleFault),
    Memory,
}

impl From<Memory> for RuleError {
    ghost from_gives = { λ _ error. error ≡ fault.Memory };

    fn from(_error: Memory) -> RuleError {
        RuleError::Memory
    }
}

impl From<AllocError> for RuleError {
    ghost from_gives = { λ _ error. error ≡ fault.Memory };

    fn from(_error: AllocError) -> RuleError {
        RuleError::Memory
    }
}

impl<T: Drop> From<AllocFailed<T>> for RuleError {
    ghost from_gives = { λ _ error. error ≡ fault.Memory };

    fn from(_error: AllocFailed<T>) -> RuleError {
        RuleError::Memory
    }
}
