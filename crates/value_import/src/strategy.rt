//! What the strategy of an import asks.

ghost use Rattle.std.specs.Prelude.{◌≡◌};
ghost use Rattle.value_import.specs.Values.{is_delete_all, is_misplaced};

use dh_changes::outcome::ImportStrategy;

/// Whether all is to be taken away.
pub fn is_delete_all(strategy: ImportStrategy) -> bool
    ensures { result ≡ is_delete_all strategy }
{
    match strategy {
        ImportStrategy::Create => false,
        ImportStrategy::Update => false,
        ImportStrategy::CreateAndUpdate => false,
        ImportStrategy::Delete => true,
    }
}

/// Whether something is to be made that is there, or to be changed or taken away and isn't there.
#[tactic(auto, unfolding(crate::specs::Values::is_misplaced))]
pub fn is_misplaced(strategy: ImportStrategy, deletes: bool, held: bool) -> bool
    ensures { result ≡ is_misplaced strategy deletes held }
{
    match strategy {
        ImportStrategy::Create => held || deletes,
        ImportStrategy::Update => !held,
        ImportStrategy::CreateAndUpdate => deletes && !held,
        ImportStrategy::Delete => deletes && !held,
    }
}
