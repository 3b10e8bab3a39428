//! The validation rules in the order of their identifiers.
ghost use Rattle.std.specs.Prelude.{◌≡◌, IfOk};
ghost use Rattle.dh_metadata.specs.Sets.{by_id};
ghost use Rattle.validation.specs.Check.{rule_ids};

use dh_base::memory::Memory;
use dh_metadata::kind::Kind;
use dh_metadata::metadata::Metadata;
use std::alloc::Global;
use std::collections::BTreeMap;

/// The numbers of the rules, in the order of the bytes of their identifiers.
#[tactic(auto, unfolding(dh_metadata::specs::Sets::by_id))]
pub(crate) fn rules_by_id(alloc: Global, meta: &Metadata) -> Result<Vec<u32>, Memory>
    ensures { IfOk result (λ order. order.items ≡ by_id (rule_ids meta.now)) }
{
    let mut map = BTreeMap::new(alloc);
    for number in 0..meta.count(Kind::ValidationRule) {
        map.insert(meta.rule(number).id, number)?;
    }
    Ok(map.into_values().collect(alloc)?)
}
