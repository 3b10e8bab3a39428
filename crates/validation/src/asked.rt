//! Which rules are asked of a data set and a period.
ghost use Rattle.std.specs.Prelude.{◌≡◌, ◌<◌, length};
ghost use Rattle.validation.specs.Check.{is_in_set, are_in_set, fits};

use dh_metadata::kind::Kind;
use dh_metadata::metadata::Metadata;
use dh_metadata::records::Rule;
use dh_periods::PeriodType;
use expr_lang::{Expr, Item};

fn is_in_set(meta: &Metadata, set: u32, item: &Item) -> bool
    requires { set < length meta.now.data_sets }
    ensures { result ≡ is_in_set meta.now set item.now }
{
    match item {
        Item::Element { element, .. } => match meta.find(Kind::DataElement, *element) {
            Some(number) => meta.has_element(set, number),
            None => false,
        },
        _ => true,
    }
}

/// Whether all elements of the expression stand in the data set.
#[tactic(auto, unfolding(crate::specs::Check::are_in_set))]
fn are_in_set(meta: &Metadata, set: u32, expr: &Expr) -> bool
    requires { set < length meta.now.data_sets }
    ensures { result ≡ are_in_set meta.now set expr.now }
{
    for item in expr.items() {
        if !is_in_set(meta, set, item) {
            return false;
        }
    }
    true
}

/// Whether the rule is one of periods of that type, and its elements stand in the data set.
#[tactic(auto, unfolding(crate::specs::Check::fits))]
pub(crate) fn fits(meta: &Metadata, set: u32, kind: PeriodType, rule: &Rule) -> bool
    requires { set < length meta.now.data_sets }
    ensures { result ≡ fits meta.now set kind rule.now }
{
    rule.period_type == kind
        && are_in_set(meta, set, &rule.left_side.0)
        && are_in_set(meta, set, &rule.right_side.0)
}
