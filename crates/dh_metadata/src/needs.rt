//! What a user has to see approved in a workflow.

ghost use Rattle.std.specs.Prelude.{◌≡◌, ◌<◌, ◌≤◌, nat_le, length, position, IfSome};
ghost use Rattle.org_tree.specs.Units.{level_of};
ghost use Rattle.dh_metadata.specs.Approval.{lower, least_level, need_by, need_from};
ghost use Rattle.dh_metadata.specs.Linked.{AreBelow};

use dh_base::plain::Need;
use org_tree::tree::Tree;

/// The least tree level of units, `None` where there is none.
pub fn least_level(tree: &Tree, units: &[u32]) -> Option<u8>
    requires { AreBelow (length tree.now) units.now }
    ensures { result ≡ least_level tree.now units.now }
{
    let mut least = None;
    for unit in units {
        let level = tree.level(*unit);
        least = match least {
            None => Some(level),
            Some(other) => Some(other.min(level)),
        };
    }
    least
}

fn first_fit(levels: &[u8], least: u8) -> Option<usize>
    ensures { result ≡ position (λ level. nat_le least level) levels.now }
{
    for place in 0..levels.len() {
        if least <= levels[place] {
            return Some(place);
        }
    }
    None
}

fn need_by(count: usize, first: Option<usize>) -> Need
    requires few { count ≤ 8 }
    requires in_range { IfSome first (λ i. i < count) }
    ensures { result ≡ need_by count first }
{
    match first {
        None => Need::All,
        Some(i) => {
            if i + 1 == count {
                Need::All
            } else {
                Need::Upto((i + 1) as u8)
            }
        }
    }
}

/// The need by the levels of a workflow and the least tree level of the view units.
pub fn need_from(levels: &[u8], least: Option<u8>) -> Need
    requires { length levels.now ≤ 8 }
    ensures { result ≡ need_from levels.now least }
{
    match least {
        None => Need::All,
        Some(least) => need_by(levels.len(), first_fit(levels, least)),
    }
}
