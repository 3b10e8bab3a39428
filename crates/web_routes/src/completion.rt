//! A registration that is taken away.
ghost use Rattle.std.specs.Prelude.{codes};
ghost use Rattle.dh_base.specs.Memory.{Answers};
ghost use Rattle.web_routes.specs.Given.{cause_of};
ghost use Rattle.web_routes.specs.Parameters.{value_of};
ghost use Rattle.web_routes.specs.Completions.{is_name, is_period, needed, uncompletion_of};

use crate::fault::{RouteFault, refused};
use crate::pairs::value_of;
use dh_base::codes::Code;
use dh_base::items::Items;
use dh_base::uid::Uid;
use dh_changes::text::Text;
use dh_metadata::kind::Kind;
use dh_metadata::metadata::Metadata;
use dh_periods::Period;
use import_forms::completion::Completion;
use std::alloc::Global;

/// The parameter that has to name an object of a kind.
#[tactic(auto, unfolding(crate::specs::Completions::is_name))]
fn object_in(
    alloc: Global,
    meta: &Metadata,
    kind: Kind,
    pairs: &[(Items<u8>, Items<u8>)],
    name: &[u8],
) -> Result<Text, RouteFault>
    ensures { Answers cause_of (needed name.now (is_name meta.now kind) (value_of name.now pairs.now)) result }
{
    if let Some(text) = value_of(pairs, name) {
        if let Some(id) = Uid::parse(text) {
            if meta.find(kind, id).is_some() {
                return Ok(Text::of(alloc, text)?);
            }
        }
    }
    Err(refused(alloc, Code::F21, name))
}

#[tactic(auto, unfolding(crate::specs::Completions::is_period))]
fn period_in(alloc: Global, pairs: &[(Items<u8>, Items<u8>)]) -> Result<Text, RouteFault>
    ensures { Answers cause_of (needed (codes "pe") is_period (value_of (codes "pe") pairs.now)) result }
{
    if let Some(text) = value_of(pairs, b"pe") {
        if Period::parse(text).is_some() {
            return Ok(Text::of(alloc, text)?);
        }
    }
    Err(refused(alloc, Code::F21, b"pe"))
}

/// The registration that is taken away.
#[tactic(auto, unfolding(crate::specs::Completions::uncompletion_of))]
pub(crate) fn uncompletion_of(
    alloc: Global,
    meta: &Metadata,
    pairs: &[(Items<u8>, Items<u8>)],
) -> Result<Completion, RouteFault>
    ensures { Answers cause_of (uncompletion_of meta.now pairs.now) result }
{
    let set = object_in(alloc, meta, Kind::DataSet, pairs, b"ds")?;
    let period = period_in(alloc, pairs)?;
    let unit = object_in(alloc, meta, Kind::OrganisationUnit, pairs, b"ou")?;
    Ok(Completion {
        data_set: Some(set),
        period: Some(period),
        unit: Some(unit),
        attribute: None,
        date: None,
        done: false,
    })
}
