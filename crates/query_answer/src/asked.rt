//! Which queries are answered.

ghost use Rattle.std.specs.Prelude.{◌≡◌};
ghost use Rattle.std.specs.List.{list_all};
ghost use Rattle.query_answer.specs.Asked.{can_answer_dx};

use dh_metadata::kind::Kind;
use dh_metadata::metadata::Metadata;
use query_lang::{Dx, DxKind};

#[tactic(auto, unfolding(crate::specs::Asked::can_answer_dx))]
fn can_answer_dx(meta: &Metadata, dx: &Dx) -> bool
    ensures { result ≡ can_answer_dx meta.now dx.now }
{
    match dx.kind {
        DxKind::Element => dx.number < meta.count(Kind::DataElement),
        DxKind::Indicator => dx.number < meta.count(Kind::Indicator),
        DxKind::ProgramIndicator => dx.number < meta.count(Kind::ProgramIndicator),
        DxKind::Rate(_) => dx.number < meta.count(Kind::DataSet),
    }
}

/// Whether each of these items can be answered.
pub fn can_answer(meta: &Metadata, dx: &[Dx]) -> bool
    ensures { result ≡ list_all (can_answer_dx meta.now) dx.now }
{
    for each in dx {
        if !can_answer_dx(meta, each) {
            return false;
        }
    }
    true
}
