//! What texts name, and the metadata's objects by number.

ghost use Rattle.std.specs.Prelude.{◌≡◌};
ghost use Rattle.dh_metadata.specs.Linked.{IsBelow};
ghost use Rattle.dh_metadata.specs.Objects.{count_of};
ghost use Rattle.value_import.specs.Names as names;
ghost use Rattle.tracker_import.specs.Rules as known;

use dh_base::items::Items;
use dh_base::uid::Uid;
use dh_metadata::kind::Kind;
use dh_metadata::metadata::Metadata;

/// The identifier that a text is.
pub fn id_in(text: &Option<Items<u8>>) -> Option<Uid>
    ensures { result ≡ known.id_in text.now }
{
    match text {
        Some(text) => Uid::parse(text.as_slice()),
        None => None,
    }
}

/// The object of a kind that a text names.
#[tactic(auto, unfolding(value_import::specs::Names::object_named))]
pub fn object_named(meta: &Metadata, kind: Kind, text: &Option<Items<u8>>) -> Option<u32>
    ensures value { result ≡ names.object_named meta.now kind text.now }
    ensures in_range { IsBelow (count_of meta.now kind) result }
{
    match id_in(text) {
        Some(id) => meta.find(kind, id),
        None => None,
    }
}
