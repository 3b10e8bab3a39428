//! Objects by their identifiers.

ghost use Rattle.std.specs.Prelude.{◌≡◌, ◌<◌, IfSome};
ghost use Rattle.dh_metadata.specs.Objects.{count_of};
ghost use Rattle.offline_replies.specs.Named.{named};

use dh_base::uid::Uid;
use dh_metadata::kind::Kind;
use dh_metadata::metadata::Metadata;

/// The object of a kind with an identifier.
pub(crate) fn named(meta: &Metadata, kind: Kind, text: &[u8]) -> Option<u32>
    ensures value { result ≡ named meta.now kind text.now }
    ensures in_range { IfSome result (λ n. n < count_of meta.now kind) }
{
    match Uid::parse(text) {
        Some(id) => meta.find(kind, id),
        None => None,
    }
}
