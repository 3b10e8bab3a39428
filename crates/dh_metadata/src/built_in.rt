//! The default category combination and its one option combination, which are in every metadata file.

ghost use Rattle.std.specs.Prelude.{◌≡◌};
ghost use Rattle.dh_metadata.specs.BuiltIn.{default_combo, default_option_combo, is_built_in};

use dh_base::uid::Uid;

/// The identifier of the default category combination.
#[tactic(auto, unfolding(crate::specs::BuiltIn::default_combo))]
pub fn default_combo() -> Uid
    ensures { result ≡ default_combo }
{
    match Uid::parse(b"bjDvmb4bfuf") {
        Some(id) => id,
        None => unreachable!(),
    }
}

/// The identifier of the one option combination of the default category combination.
#[tactic(auto, unfolding(crate::specs::BuiltIn::default_option_combo))]
pub fn default_option_combo() -> Uid
    ensures { result ≡ default_option_combo }
{
    match Uid::parse(b"HllvX50cXC0") {
        Some(id) => id,
        None => unreachable!(),
    }
}

/// Whether the identifier is that of a built-in object. Objects of a file with such a one are passed
/// over.
#[tactic(auto, unfolding(crate::specs::BuiltIn::is_built_in))]
pub fn is_built_in(id: Uid) -> bool
    ensures { result ≡ is_built_in id }
{
    id == default_combo() || id == default_option_combo()
}
