//! Who asks.
ghost use Rattle.std.specs.Prelude.{◌≡◌};
ghost use Rattle.value_import.specs.Outcomes.{IsKnown};
ghost use Rattle.engine.specs.Requests.{maker_of};

use dh_base::uid::Uid;
use dh_changes::outcome::Who;
use dh_metadata::metadata::Metadata;

/// The identifier of the user who asks, and none for the loader.
pub fn maker_of(meta: &Metadata, who: Who) -> Option<Uid>
    requires { IsKnown meta.now who }
    ensures { result ≡ maker_of meta.now who }
{
    match who {
        Who::User(number) => Some(meta.user(number).id),
        Who::Loader => None,
    }
}
