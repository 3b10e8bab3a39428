ghost use Rattle.std.specs.Prelude.{◌≡◌, IsTrue};
ghost use Rattle.dh_base.specs.Uid.{uid_of, is_uid};

use std::hash::{Hash, Hasher};
use std::marker::Model;

/// An identifier as DHIS2 makes them: 11 ASCII letters and digits, a letter first.
///
/// Identifiers are ordered by their bytes.
#[derive(Clone, Copy, PartialEq, Eq, PartialOrd, Ord)]
pub struct Uid {
    text: [u8; 11],
}

impl Model for Uid {
    ghost use Rattle.std.specs.Prelude.{◌≡◌, List, ℕ, true};
    ghost use Rattle.dh_base.specs.Uid.{is_uid};

    ghost Value = { List ℕ };

    ghost view = { λ uid. uid.text };

    ghost invariant = { λ uid. is_uid uid.text ≡ true };

    ghost inverse = { λ bytes. record { text = bytes } };
}

// One text for a hasher, where a derived hash would feed the bytes one by one.
impl Hash for Uid {
    ghost use Rattle.dh_base.specs.Uid.{uid_fed, same_uids};

    ghost hash_input = { uid_fed };

    ghost respects_eq = { same_uids.fed };

    fn hash<H: Hasher>(&self, state: &mut H) {
        state.write(&self.text);
    }
}

impl Uid {
    /// The identifier that this text is, or `None` where it is none. A text of another length is
    /// refused by its length alone.
    pub fn parse(text: &[u8]) -> Option<Uid>
        ensures { result ≡ uid_of text.now }
    {
        let text: [u8; 11] = text.try_into().ok()?;
        if is_valid(&text) {
            Some(Uid { text })
        } else {
            None
        }
    }

    /// The text of the identifier.
    pub fn bytes(self) -> [u8; 11]
        ensures text { result ≡ self }
        ensures valid { IsTrue (is_uid self) }
    {
        self.text
    }
}

fn is_valid(text: &[u8]) -> bool
    ensures { result ≡ is_uid text.now }
{
    if text.len() != 11 || !text[0].is_ascii_alphabetic() {
        return false;
    }
    for byte in text {
        if !byte.is_ascii_alphanumeric() {
            return false;
        }
    }
    true
}
