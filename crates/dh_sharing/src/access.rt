ghost use Rattle.std.specs.Prelude.{◌≡◌};
ghost use Rattle.dh_sharing.specs.Access.{is_letter_or_dash, is_access, access_of, has};

/// What a user may do with a metadata object.
#[derive(Clone, Copy, PartialEq, Eq)]
pub enum Right {
    Read,
    Write,
    DataRead,
    DataWrite,
}

/// The rights that an entry of a sharing object gives.
#[derive(Clone, Copy, PartialEq, Eq)]
pub struct Access {
    pub read: bool,
    pub write: bool,
    pub data_read: bool,
    pub data_write: bool,
}

impl Access {
    /// The access that a text such as `rwrw----` gives, or `None` where it is no access string.
    pub fn parse(text: &[u8]) -> Option<Access>
        ensures { result ≡ access_of text.now }
    {
        if !is_access_text(text) {
            return None;
        }
        Some(Access {
            read: text[0] == b'r',
            write: text[1] == b'w',
            data_read: text[2] == b'r',
            data_write: text[3] == b'w',
        })
    }

    /// Whether it has the right.
    pub fn has(self, right: Right) -> bool
        ensures { result ≡ has self right }
    {
        match right {
            Right::Read => self.read,
            Right::Write => self.write,
            Right::DataRead => self.data_read,
            Right::DataWrite => self.data_write,
        }
    }
}

fn is_access_text(text: &[u8]) -> bool
    ensures { result ≡ is_access text.now }
{
    text.len() == 8
        && is_flag(b'r', text[0])
        && is_flag(b'w', text[1])
        && is_flag(b'r', text[2])
        && is_flag(b'w', text[3])
        && text[4] == b'-'
        && text[5] == b'-'
        && text[6] == b'-'
        && text[7] == b'-'
}

fn is_flag(letter: u8, byte: u8) -> bool
    ensures { result ≡ is_letter_or_dash letter byte }
{
    byte == letter || byte == b'-'
}
