//! Paths of requests.
ghost use Rattle.std.specs.Prelude.{◌≡◌};
ghost use Rattle.std.specs.Char.{is_ascii_digit};
ghost use Rattle.std.specs.List.{list_all};
ghost use Rattle.std.specs.Option.{option_copied};
ghost use Rattle.web_routes.specs.Paths.{has_version, without_version, rest_of, is_front_and_id};

pub(crate) fn all_digits(text: &[u8]) -> bool
    ensures { result ≡ list_all is_ascii_digit text.now }
{
    for byte in text {
        if !byte.is_ascii_digit() {
            return false;
        }
    }
    true
}

/// Whether so many digits stand at the front, and a slash after them.
#[tactic(auto, unfolding(crate::specs::Paths::has_version))]
fn has_version(text: &[u8], digits: usize) -> bool
    ensures { result ≡ has_version digits text.now }
{
    if digits < text.len() && text[digits] == b'/' {
        return all_digits(&text[..digits]);
    }
    false
}

#[tactic(auto, unfolding(crate::specs::Paths::without_version, crate::specs::Paths::has_version))]
fn without_version(text: &[u8]) -> &[u8]
    ensures { result.now ≡ without_version text.now }
{
    if has_version(text, 1) {
        return &text[2..];
    }
    if has_version(text, 2) {
        return &text[3..];
    }
    if has_version(text, 3) {
        return &text[4..];
    }
    text
}

/// What stands after `/api/` and a version of one to three digits; `None` where the path begins otherwise.
#[tactic(auto, unfolding(crate::specs::Paths::rest_of))]
pub fn rest_of(path: &[u8]) -> Option<&[u8]>
    ensures { option_copied result ≡ rest_of path.now }
{
    if path.len() >= 5 && &path[..5] == b"/api/".as_slice() {
        return Some(without_version(&path[5..]));
    }
    None
}

/// Whether the text is the front with an identifier after it: one or more bytes without a slash.
#[tactic(auto, unfolding(crate::specs::Paths::is_front_and_id, crate::specs::Paths::is_id))]
pub(crate) fn is_front_and_id(text: &[u8], front: &[u8]) -> bool
    ensures { result ≡ is_front_and_id front.now text.now }
{
    if front.len() <= text.len() && &text[..front.len()] == front {
        let id = &text[front.len()..];
        return !id.is_empty() && !id.contains(&b'/');
    }
    false
}
