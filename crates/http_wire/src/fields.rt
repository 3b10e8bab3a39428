ghost use Rattle.std.specs.Prelude.{◌≡◌, ◌≤◌, true, length, map, filter, option_map, position, nat_eq};
ghost use Rattle.std.specs.List.{list_all, list_any};
ghost use Rattle.std.specs.Char.{is_ascii_digit};
ghost use Rattle.std.specs.Str.{str_eq_ignore_ascii_case};
ghost use Rattle.httparse.specs.Borrowed.{header_parts};
ghost use Rattle.http_wire.specs.Fields.{is_named, count_named, last_named, is_length, is_json, before, beyond, is_kept, is_no_space, path_of, query_of};
ghost use Rattle.http_wire.specs.Fields.{token_in, token_of, is_marked};

use httparse::Header;

// Whether the name of a field is this one, in any case.
fn is_named(header: &Header, name: &[u8]) -> bool
    ensures { result ≡ is_named name.now (header_parts header.now) }
{
    header.name.as_bytes().eq_ignore_ascii_case(name)
}

/// How many fields have a name, which is the same in any case.
pub fn count_named(headers: &[Header], name: &[u8]) -> usize
    ensures { result ≡ count_named name.now (map header_parts headers.now) }
{
    let mut count = 0;
    for header in headers {
        if is_named(header, name) {
            count += 1;
        }
    }
    count
}

/// The value of the last field of a name.
pub fn last_named<'a>(headers: &[Header<'a>], name: &[u8]) -> Option<&'a [u8]>
    ensures { option_map (λ value. value.now) result ≡ last_named name.now (map header_parts headers.now) }
{
    let mut found = None;
    for header in headers {
        if is_named(header, name) {
            found = Some(header.value);
        }
    }
    found
}

// The place of a byte in a text.
fn place_of(text: &[u8], mark: u8) -> Option<usize>
    ensures { result ≡ position (λ byte. nat_eq byte mark) text.now }
{
    text.iter().position(|byte| *byte == mark)
}

fn before(text: &[u8], mark: u8) -> &[u8]
    ensures { result.now ≡ before (position (λ byte. nat_eq byte mark) text.now) text.now }
{
    match place_of(text, mark) {
        Some(place) => &text[..place],
        None => text,
    }
}

fn beyond(text: &[u8], mark: u8) -> &[u8]
    ensures { result.now ≡ beyond (position (λ byte. nat_eq byte mark) text.now) text.now }
{
    match place_of(text, mark) {
        Some(place) => &text[place + 1..],
        None => &[],
    }
}

/// The path of a target.
#[tactic(auto, unfolding(crate::specs::Fields::path_of))]
pub fn path(target: &[u8]) -> &[u8]
    ensures { result.now ≡ path_of target.now }
{
    before(target, b'?')
}

/// The query of a target, after the first question mark.
#[tactic(auto, unfolding(crate::specs::Fields::query_of))]
pub fn query(target: &[u8]) -> &[u8]
    ensures { result.now ≡ query_of target.now }
{
    beyond(target, b'?')
}

// 1 to 18 digits.
#[tactic(auto, unfolding(crate::specs::Fields::is_length))]
pub(crate) fn is_length(value: &[u8]) -> bool
    ensures value { result ≡ is_length value.now }
    ensures digits { result ≡ true → list_all is_ascii_digit value.now ≡ true }
    ensures short { result ≡ true → length value.now ≤ 18 }
{
    if value.is_empty() || value.len() > 18 {
        return false;
    }
    for byte in value {
        if !byte.is_ascii_digit() {
            return false;
        }
    }
    true
}

// Whether a text without its spaces is another one, but for the case of its letters.
fn is_spaced(text: &[u8], other: &[u8]) -> bool
    ensures { result ≡ str_eq_ignore_ascii_case (filter is_no_space text.now) other.now }
{
    let mut want = other;
    for byte in text {
        if *byte != b' ' {
            let [first, rest @ ..] = want else {
                return false;
            };
            if !byte.eq_ignore_ascii_case(first) {
                return false;
            }
            want = rest;
        }
    }
    want.is_empty()
}

#[tactic(auto, unfolding(crate::specs::Fields::is_json))]
fn is_json(value: &[u8]) -> bool
    ensures { result ≡ is_json value.now }
{
    is_spaced(before(value, b';'), b"application/json")
}

// The text after `ApiToken `.
#[tactic(auto, unfolding(crate::specs::Fields::token_in))]
fn token_in(value: &[u8]) -> Option<&[u8]>
    ensures { option_map (λ token. token.now) result ≡ token_in value.now }
{
    if value.len() >= 9 && value[..9].eq_ignore_ascii_case(b"ApiToken ") {
        Some(&value[9..])
    } else {
        None
    }
}

/// The token of the one field that gives it.
#[tactic(auto, unfolding(crate::specs::Fields::token_of))]
pub fn token<'a>(headers: &[Header<'a>]) -> Option<&'a [u8]>
    ensures { option_map (λ token. token.now) result ≡ token_of (map header_parts headers.now) }
{
    if count_named(headers, b"authorization") != 1 {
        return None;
    }
    token_in(last_named(headers, b"authorization")?)
}

/// What a field may say of the body or of the connection.
#[derive(Clone, Copy, Drop)]
pub(crate) enum Mark {
    /// The length of the body.
    Length,
    /// The same, and badly.
    BadLength,
    /// A transfer coding.
    Transfer,
    /// Another transfer coding than `chunked`.
    OtherTransfer,
    /// That the body is encoded.
    Coding,
    /// Another media type than JSON.
    OtherMedia,
    /// That the connection is to end.
    Close,
}

// Whether a field says so.
#[tactic(auto, unfolding(crate::specs::Fields::gives_length, crate::specs::Fields::gives_bad_length, crate::specs::Fields::names_transfer, crate::specs::Fields::names_other_transfer, crate::specs::Fields::names_coding, crate::specs::Fields::names_other_media, crate::specs::Fields::asks_to_close))]
fn is_marked(header: &Header, mark: Mark) -> bool
    ensures { result ≡ is_marked mark (header_parts header.now) }
{
    match mark {
        Mark::Length => is_named(header, b"content-length"),
        Mark::BadLength => is_named(header, b"content-length") && !is_length(header.value),
        Mark::Transfer => is_named(header, b"transfer-encoding"),
        Mark::OtherTransfer => {
            is_named(header, b"transfer-encoding") && !header.value.eq_ignore_ascii_case(b"chunked")
        }
        Mark::Coding => {
            is_named(header, b"content-encoding") && header.value != b"identity".as_slice()
        }
        Mark::OtherMedia => is_named(header, b"content-type") && !is_json(header.value),
        Mark::Close => {
            is_named(header, b"connection") && header.value.eq_ignore_ascii_case(b"close")
        }
    }
}

/// Whether a field says so.
pub(crate) fn has(headers: &[Header], mark: Mark) -> bool
    ensures { result ≡ list_any (is_marked mark) (map header_parts headers.now) }
{
    for header in headers {
        if is_marked(header, mark) {
            return true;
        }
    }
    false
}

/// Whether the connection is kept after the reply to a request of HTTP/1.`minor`.
#[tactic(auto, unfolding(crate::specs::Fields::is_kept))]
pub fn is_kept(minor: u8, headers: &[Header]) -> bool
    ensures { result ≡ is_kept minor (map header_parts headers.now) }
{
    minor == 1 && !has(headers, Mark::Close)
}
