ghost use Rattle.std.specs.Prelude.{◌≡◌, ◌≤◌, ◌<◌, ◌+◌, length, drop, take, cond, nat_eq, slice_index};
ghost use Rattle.std.specs.List.{count_by};
ghost use Rattle.http_wire.specs.Lines.{empty_line, blank_length, head_length, head_limit, opening_of, field_lines, shifted, IsPassed};

/// What stands at the front of bytes that begin with no empty line.
#[derive(Clone, Copy, Drop)]
pub enum Opening {
    /// There are no bytes.
    Nothing,
    /// A head that may still end in time.
    Unfinished,
    /// The first 16,384 bytes hold no head.
    TooLong,
    /// A head of so many bytes.
    Whole(usize),
}

// How many bytes the empty line at the front has, 0 where there is none.
fn empty_line(bytes: &[u8]) -> usize
    ensures value { result ≡ empty_line bytes.now }
    ensures within { result ≤ length bytes.now }
{
    match bytes {
        [b'\n', ..] => 1,
        [b'\r', b'\n', ..] => 2,
        _ => 0,
    }
}

// The bytes from a place on.
fn rest(bytes: &[u8], at: usize) -> &[u8]
    requires { at ≤ length bytes.now }
    ensures value { result.now ≡ drop at bytes.now }
    ensures len { at + length result.now ≡ length bytes.now }
{
    &bytes[at..]
}

/// How many bytes the empty lines at the front have.
pub fn blank_length(bytes: &[u8]) -> usize
    ensures value { result ≡ blank_length bytes.now }
    ensures within { result ≤ length bytes.now }
{
    let mut at = 0;
    loop {
        let line = empty_line(rest(bytes, at));
        if line == 0 {
            return at;
        }
        at += line;
    }
}

// How many bytes the empty line has that follows a line feed at this place, 0 where there is none.
fn line_behind(bytes: &[u8], at: usize) -> usize
    requires { at < length bytes.now }
    ensures value { result ≡ cond (nat_eq (slice_index bytes.now at) 10) (empty_line (drop (at + 1) bytes.now)) 0 }
    ensures within { at + 1 + result ≤ length bytes.now }
{
    if bytes[at] == b'\n' {
        empty_line(rest(bytes, at + 1))
    } else {
        0
    }
}

// How many bytes the head at the front has. It is known to end after no earlier line than one that begins at `from`.
fn head_length(bytes: &[u8], from: usize) -> Option<usize>
    requires { head_length bytes.now ≡ shifted from (head_length (drop from bytes.now)) }
    ensures { result ≡ head_length bytes.now }
{
    let mut at = from;
    while at < bytes.len() {
        let line = line_behind(bytes, at);
        if line > 0 {
            return Some(at + (1 + line));
        }
        at += 1;
    }
    None
}

#[tactic(auto, unfolding(crate::specs::Lines::head_limit))]
fn head_limit() -> usize
    ensures { result ≡ head_limit }
{
    16384
}

/// What stands at the front of bytes that begin with no empty line. The bytes before `from` were looked at before.
#[tactic(auto, unfolding(crate::specs::Lines::IsPassed))]
pub fn find_opening(bytes: &[u8], from: usize) -> Opening
    requires { IsPassed bytes.now from }
    ensures { result ≡ opening_of bytes.now }
{
    let count = bytes.len().min(head_limit());
    match head_length(&bytes[..count], from) {
        Some(end) => Opening::Whole(end),
        None => {
            if bytes.len() >= head_limit() {
                Opening::TooLong
            } else if bytes.is_empty() {
                Opening::Nothing
            } else {
                Opening::Unfinished
            }
        }
    }
}

/// How many lines stand between the first line of a head and the empty one.
pub fn field_lines(head: &[u8]) -> usize
    ensures { result ≡ field_lines head.now }
{
    let mut feeds = 0usize;
    for byte in head {
        if *byte == b'\n' {
            feeds += 1;
        }
    }
    feeds.saturating_sub(2)
}
