//! Heads of replies.
ghost use Rattle.std.specs.Prelude.{◌≡◌, ◌≤◌, ◌+◌, ◌++◌, Option, true, length, take, decimal};
ghost use Rattle.request_session.specs.Bodies.{phrase_of};
ghost use Rattle.request_session.specs.Heads.{is_reply_status, number_line, closing, front_of, after_front, head_of};

use crate::buffer::{put, put_number};
use crate::head_bytes::Head;
use crate::phrase::phrase;

// More than the longest head has.
const ROOM: usize = 256;

// Writes a line with a number, where there is one. The name has at most 13 bytes.
fn put_line(buffer: &mut [u8], len: usize, name: &[u8], number: Option<u64>) -> usize
    requires short { length name.now ≤ 13 }
    requires room { len + 35 ≤ length buffer.old }
    ensures written { take result buffer.new ≡ take len buffer.old ++ number_line name.now number }
    ensures count { result ≤ len + 35 }
    ensures room { length buffer.new ≡ length buffer.old }
{
    let Some(number) = number else {
        return len;
    };
    let len = put(buffer, len, name);
    let len = put_number(buffer, len, number);
    put(buffer, len, b"\r\n")
}

// The phrase of a reply's status has at most 31 bytes.
#[tactic(auto, using(crate::proofs::HeadLemmas::valid_status))]
fn short_phrase(status: u16) -> &'static str
    requires { is_reply_status status ≡ true }
    ensures value { result.now ≡ phrase_of status }
    ensures short { length result.now ≤ 31 }
{
    phrase(status)
}

// Writes the lines that every head has.
#[tactic(auto, unfolding(crate::specs::Heads::front_of))]
fn put_front(buffer: &mut [u8], status: u16, count: u64) -> usize
    requires status { is_reply_status status ≡ true }
    requires room { 150 ≤ length buffer.old }
    ensures written { take result buffer.new ≡ front_of status count }
    ensures count { result ≤ 150 }
    ensures room { length buffer.new ≡ length buffer.old }
{
    let len = put(buffer, 0, b"HTTP/1.1 ");
    let len = put_number(buffer, len, u64::from(status));
    let len = put(buffer, len, b" ");
    let len = put(buffer, len, short_phrase(status).as_bytes());
    let len = put(
        buffer,
        len,
        b"\r\nContent-Type: application/json;charset=UTF-8\r\nContent-Length: ",
    );
    let len = put_number(buffer, len, count);
    put(buffer, len, b"\r\n")
}

fn closing(keep: bool) -> &'static [u8]
    ensures value { result.now ≡ closing keep }
    ensures short { length result.now ≤ 26 }
{
    if keep {
        b"Connection: keep-alive\r\n\r\n"
    } else {
        b"Connection: close\r\n\r\n"
    }
}

// Writes the lines after those that are there.
fn put_more(
    buffer: &mut [u8],
    len: usize,
    published: Option<u64>,
    change: Option<u64>,
    keep: bool,
) -> usize
    requires { len + 96 ≤ length buffer.old }
    ensures written { take result buffer.new ≡ after_front (take len buffer.old) published change keep }
    ensures count { result ≤ len + 96 }
    ensures room { length buffer.new ≡ length buffer.old }
{
    let len = put_line(buffer, len, b"X-Published: ", published);
    let len = put_line(buffer, len, b"X-Change: ", change);
    put(buffer, len, closing(keep))
}

/// The head of a reply whose body has `length` bytes: `published` after a look at tables and after an update,
/// `change` after a change that was accepted, `keep` where the connection goes on. This takes no memory.
pub fn head(
    status: u16,
    length: u64,
    published: Option<u64>,
    change: Option<u64>,
    keep: bool,
) -> Head
    requires { is_reply_status status ≡ true }
    ensures { result ≡ head_of status length published change keep }
{
    let mut bytes = [0; ROOM];
    let front = put_front(&mut bytes, status, length);
    let len = put_more(&mut bytes, front, published, change, keep);
    Head::of(bytes, len)
}
