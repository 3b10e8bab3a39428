//! Bodies of replies to updates of the tables.
ghost use Rattle.std.specs.Prelude.{◌≡◌, ◌≤◌, ◌+◌, ◌++◌, length, take, decimal};
ghost use Rattle.request_session.specs.Bodies.{before_published, after_published, update_pieces, update_text};

use crate::buffer::{put, put_number};
use dh_base::plain::CutKind;
use std::marker::Model;

// More than the longest body has.
const ROOM: usize = 128;

/// The body of a reply to an update of the tables, as its bytes.
#[derive(Drop)]
pub struct UpdateBody {
    bytes: [u8; 128],
    len: usize,
}

impl Model for UpdateBody {
    ghost use Rattle.std.specs.Prelude.{List, ℕ, take, ◌≤◌};

    ghost Value = { List ℕ };

    ghost view = { λ body. take body.len body.bytes };

    ghost invariant = { λ body. body.len ≤ 128 };
}

impl UpdateBody {
    /// The bytes of the body.
    pub fn bytes(&self) -> &[u8]
        ensures { result.now ≡ self.now }
    {
        &self.bytes[..self.len]
    }
}

fn before_published(kind: CutKind) -> &'static [u8]
    ensures value { result.now ≡ before_published kind }
    ensures short { length result.now ≤ 90 }
{
    match kind {
        CutKind::Full => {
            br#"{"httpStatus":"OK","httpStatusCode":200,"response":{"kind":"FULL","published":"#
        }
        CutKind::Latest => {
            br#"{"httpStatus":"OK","httpStatusCode":200,"response":{"kind":"LATEST","published":"#
        }
    }
}

// Writes the body's pieces, and says how many bytes they have.
#[tactic(auto, unfolding(crate::specs::Bodies::update_pieces))]
fn put_update(buffer: &mut [u8], kind: CutKind, published: u64) -> usize
    requires room { 128 ≤ length buffer.old }
    ensures written { take result buffer.new ≡ update_pieces kind published }
    ensures count { result ≤ 128 }
    ensures room { length buffer.new ≡ length buffer.old }
{
    let len = put(buffer, 0, before_published(kind));
    let len = put_number(buffer, len, published);
    put(buffer, len, br#"},"status":"OK"}"#)
}

/// The body of a reply to an update of the tables that was made: what was built, and how many changes the tables
/// stand for. This takes no memory.
#[tactic(auto, using(crate::proofs::BodyLemmas::update_by_pieces))]
pub fn update_body(kind: CutKind, published: u64) -> UpdateBody
    ensures { result ≡ update_text kind published }
{
    let mut bytes = [0; ROOM];
    let len = put_update(&mut bytes, kind, published);
    UpdateBody { bytes, len }
}
