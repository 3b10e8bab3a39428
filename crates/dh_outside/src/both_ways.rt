// A link in memory: what is read of it and written to it, and in which order.
ghost use Rattle.std.specs.Prelude.{◌≡◌, ◌≤◌, ◌<◌, ◌∷◌, ◌++◌, true, [], Some, length, drop, refl, IfOk, OnOk, OnErr};
ghost use Rattle.std.specs.Result.{is_err};
ghost use Rattle.std.specs.Io.{ReadsAtMost, WritesAtMost};
ghost use Rattle.std.specs.Io.KnownBytes.{ReadConsumes, WriteAppends};
ghost use Rattle.dh_outside.specs.Faults.{Rose, one_more};
ghost use Rattle.dh_outside.specs.Memory.{LinkSeen, heard_of, is_listed};
ghost use Rattle.dh_outside.specs.Talk.{Hears, Says, heard_one, moved};

use crate::calls::fails;
use crate::memory::copy_from;
use crate::{Failed, Link, Sink, Source};
use dh_base::memory::Memory;
use std::alloc::Global;
use std::marker::Model;

/// A link in memory. It notes of each read that gave bytes what stood written before it. A call that finds no memory
/// fails.
#[derive(Drop)]
pub struct MemLink {
    alloc: Global,
    bytes: Vec<u8>,
    at: usize,
    written: Vec<u8>,
    heard: Vec<(Vec<u8>, Vec<u8>)>,
    failing: Vec<u64>,
    calls: u64,
    faults: u64,
}

impl Model for MemLink {
    ghost Value = { LinkSeen };

    ghost view = { λ s. record {
      talk = record { left = drop s.at s.bytes.items; heard = heard_of s.heard.items; written = s.written.items };
      failing = s.failing.items;
      calls = s.calls;
      faults = s.faults;
    } };

    ghost invariant = { λ s. s.at ≤ length s.bytes.items };
}

impl MemLink {
    /// All of `bytes` are left to read. `failing` lists the calls that fail, counted from 1.
    pub fn with(alloc: Global, bytes: Vec<u8>, failing: Vec<u64>) -> Self
        ensures { result ≡ record { talk = record { left = bytes.items; heard = []; written = [] }; failing = failing.items; calls = 0; faults = 0 } }
    {
        MemLink {
            alloc,
            bytes,
            at: 0,
            written: Vec::new(alloc),
            heard: Vec::new(alloc),
            failing,
            calls: 0,
            faults: 0,
        }
    }

    /// The bytes written so far.
    pub fn written(&self) -> &[u8]
        ensures { result.now ≡ self.now.talk.written }
    {
        &self.written
    }

    /// The reads that gave bytes: what stood written before each, and what it gave.
    pub fn heard(&self) -> &[(Vec<u8>, Vec<u8>)]
        ensures { heard_of result.now ≡ self.now.talk.heard }
    {
        &self.heard
    }
}

// Notes a read, if it gave bytes.
fn note(
    alloc: Global,
    heard: &mut Vec<(Vec<u8>, Vec<u8>)>,
    written: &[u8],
    piece: &[u8],
) -> Result<(), Memory>
    ensures noted { OnOk result (heard_of heard.new.items ≡ heard_of heard.old.items ++ heard_one written.now piece.now) }
    ensures same { OnErr result (heard.new.items ≡ heard.old.items) }
{
    if piece.is_empty() {
        return Ok(());
    }
    let before = written.to_vec(alloc)?;
    let piece = piece.to_vec(alloc)?;
    heard.push((before, piece))?;
    Ok(())
}

impl Source for MemLink {
    ghost left = { λ s. Some s.talk.left };

    ghost source_faults = { λ s. s.faults };

    ghost source_talk = { λ s. Some s.talk };

    fn read(&mut self, into: &mut [u8]) -> Result<usize, Failed>
        ensures bound { ReadsAtMost result into.new }
        ensures bytes { ReadConsumes (Some self.old.talk.left) (Some self.new.talk.left) result into.new }
        ensures talks { Hears (Some self.old.talk) (Some self.new.talk) (moved result into.new ∷ []) }
        ensures keeps { self.old.faults ≤ self.new.faults }
        ensures failed { OnErr result (Rose self.old.faults self.new.faults) }
        ensures listed { is_listed self.old.failing self.old.calls ≡ true → is_err result ≡ true }
        ensures calls { self.new.calls ≡ one_more self.old.calls }
        ensures failing { self.new.failing ≡ self.old.failing }
    {
        if fails(&self.failing, &mut self.calls, &mut self.faults) {
            return Err(Failed);
        }
        let count = copy_from(&self.bytes, self.at, into);
        if note(self.alloc, &mut self.heard, &self.written, &into[..count]).is_err() {
            self.faults = self.faults.saturating_add(1);
            return Err(Failed);
        }
        self.at += count;
        Ok(count)
    }
}

impl Sink for MemLink {
    ghost written = { λ s. Some s.talk.written };

    ghost sink_faults = { λ s. s.faults };

    ghost sink_talk = { λ s. Some s.talk };

    fn write(&mut self, piece: &[u8]) -> Result<usize, Failed>
        ensures bound { WritesAtMost result piece.now }
        ensures bytes { WriteAppends (Some self.old.talk.written) (Some self.new.talk.written) result piece.now }
        ensures talks { Says (Some self.old.talk) (Some self.new.talk) (moved result piece.now) }
        ensures keeps { self.old.faults ≤ self.new.faults }
        ensures failed { OnErr result (Rose self.old.faults self.new.faults) }
        ensures stuck { IfOk result (λ n. n ≡ length piece.now) }
        ensures listed { is_listed self.old.failing self.old.calls ≡ true → is_err result ≡ true }
        ensures calls { self.new.calls ≡ one_more self.old.calls }
        ensures failing { self.new.failing ≡ self.old.failing }
    {
        if fails(&self.failing, &mut self.calls, &mut self.faults) {
            return Err(Failed);
        }
        let count = piece.len();
        if self.written.extend_from_slice(&piece[..count]).is_err() {
            self.faults = self.faults.saturating_add(1);
            return Err(Failed);
        }
        Ok(count)
    }
}

impl Link for MemLink {
    ghost one_talk = { λ link. refl };

    ghost one_count = { λ link. refl };

    ghost left_told = { λ link. refl };

    ghost written_told = { λ link. refl };
}
