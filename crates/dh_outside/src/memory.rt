// A source, a sink and a clock in memory: they tell their bytes, and fail at the calls that are listed.
ghost use Rattle.std.specs.Prelude.{◌≡◌, ◌≤◌, ◌<◌, ◌+◌, ◌-◌, ◌++◌, ℤ, List, [], None, Some, ⊤, length, drop, take, min, IfOk, OnErr, Contains, vec_len};
ghost use Rattle.std.specs.Prelude.{vec_capacity};
ghost use Rattle.std.specs.Result.{is_err};
ghost use Rattle.std.specs.Io.{ReadsAtMost, WritesAtMost};
ghost use Rattle.std.specs.Io.KnownBytes.{ReadConsumes, WriteAppends};
ghost use Rattle.dh_outside.specs.Faults.{Rose, one_more};
ghost use Rattle.dh_outside.specs.Memory.{SourceSeen, SinkSeen, is_listed};

use crate::calls::fails;
use crate::{Clock, Failed, Sink, Source};
use dh_base::memory::Memory;
use std::alloc::Global;
use std::marker::Model;
use std::sync::atomic::{AtomicU64, Ordering};

/// A source over bytes in memory.
#[derive(Drop)]
pub struct MemSource {
    bytes: Vec<u8>,
    at: usize,
    failing: Vec<u64>,
    calls: u64,
    faults: u64,
}

impl Model for MemSource {
    ghost Value = { SourceSeen };

    ghost view = { λ s. record { left = drop s.at s.bytes.items; failing = s.failing.items; calls = s.calls; faults = s.faults } };

    ghost invariant = { λ s. s.at ≤ length s.bytes.items };
}

impl MemSource {
    /// All of `bytes` are left. `failing` lists the calls that fail, counted from 1.
    pub fn with(_alloc: Global, bytes: Vec<u8>, failing: Vec<u64>) -> Result<Self, Memory>
        ensures { IfOk result (λ s. s ≡ record { left = bytes.items; failing = failing.items; calls = 0; faults = 0 }) }
    {
        Ok(MemSource {
            bytes,
            at: 0,
            failing,
            calls: 0,
            faults: 0,
        })
    }
}

// Copies as many bytes as stand from a place on and fit to the front of `into`, and says how many.
pub(crate) fn copy_from(bytes: &[u8], at: usize, into: &mut [u8]) -> usize
    requires { at ≤ length bytes.now }
    ensures count { result ≡ min (length (drop at bytes.now)) (length into.old) }
    ensures moved { drop at bytes.now ≡ take result into.new ++ drop (at + result) bytes.now }
    ensures end { result ≡ 0 → 0 < length into.new → drop (at + result) bytes.now ≡ [] }
{
    let rest = &bytes[at..];
    let count = rest.len().min(into.len());
    into[..count].copy_from_slice(&rest[..count]);
    count
}

impl Source for MemSource {
    ghost left = { λ s. Some s.left };

    ghost source_faults = { λ s. s.faults };

    ghost source_talk = { λ _. None };

    fn read(&mut self, into: &mut [u8]) -> Result<usize, Failed>
        ensures bound { ReadsAtMost result into.new }
        ensures bytes { ReadConsumes (Some self.old.left) (Some self.new.left) result into.new }
        ensures talks { ⊤ }
        ensures keeps { self.old.faults ≤ self.new.faults }
        ensures failed { OnErr result (Rose self.old.faults self.new.faults) }
        ensures exact { is_err result ≡ is_listed self.old.failing self.old.calls }
        ensures calls { self.new.calls ≡ one_more self.old.calls }
        ensures failing { self.new.failing ≡ self.old.failing }
        ensures full { IfOk result (λ n. n ≡ min (length self.old.left) (length into.old)) }
        ensures unharmed { IfOk result (λ _. self.new.faults ≡ self.old.faults) }
    {
        if fails(&self.failing, &mut self.calls, &mut self.faults) {
            return Err(Failed);
        }
        let count = copy_from(&self.bytes, self.at, into);
        self.at += count;
        Ok(count)
    }
}

/// A sink in memory that takes a stated number of bytes in all.
#[derive(Drop)]
pub struct MemSink {
    bytes: Vec<u8>,
    room: u64,
    failing: Vec<u64>,
    calls: u64,
    faults: u64,
}

impl Model for MemSink {
    ghost Value = { SinkSeen };

    ghost view = { λ s. record { room = s.room; written = s.bytes.items; failing = s.failing.items; calls = s.calls; faults = s.faults } };

    ghost invariant = { λ s. (length s.bytes.items ≤ s.room) × (s.room ≤ vec_capacity s.bytes) };
}

impl MemSink {
    /// Nothing is written, and there is room for `room` bytes. `failing` lists the calls that fail, counted from 1.
    pub fn with(alloc: Global, room: u64, failing: Vec<u64>) -> Result<Self, Memory>
        ensures { IfOk result (λ s. s ≡ record { room = room; written = []; failing = failing.items; calls = 0; faults = 0 }) }
    {
        Ok(MemSink {
            bytes: Vec::with_capacity(alloc, room as usize)?,
            room,
            failing,
            calls: 0,
            faults: 0,
        })
    }

    /// The bytes written so far.
    pub fn written(&self) -> &[u8]
        ensures { result.now ≡ self.now.written }
    {
        &self.bytes
    }
}

impl Sink for MemSink {
    ghost written = { λ s. Some s.written };

    ghost sink_faults = { λ s. s.faults };

    ghost sink_talk = { λ _. None };

    fn write(&mut self, piece: &[u8]) -> Result<usize, Failed>
        ensures bound { WritesAtMost result piece.now }
        ensures bytes { WriteAppends (Some self.old.written) (Some self.new.written) result piece.now }
        ensures talks { ⊤ }
        ensures keeps { self.old.faults ≤ self.new.faults }
        ensures failed { OnErr result (Rose self.old.faults self.new.faults) }
        ensures stuck { IfOk result (λ n. n ≡ 0 → 0 < length piece.now → Rose self.old.faults self.new.faults) }
        ensures exact { is_err result ≡ is_listed self.old.failing self.old.calls }
        ensures calls { self.new.calls ≡ one_more self.old.calls }
        ensures failing { self.new.failing ≡ self.old.failing }
        ensures room { self.new.room ≡ self.old.room }
        ensures full { IfOk result (λ n. n ≡ min (self.old.room - length self.old.written) (length piece.now)) }
    {
        if fails(&self.failing, &mut self.calls, &mut self.faults) {
            return Err(Failed);
        }
        let count = (self.room as usize - self.bytes.len()).min(piece.len());
        if count == 0 && !piece.is_empty() {
            self.faults = self.faults.saturating_add(1);
        }
        self.bytes.extend_from_slice(&piece[..count]).unwrap();
        Ok(count)
    }
}

/// A clock in memory: it shows the moments of its list in turn, and then the last one again and again.
#[derive(Drop)]
pub struct MemClock {
    moments: Vec<i64>,
    calls: AtomicU64,
}

impl Model for MemClock {
    ghost Value = { List ℤ };

    ghost view = { λ c. c.moments.items };

    ghost invariant = { λ c. 0 < length c.moments.items };
}

impl MemClock {
    /// A clock that shows these moments, in seconds from 1970-01-01 in UTC.
    pub fn with(_alloc: Global, moments: Vec<i64>) -> Result<Self, Memory>
        requires { 0 < vec_len moments }
        ensures { IfOk result (λ c. c ≡ moments.items) }
    {
        Ok(MemClock {
            moments,
            calls: AtomicU64::new(0),
        })
    }
}

impl Clock for MemClock {
    ghost shows = { λ c moment. Contains c moment };

    fn now(&self) -> i64 {
        let call = self.calls.fetch_add(1, Ordering::SeqCst) as usize;
        let last = self.moments.len() - 1;
        self.moments[call.min(last)]
    }
}
