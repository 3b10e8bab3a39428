//! Where a session's requests come from and its replies go: two objects, of which nothing is known of the order in which
//! they are read and written, or one object that is both and may tell it.
ghost use Rattle.std.specs.Prelude.{◌≡◌, ◌≤◌, ◌++◌, ℕ, List, Option, None, Err, OnErr};
ghost use Rattle.dh_outside.specs.Faults.{Rose};
ghost use Rattle.dh_outside.specs.Talk.{Talk};
ghost use Rattle.http_wire.specs.Reads.{Reads};
ghost use Rattle.http_wire.specs.declared.fault.WireFault.TheVariants as wire;
ghost use Rattle.request_session.specs.Turn.{Sent};

use crate::send::send_both;
use dh_outside::{Failed, Link, Sink, Source};
use http_wire::{Request, Rest, WireFault, next_request};
use std::alloc::Global;

/// Where requests come from and replies go.
pub(crate) trait Peer {
    /// The bytes left to read, where they are told.
    ghost left: { Self → Option (List ℕ) };

    /// The bytes written, where they are told.
    ghost written: { Self → Option (List ℕ) };

    /// In which order it was read and written, where it is told.
    ghost talk: { Self → Option Talk };

    /// How many reads have failed, and how many writes.
    ghost read_faults: { Self → ℕ };

    ghost write_faults: { Self → ℕ };

    /// Which objects it lends.
    ghost lends: { Self → ℕ × ℕ };

    /// The next request, after the bytes that `rest` holds. Nothing is written.
    fn next(&mut self, alloc: Global, rest: &mut Rest) -> Result<Option<Request>, WireFault>
        ensures reads { Reads (left self.old) (left self.new) (talk self.old) (talk self.new) rest.old rest.new result }
        ensures written { written self.new ≡ written self.old }
        ensures lends { lends self.new ≡ lends self.old }
        ensures failed { result ≡ Err wire.ReadFault → Rose (read_faults self.old) (read_faults self.new) }
        ensures reading { read_faults self.old ≤ read_faults self.new }
        ensures writing { write_faults self.old ≤ write_faults self.new };

    /// Writes two texts, one after the other. Nothing is read.
    fn send(&mut self, first: &[u8], second: &[u8]) -> Result<(), Failed>
        ensures sent { Sent result (written self.old) (written self.new) (talk self.old) (talk self.new) (first.now ++ second.now) }
        ensures left { left self.new ≡ left self.old }
        ensures lends { lends self.new ≡ lends self.old }
        ensures failed { OnErr result (Rose (write_faults self.old) (write_faults self.new)) }
        ensures reading { read_faults self.old ≤ read_faults self.new }
        ensures writing { write_faults self.old ≤ write_faults self.new };
}

/// A source and a sink.
#[derive(Drop)]
pub(crate) struct Apart<'a, 'b, S, O> {
    pub(crate) input: &'a mut S,
    pub(crate) output: &'b mut O,
}

impl<'a, 'b, S: Source, O: Sink> Peer for Apart<'a, 'b, S, O> {
    ghost left = { λ p. S.left p.input.now };

    ghost written = { λ p. O.written p.output.now };

    ghost talk = { λ _. None };

    ghost read_faults = { λ p. S.source_faults p.input.now };

    ghost write_faults = { λ p. O.sink_faults p.output.now };

    ghost lends = { λ p. (p.input.ghost_name, p.output.ghost_name) };

    fn next(&mut self, alloc: Global, rest: &mut Rest) -> Result<Option<Request>, WireFault> {
        next_request(alloc, self.input, rest)
    }

    fn send(&mut self, first: &[u8], second: &[u8]) -> Result<(), Failed> {
        send_both(self.output, first, second)
    }
}

/// One object that is read and written.
#[derive(Drop)]
pub(crate) struct Joint<'a, N> {
    pub(crate) link: &'a mut N,
}

impl<'a, N: Link> Peer for Joint<'a, N> {
    ghost left = { λ p. N.left p.link.now };

    ghost written = { λ p. N.written p.link.now };

    ghost talk = { λ p. N.source_talk p.link.now };

    ghost read_faults = { λ p. N.source_faults p.link.now };

    ghost write_faults = { λ p. N.sink_faults p.link.now };

    ghost lends = { λ p. (p.link.ghost_name, p.link.ghost_name) };

    fn next(&mut self, alloc: Global, rest: &mut Rest) -> Result<Option<Request>, WireFault> {
        next_request(alloc, self.link, rest)
    }

    fn send(&mut self, first: &[u8], second: &[u8]) -> Result<(), Failed> {
        send_both(self.link, first, second)
    }
}
