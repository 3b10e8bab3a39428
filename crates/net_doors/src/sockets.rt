//! The system's sockets as a listener and its links. The system tells none of their bytes and links, so that no clause says what
//! a peer sends or gets. The counts of faults and of accepted links are exact.
ghost use Rattle.std.specs.Prelude.{◌≡◌, ℕ, None, false, ⊤, refl, IfOk};
ghost use Rattle.std.specs.Io.{ReadsAtMost, WritesAtMost};
ghost use Rattle.net_doors.specs.Sockets.{SocketSeen, shown_by};

use crate::{End, Listener};
use dh_outside::{Failed, Link, Sink, Source};
use std::io::{ErrorKind, Read, Write};
use std::marker::Model;
use std::net::{Net, TcpListener, TcpStream};
use std::time::Duration;

// How often a call that a signal interrupted is tried again.
const TRIES: u32 = 1000;

// How many seconds a read or a write waits for the peer, before it counts as failed.
const PATIENCE: u64 = 30;

/// One end of a connection. Contracts see it as its count of failed calls.
#[derive(Drop)]
pub struct TcpEnd {
    stream: Option<TcpStream>,
    faults: u64,
}

impl Model for TcpEnd {
    ghost Value = { ℕ };

    ghost view = { λ end. end.faults };
}

// A stream whose calls wait so long at most. A reply's head and body are two writes: what is written is sent at once, since a body
// that waits until the peer confirms the head costs 40 ms. A stream whose limits can't be set is dropped, and each call on its end fails.
fn patient(stream: TcpStream) -> Option<TcpStream> {
    if stream.set_nodelay(true).is_err() {
        return None;
    }
    let most = Some(Duration::from_secs(PATIENCE));
    if stream.set_read_timeout(most).is_err() {
        return None;
    }
    if stream.set_write_timeout(most).is_err() {
        return None;
    }
    Some(stream)
}

fn read_uninterrupted(stream: &mut Option<TcpStream>, into: &mut [u8]) -> Result<usize, Failed>
    ensures { ReadsAtMost result into.new }
{
    let Some(stream) = stream else {
        return Err(Failed);
    };
    for _ in 0..TRIES {
        match stream.read(into) {
            Ok(count) => return Ok(count),
            Err(error) => {
                if error.kind() != ErrorKind::Interrupted {
                    return Err(Failed);
                }
            }
        }
    }
    Err(Failed)
}

fn write_uninterrupted(stream: &mut Option<TcpStream>, piece: &[u8]) -> Result<usize, Failed>
    ensures { WritesAtMost result piece.now }
{
    let Some(stream) = stream else {
        return Err(Failed);
    };
    for _ in 0..TRIES {
        match stream.write(piece) {
            Ok(count) => return Ok(count),
            Err(error) => {
                if error.kind() != ErrorKind::Interrupted {
                    return Err(Failed);
                }
            }
        }
    }
    Err(Failed)
}

impl Source for TcpEnd {
    ghost left = { λ _. None };

    ghost source_faults = { λ end. end };

    ghost source_talk = { λ _. None };

    fn read(&mut self, into: &mut [u8]) -> Result<usize, Failed> {
        let result = read_uninterrupted(&mut self.stream, into);
        if result.is_err() {
            self.faults = self.faults.saturating_add(1);
        }
        result
    }
}

impl Sink for TcpEnd {
    ghost written = { λ _. None };

    ghost sink_faults = { λ end. end };

    ghost sink_talk = { λ _. None };

    fn write(&mut self, piece: &[u8]) -> Result<usize, Failed> {
        let result = write_uninterrupted(&mut self.stream, piece);
        let is_stuck = match result {
            Ok(count) => count == 0 && !piece.is_empty(),
            Err(_) => true,
        };
        if is_stuck {
            self.faults = self.faults.saturating_add(1);
        }
        result
    }
}

impl Link for TcpEnd {
    ghost one_talk = { λ _. refl };

    ghost one_count = { λ _. refl };

    ghost left_told = { λ _. refl };

    ghost written_told = { λ _. refl };
}

impl End for TcpEnd {
    fn close(&mut self) {
        self.stream = None;
    }
}

/// The system's listener. Contracts see it as how many links it has accepted, whether it is closed, and its count of failed calls.
#[derive(Drop)]
pub struct TcpDoor<R> {
    net: R,
    listener: Option<TcpListener>,
    accepted: u64,
    closed: bool,
    faults: u64,
}

impl<R> Model for TcpDoor<R> {
    ghost Value = { SocketSeen };

    ghost view = { λ d. record { accepted = d.accepted; closed = d.closed; faults = d.faults } };
}

impl<R> TcpDoor<R> {
    /// A listener that doesn't listen yet.
    pub fn new(net: R) -> Self
        ensures { result ≡ record { accepted = 0; closed = false; faults = 0 } }
    {
        TcpDoor {
            net,
            listener: None,
            accepted: 0,
            closed: false,
            faults: 0,
        }
    }

    /// The port at which it listens, if it listens.
    pub fn port(&self) -> Option<u16> {
        let addr = self.listener.as_ref()?.local_addr().ok()?;
        Some(addr.port())
    }
}

// The next connection of a listener. What fails is tried again, since a peer that gives up early makes an accept fail.
fn next_end(listener: &Option<TcpListener>) -> Result<TcpEnd, Failed>
    ensures { IfOk result (λ end. end ≡ 0) }
{
    let Some(listener) = listener else {
        return Err(Failed);
    };
    for _ in 0..TRIES {
        if let Ok((stream, _)) = listener.accept() {
            return Ok(TcpEnd {
                stream: patient(stream),
                faults: 0,
            });
        }
    }
    Err(Failed)
}

impl<R: Net<Stream = TcpStream, Listener = TcpListener> + Drop> Listener<TcpEnd> for TcpDoor<R> {
    ghost shows = { shown_by };

    fn listen(&mut self, addr: &str) -> Result<(), Failed> {
        match TcpListener::bind(&self.net, addr) {
            Ok(listener) => {
                self.listener = Some(listener);
                Ok(())
            }
            Err(_) => {
                self.faults = self.faults.saturating_add(1);
                Err(Failed)
            }
        }
    }

    fn accept(&mut self) -> Result<Option<TcpEnd>, Failed> {
        if self.accepted == u64::MAX {
            self.closed = true;
            return Ok(None);
        }
        match next_end(&self.listener) {
            Ok(end) => {
                self.accepted += 1;
                Ok(Some(end))
            }
            Err(failed) => {
                self.faults = self.faults.saturating_add(1);
                Err(failed)
            }
        }
    }

    fn give_back(&mut self, link: TcpEnd) {
        drop(link);
    }

    ghost returned = { λ _. tt };
}
