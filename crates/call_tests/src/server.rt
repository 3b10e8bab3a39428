//! A server over two links: while the update of the one is being built, the other one's import, latest update and query are answered.
ghost use Rattle.std.specs.Prelude.{◌≡◌, ℕ, None, refl, IfOk};
ghost use Rattle.net_doors.specs.Sockets.{SocketSeen, shown_by};

use dh_base::memory::Memory;
use dh_outside::{Failed, Link, MemClock, MemLink, MemSink, Sink, Source};
use net_doors::{End, Listener};
use shared_engine::Gate;
use shared_server::{Finished, ServeEnd, Setup, serve_over};
use std::alloc::Global;
use std::marker::Model;
use std::sync::Wait;
use std::sync::atomic::{AtomicU64, Ordering};
use std::thread;
use std::thread::Threads;

// How many turns a builder or a link waits for the other at most.
const TURNS: u64 = 10_000_000;

const FILE: &[u8] =
    b"{\"apiTokens\":[{\"token\":\"tok-country\",\"user\":{\"id\":\"UsCountry01\"}}],\
\"dataElements\":[{\"aggregationType\":\"SUM\",\"id\":\"DeFormsRecv\",\"valueType\":\"NUMBER\"}],\
\"dataSets\":[{\"dataSetElements\":[{\"dataElement\":{\"id\":\"DeFormsRecv\"}}],\"id\":\"DsMonthly01\",\
\"organisationUnits\":[{\"id\":\"OuCountry01\"}],\"periodType\":\"Monthly\"}],\"organisationUnits\":[{\"id\":\"OuCountry01\"}],\
\"userRoles\":[{\"authorities\":[\"ALL\"],\"id\":\"RoSuperUser\"}],\
\"users\":[{\"id\":\"UsCountry01\",\"organisationUnits\":[{\"id\":\"OuCountry01\"}],\"userRoles\":[{\"id\":\"RoSuperUser\"}]}]}";

// An import of values in two years and a full update, after which the connection is closed.
const UPDATING: &[u8] =
    b"POST /api/dataValueSets HTTP/1.1\r\nAuthorization: ApiToken tok-country\r\n\
Content-Type: application/json\r\nContent-Length: 184\r\n\r\n\
{\"dataValues\":[{\"dataElement\":\"DeFormsRecv\",\"period\":\"202303\",\"orgUnit\":\"OuCountry01\",\"value\":\"5\"},\
{\"dataElement\":\"DeFormsRecv\",\"period\":\"202401\",\"orgUnit\":\"OuCountry01\",\"value\":\"7\"}]}\
POST /api/resourceTables/analytics HTTP/1.1\r\nAuthorization: ApiToken tok-country\r\nConnection: close\r\n\r\n";

// An import, a latest update and a query over both imports, after which the connection is closed.
const ASKING: &[u8] = b"POST /api/dataValueSets HTTP/1.1\r\nAuthorization: ApiToken tok-country\r\n\
Content-Type: application/json\r\nContent-Length: 100\r\n\r\n\
{\"dataValues\":[{\"dataElement\":\"DeFormsRecv\",\"period\":\"202402\",\"orgUnit\":\"OuCountry01\",\"value\":\"3\"}]}\
POST /api/resourceTables/analytics?latest=true HTTP/1.1\r\nAuthorization: ApiToken tok-country\r\n\r\n\
GET /api/analytics?dimension=dx:DeFormsRecv&dimension=pe:2024Q1&dimension=ou:OuCountry01&skipMeta=true HTTP/1.1\r\n\
Authorization: ApiToken tok-country\r\nConnection: close\r\n\r\n";

// A gate that holds each builder until the link that asks was answered and closed, or until it has waited long enough. It counts the
// builders that arrived, and the waits that ended too early.
#[derive(Drop)]
struct Held {
    answered: AtomicU64,
    arrivals: AtomicU64,
    missed: AtomicU64,
}

// Waits until one of the gate's counts is so large.
fn wait_for(gate: &Held, count: &AtomicU64, least: u64) {
    for _ in 0..TURNS {
        if count.load(Ordering::SeqCst) >= least {
            return;
        }
        thread::yield_now();
    }
    gate.missed.fetch_add(1, Ordering::SeqCst);
}

impl Gate for Held {
    fn arrive(&self, _year: i32) {
        self.arrivals.fetch_add(1, Ordering::SeqCst);
        wait_for(self, &self.answered, 1);
    }
}

// A link in memory. One that asks is read only once the builders of both years have arrived at the gate, which learns that it was
// closed. Contracts see its count of failed calls.
#[derive(Drop)]
struct HeldLink<'a> {
    link: MemLink,
    gate: &'a Held,
    asks: bool,
}

impl<'a> Model for HeldLink<'a> {
    ghost Value = { ℕ };

    ghost view = { λ s. s.link.faults };
}

impl<'a> Source for HeldLink<'a> {
    ghost left = { λ _. None };

    ghost source_faults = { λ s. s };

    ghost source_talk = { λ _. None };

    fn read(&mut self, into: &mut [u8]) -> Result<usize, Failed> {
        if self.asks {
            wait_for(self.gate, &self.gate.arrivals, 2);
        }
        self.link.read(into)
    }
}

impl<'a> Sink for HeldLink<'a> {
    ghost written = { λ _. None };

    ghost sink_faults = { λ s. s };

    ghost sink_talk = { λ _. None };

    fn write(&mut self, piece: &[u8]) -> Result<usize, Failed> {
        self.link.write(piece)
    }
}

impl<'a> Link for HeldLink<'a> {
    ghost one_talk = { λ _. refl };

    ghost one_count = { λ _. refl };

    ghost left_told = { λ _. refl };

    ghost written_told = { λ _. refl };
}

impl<'a> End for HeldLink<'a> {
    fn close(&mut self) {
        if self.asks {
            self.gate.answered.store(1, Ordering::SeqCst);
        }
    }
}

// A listener with two links: the first one updates, the second one asks. Contracts see how many it has given, whether it is closed,
// and its count of failed calls.
#[derive(Drop)]
struct HeldDoor<'a> {
    alloc: Global,
    gate: &'a Held,
    back: Vec<HeldLink<'a>>,
    accepted: u64,
    closed: bool,
    faults: u64,
}

impl<'a> Model for HeldDoor<'a> {
    ghost Value = { SocketSeen };

    ghost view = { λ d. record { accepted = d.accepted; closed = d.closed; faults = d.faults } };
}

// A link of which nothing was read, with these bytes.
fn link_of<'a>(
    alloc: Global,
    gate: &'a Held,
    bytes: &[u8],
    asks: bool,
) -> Result<HeldLink<'a>, Memory>
    ensures { IfOk result (λ link. link ≡ 0) }
{
    Ok(HeldLink {
        link: MemLink::with(alloc, bytes.to_vec(alloc)?, Vec::new(alloc)),
        gate,
        asks,
    })
}

impl<'a> Listener<HeldLink<'a>> for HeldDoor<'a> {
    ghost shows = { shown_by };

    fn listen(&mut self, _addr: &str) -> Result<(), Failed> {
        Ok(())
    }

    fn accept(&mut self) -> Result<Option<HeldLink<'a>>, Failed> {
        if self.accepted >= 2 {
            self.closed = true;
            return Ok(None);
        }
        let asks = self.accepted == 1;
        let bytes = if asks { ASKING } else { UPDATING };
        match link_of(self.alloc, self.gate, bytes, asks) {
            Ok(link) => {
                self.accepted += 1;
                Ok(Some(link))
            }
            Err(_) => {
                self.faults = self.faults.saturating_add(1);
                Err(Failed)
            }
        }
    }

    fn give_back(&mut self, link: HeldLink<'a>) {
        drop(self.back.push(link));
    }

    ghost returned = { λ _. tt };
}

// A clock of one moment.
fn clock(alloc: Global) -> Result<MemClock, Memory> {
    let mut moments = Vec::new(alloc);
    moments.push(1_720_000_000i64)?;
    MemClock::with(alloc, moments)
}

// Two workers serve both links.
fn serve<'a, R: Threads + Wait + Sync>(
    rt: &R,
    alloc: Global,
    gate: &'a Held,
    output: &mut MemSink,
) -> Result<Finished<HeldDoor<'a>>, Memory> {
    let clock = clock(alloc)?;
    let setup = Setup {
        rt,
        alloc,
        clock: &clock,
        gate,
        workers: 2,
        connections: 2,
    };
    let door = HeldDoor {
        alloc,
        gate,
        back: Vec::new(alloc),
        accepted: 0,
        closed: false,
        faults: 0,
    };
    Ok(serve_over(&setup, FILE, "memory", output, door))
}

fn has(link: &HeldLink, part: &str) -> bool {
    match str::from_utf8(link.link.written()) {
        Ok(text) => text.contains(part),
        Err(_) => false,
    }
}

// Whether the one link's query was answered over its latest update of both imports, and the other one's full update of the first import
// left what was published then.
fn are_answered(asking: &HeldLink, updating: &HeldLink) -> bool {
    let cell = has(
        asking,
        "[\"DeFormsRecv\",\"2024Q1\",\"OuCountry01\",\"10\"]",
    );
    let asked = asking.asks && has(asking, "X-Change: 2") && has(asking, "X-Published: 2") && cell;
    let updated = has(updating, "X-Change: 1") && has(updating, "X-Published: 2");
    asked && updated && !updating.asks
}

// The same of the links that were given back, in any order.
fn are_both_answered(back: &[HeldLink]) -> bool {
    let [one, other] = back else {
        return false;
    };
    are_answered(one, other) || are_answered(other, one)
}

#[test]
fn nobody_waits_for_the_builders_of_another_link(rt: HostRuntime) {
    let alloc = rt.alloc();
    let mut output = MemSink::with(alloc, 64, Vec::new(alloc)).expect(&rt, "memory");
    let gate = Held {
        answered: AtomicU64::new(0),
        arrivals: AtomicU64::new(0),
        missed: AtomicU64::new(0),
    };
    let finished = serve(&rt, alloc, &gate, &mut output).expect(&rt, "memory");
    assert!(rt; finished.end == ServeEnd::Served(2));
    assert!(rt; output.written() == b"served 2\n".as_slice());
    assert!(rt; gate.arrivals.load(Ordering::SeqCst) == 2);
    assert!(rt; gate.missed.load(Ordering::SeqCst) == 0);
    assert!(rt; are_both_answered(&finished.listener.back));
}
