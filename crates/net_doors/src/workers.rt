//! The workers: each accepts a link under the lock, serves it outside, closes it, and gives it back under the lock.
ghost use denote.Param.Send.{IsSend, IsSync};
ghost use Rattle.std.specs.Prelude.{◌≡◌, ◌<◌, ℕ, List, []};
ghost use Rattle.net_doors.specs.Doors.{IsUntouched};
ghost use Rattle.net_doors.specs.Serving.{HasServed, IsServed};

use crate::door::Door;
use crate::ending::Served;
use crate::names::Opening;
use crate::{End, Lender, Listener};
use std::marker::Brand;
use std::sync::ledger::{Blank, Ledger, Share};
use std::sync::{Mutex, Wait};
use std::thread::{Threads, join};

// Serves a link with what was handed out for it, and closes it.
fn serve_one<N: End, P, F: Fn(N, P) -> (N, P)>(serve: &F, link: N, given: P) -> (N, P)
    requires { F.pre serve.now link given }
    ensures { F.post serve.now link given result }
{
    let (mut link, left) = serve(link, given);
    link.close();
    (link, left)
}

// Accepts a link under the lock, serves it, and gives it back under the lock. It answers false when accepting has ended.
fn turn<N: End, P, L: Listener<N>, W: Lender<P>, F: Fn(N, P) -> (N, P), J: Opening<N, P>, R: Wait>(
    rt: &R,
    door: &Mutex<Door<N, P, L, W, J>>,
    serve: &F,
    share: &mut Share<J>,
) -> bool
    requires accepts { (link : N) (given : P) → IsUntouched (N.source_talk link) (N.source_faults link) → W.starts given → F.pre serve.now link given }
    requires serves { (came : N) (given : P) (served : N × P) → F.post serve.now came given served → J.serves came given served }
    requires parts { share.old.parts ≡ 1 }
    requires none { share.old.amount ≡ 0 }
    ensures parts { share.new.parts ≡ 1 }
    ensures none { share.new.amount ≡ 0 }
{
    let next = door.lock(rt).next(share);
    let Some((link, given)) = next else {
        return false;
    };
    let (link, left) = serve_one(serve, link, given);
    door.lock(rt).give_back(share, link, left);
    true
}

// One worker: turns until accepting has ended.
fn work<N: End, P, L: Listener<N>, W: Lender<P>, F: Fn(N, P) -> (N, P), J: Opening<N, P>, R: Wait>(
    rt: &R,
    door: &Mutex<Door<N, P, L, W, J>>,
    serve: &F,
    share: Share<J>,
) -> Share<J>
    requires accepts { (link : N) (given : P) → IsUntouched (N.source_talk link) (N.source_faults link) → W.starts given → F.pre serve.now link given }
    requires serves { (came : N) (given : P) (served : N × P) → F.post serve.now came given served → J.serves came given served }
    requires parts { share.parts ≡ 1 }
    requires none { share.amount ≡ 0 }
    ensures parts { result.parts ≡ 1 }
    ensures none { result.amount ≡ 0 }
{
    let mut share = share;
    for _ in rt.forever() {
        if !turn(rt, door, serve, &mut share) {
            return share;
        }
    }
    unreachable!()
}

// So many workers at the same time.
fn crew<
    N: End + Send,
    P: Send,
    L: Listener<N> + Send,
    W: Lender<P> + Send,
    F: Fn(N, P) -> (N, P) + Sync,
    J: Opening<N, P> + Send + Sync,
    R: Threads + Wait + Sync,
>(rt: &R, door: &Mutex<Door<N, P, L, W, J>>, serve: &F, share: Share<J>, workers: u32) -> Share<J>
    requires accepts { (link : N) (given : P) → IsUntouched (N.source_talk link) (N.source_faults link) → W.starts given → F.pre serve.now link given }
    requires serves { (came : N) (given : P) (served : N × P) → F.post serve.now came given served → J.serves came given served }
    requires some { 0 < workers }
    requires parts { share.parts ≡ workers }
    requires none { share.amount ≡ 0 }
    ensures parts { result.parts ≡ workers }
    ensures none { result.amount ≡ 0 }
{
    if workers == 1 {
        return work(rt, door, serve, share);
    }
    let mut share = share;
    let mine = share.split_off(1, 0);
    let others = workers - 1;
    let (mut mine, rest) = join(
        rt,
        || -> Share<J>
            requires { IsSync R.row × IsSync F.row × IsSend N.row × IsSend P.row × IsSend L.row × IsSend W.row × IsSend J.row × IsSync J.row
                × ((link : N) (given : P) → IsUntouched (N.source_talk link) (N.source_faults link) → W.starts given → F.pre serve.now link given)
                × ((came : N) (given : P) (served : N × P) → F.post serve.now came given served → J.serves came given served)
                × (mine.parts ≡ 1) × (mine.amount ≡ 0) }
            ensures { (result.parts ≡ 1) × (result.amount ≡ 0) }
        { work(rt, door, serve, mine) },
        || -> Share<J>
            requires { IsSync R.row × IsSync F.row × IsSend N.row × IsSend P.row × IsSend L.row × IsSend W.row × IsSend J.row × IsSync J.row
                × ((link : N) (given : P) → IsUntouched (N.source_talk link) (N.source_faults link) → W.starts given → F.pre serve.now link given)
                × ((came : N) (given : P) (served : N × P) → F.post serve.now came given served → J.serves came given served)
                × (0 < others) × (share.parts ≡ others) × (share.amount ≡ 0) }
            ensures { (result.parts ≡ others) × (result.amount ≡ 0) }
        { crew(rt, door, serve, share, others) },
    );
    mine.merge(rest);
    mine
}

// Serves with the name of the call: the workers go on until accepting has ended.
fn serve_as<
    N: End + Send,
    P: Send,
    L: Listener<N> + Send,
    W: Lender<P> + Send,
    F: Fn(N, P) -> (N, P) + Sync,
    J: Opening<N, P> + Send + Sync,
    R: Threads + Wait + Sync,
>(
    rt: &R,
    listener: L,
    lender: W,
    serve: &F,
    workers: u32,
    connections: u64,
    blank: Blank,
) -> Served<L, W>
    requires some { 0 < workers }
    requires name { blank.name ≡ J.name }
    requires parts { (blank.parts ≡ J.parts) × (blank.parts ≡ workers) }
    requires began { J.began ≡ L.shows listener }
    requires most { J.most ≡ connections }
    requires holds { W.holds lender 0 [] }
    requires accepts { (link : N) (given : P) → IsUntouched (N.source_talk link) (N.source_faults link) → W.starts given → F.pre serve.now link given }
    requires serves { (came : N) (given : P) (served : N × P) → F.post serve.now came given served → J.serves came given served }
    ensures { (lefts : List P) × W.holds result.lender result.links lefts
        × HasServed (IsServed (λ link. IsUntouched (N.source_talk link) (N.source_faults link)) W.starts J.serves) J.began
        (L.shows result.listener) J.most result.links result.ending lefts }
{
    let (book, share) = blank.open::<J>();
    let mut door = Door::new(listener, lender, connections, book);
    let mut share = share;
    for _ in rt.forever() {
        let lock = Mutex::new(door);
        share = crew(rt, &lock, serve, share, workers);
        door = lock.into_inner();
        if door.is_over() {
            return door.finish(share);
        }
    }
    unreachable!()
}

/// Serves the links of a listener by so many workers, until so many connections were accepted, the listener is closed, or an accept
/// failed. Each link that was accepted is served by a call of `serve`, closed and given back, whatever became of the others; the lender hands
/// out what it is served with, and takes back what serving it left, in the order in which the links are given back. Of its own this takes no
/// memory. `serve` has to take each link that comes with nothing read or written, with what begins as the lender hands it out, and says by
/// its own contract how it leaves the two.
pub fn serve_all<
    N: End + Send,
    P: Send,
    L: Listener<N> + Send,
    W: Lender<P> + Send,
    F: Fn(N, P) -> (N, P) + Sync,
    R: Threads + Wait + Sync,
>(rt: &R, listener: L, lender: W, serve: &F, workers: u32, connections: u64) -> Served<L, W>
    requires some { 0 < workers }
    requires none { W.holds lender 0 [] }
    requires accepts { (link : N) (given : P) → IsUntouched (N.source_talk link) (N.source_faults link) → W.starts given → F.pre serve.now link given }
    ensures { (lefts : List P) × W.holds result.lender result.links lefts
        × HasServed (IsServed (λ link. IsUntouched (N.source_talk link) (N.source_faults link)) W.starts
        (λ came given served. F.post serve.now came given served)) (L.shows listener) (L.shows result.listener) connections
        result.links result.ending lefts }
{
    serve_as::<N, P, L, W, F, Brand, R>(
        rt,
        listener,
        lender,
        serve,
        workers,
        connections,
        Blank::new(workers as u64),
    )
}
