//! Where connections come from, and who serves them. A listener accepts links and takes each of them back when it has ended; several
//! workers accept the links of one listener and serve them at the same time, and each link that was accepted is served and given back,
//! whatever the others do. Beside the traits stand a listener in memory, which tells the links that were given back, and the system's
//! sockets, which tell nothing.
#![tactic(auto)]

mod door;
mod ending;
mod memory;
mod names;
mod sockets;
mod workers;

ghost use Rattle.std.specs.Prelude.{◌≡◌, ◌≤◌, ◌<◌, ◌+◌, ◌++◌, ◌∷◌, ℕ, List, [], length, IfOk, IfSome, OnErr};
ghost use Rattle.dh_outside.specs.Faults.{Rose};
ghost use Rattle.net_doors.specs.Doors.{Shown, Accepts, IsUntouched, with_back};

use dh_outside::{Failed, Link};
pub use ending::{Ending, Served};
pub use memory::MemDoor;
pub use sockets::{TcpDoor, TcpEnd};
pub use workers::serve_all;

/// Stands at the door: hands out what each link is served with, and takes back what serving it left. It is used by one worker at a time.
pub trait Lender<P> {
    /// So many were handed out, and these came back, in order.
    ghost holds: { Self → ℕ → List P → Type 0 };

    /// What is handed out begins so.
    ghost starts: { P → Type 0 };

    /// Hands out one more, for a link that was accepted.
    fn hand_out(&mut self) -> P
        ensures starts { starts result }
        ensures holds { (given : ℕ) (back : List P) → holds self.old given back → holds self.new (given + 1) back };

    /// Takes back what serving a link left.
    fn take_back(&mut self, left: P)
        ensures { (given : ℕ) (back : List P) → holds self.old given back → holds self.new given (back ++ left ∷ []) };
}

/// A link that a listener gives.
pub trait End: Link {
    /// The last call on a link: the peer learns that nothing more comes. What the link tells stays as it is. This takes no memory.
    fn close(&mut self)
        ensures { self.new ≡ self.old };
}

/// What accepts links.
pub trait Listener<N: End> {
    /// What it shows of itself.
    ghost shows: { Self → Shown N };

    /// Begins to listen at an address. It fails only if the count of faults rose.
    fn listen(&mut self, addr: &str) -> Result<(), Failed>
        ensures accepted { (shows self.new).accepted ≡ (shows self.old).accepted }
        ensures closed { (shows self.new).closed ≡ (shows self.old).closed }
        ensures back { (shows self.new).back ≡ (shows self.old).back }
        ensures keeps { (shows self.old).faults ≤ (shows self.new).faults }
        ensures failed { OnErr result (Rose (shows self.old).faults (shows self.new).faults) };

    /// The next link, or that no more come. A link comes with nothing read or written. It fails only if the count of faults rose.
    fn accept(&mut self) -> Result<Option<N>, Failed>
        ensures accepts { Accepts (shows self.old) (shows self.new) result }
        ensures untouched { IfOk result (λ found. IfSome found (λ link. IsUntouched (N.source_talk link) (N.source_faults link))) }
        ensures failed { OnErr result (Rose (shows self.old).faults (shows self.new).faults) };

    /// Takes back a link that has ended. This takes no memory and cannot fail. There are no more given back than accepted.
    fn give_back(&mut self, link: N)
        requires { IfSome (shows self.old).back (λ links. length links < (shows self.old).accepted) }
        ensures { shows self.new ≡ with_back (shows self.old) link };

    /// No more links are given back than were accepted.
    ghost returned: { (listener : Self) → IfSome (shows listener).back (λ links. length links ≤ (shows listener).accepted) };
}
