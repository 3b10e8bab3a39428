//! A listener over links in memory.
ghost use Rattle.std.specs.Prelude.{◌≡◌, ◌≤◌, ◌<◌, ◌+◌, ◌++◌, [], Some, false, length, All, IfOk, IfSome, IfNone, OnErr, vec_capacity, option_to_list};
ghost use Rattle.std.specs.Result.{is_err};
ghost use Rattle.dh_outside.specs.Faults.{Rose, one_more};
ghost use Rattle.dh_outside.specs.Memory.{is_listed};
ghost use Rattle.net_doors.specs.Doors.{Accepts, with_back};
ghost use Rattle.net_doors.specs.Memory.{DoorSeen, IsFresh, shown_of};
ghost use Rattle.std.proofs.Common.{arith};

use crate::{End, Listener};
use dh_base::memory::Memory;
use dh_outside::{Failed, MemLink};
use std::alloc::Global;
use std::collections::VecDeque;
use std::marker::Model;

/// A listener in memory. It gives its links in order, and then tells that it is closed.
#[derive(Drop)]
pub struct MemDoor {
    waiting: VecDeque<MemLink>,
    back: Vec<MemLink>,
    out: usize,
    closed: bool,
    failing: Vec<u64>,
    calls: u64,
    faults: u64,
}

impl Model for MemDoor {
    ghost Value = { DoorSeen };

    ghost view = { λ d. record {
      waiting = d.waiting.items;
      out = d.out;
      back = d.back.items;
      closed = d.closed;
      failing = d.failing.items;
      calls = d.calls;
      faults = d.faults;
    } };

    ghost invariant = { λ d. (length d.waiting.items + (length d.back.items + d.out) ≤ vec_capacity d.back) × All IsFresh d.waiting.items };
}

impl MemDoor {
    /// A listener over these links, of which nothing was read or written. `failing` lists the calls that fail, counted from 1.
    pub fn with(alloc: Global, links: Vec<MemLink>, failing: Vec<u64>) -> Result<Self, Memory>
        requires { All IsFresh links.items }
        ensures { IfOk result (λ d. d ≡ record { waiting = links.items; out = 0; back = []; closed = false; failing = failing.items; calls = 0; faults = 0 }) }
    {
        let back = Vec::with_capacity(alloc, links.len())?;
        Ok(MemDoor {
            waiting: VecDeque::from_vec(links),
            back,
            out: 0,
            closed: false,
            failing,
            calls: 0,
            faults: 0,
        })
    }

    /// The links given back, in order.
    pub fn back(&self) -> &[MemLink]
        ensures { result.now ≡ self.now.back }
    {
        &self.back
    }
}

// The first of the links that wait.
fn take_first(waiting: &mut VecDeque<MemLink>) -> Option<MemLink>
    requires { All IsFresh waiting.old.items }
    ensures rest { All IsFresh waiting.new.items }
    ensures fresh { IfSome result (λ link. IsFresh link) }
    ensures last { IfNone result (waiting.old.items ≡ []) }
    ensures next { waiting.old.items ≡ option_to_list result ++ waiting.new.items }
{
    waiting.pop_front()
}

impl End for MemLink {
    fn close(&mut self) {}
}

impl Listener<MemLink> for MemDoor {
    ghost shows = { shown_of };

    fn listen(&mut self, _addr: &str) -> Result<(), Failed>
        ensures accepted { (shown_of self.new).accepted ≡ (shown_of self.old).accepted }
        ensures closed { self.new.closed ≡ self.old.closed }
        ensures back { Some self.new.back ≡ Some self.old.back }
        ensures keeps { self.old.faults ≤ self.new.faults }
        ensures failed { OnErr result (Rose self.old.faults self.new.faults) }
        ensures exact { is_err result ≡ is_listed self.old.failing self.old.calls }
        ensures calls { self.new.calls ≡ one_more self.old.calls }
        ensures same { (self.new.waiting ≡ self.old.waiting) × (self.new.failing ≡ self.old.failing) }
    {
        self.calls = self.calls.saturating_add(1);
        if self.failing.contains(&self.calls) {
            self.faults = self.faults.saturating_add(1);
            return Err(Failed);
        }
        Ok(())
    }

    fn accept(&mut self) -> Result<Option<MemLink>, Failed>
        ensures accepts { Accepts (shown_of self.old) (shown_of self.new) result }
        ensures untouched { IfOk result (λ found. IfSome found (λ link. IsFresh link)) }
        ensures failed { OnErr result (Rose self.old.faults self.new.faults) }
        ensures exact { is_err result ≡ is_listed self.old.failing self.old.calls }
        ensures next { IfOk result (λ found. self.old.waiting ≡ option_to_list found ++ self.new.waiting) }
        ensures last { IfOk result (λ found. IfNone found (self.old.waiting ≡ [])) }
        ensures calls { self.new.calls ≡ one_more self.old.calls }
        ensures failing { self.new.failing ≡ self.old.failing }
    {
        self.calls = self.calls.saturating_add(1);
        if self.failing.contains(&self.calls) {
            self.faults = self.faults.saturating_add(1);
            return Err(Failed);
        }
        match take_first(&mut self.waiting) {
            Some(link) => {
                self.out += 1;
                Ok(Some(link))
            }
            None => {
                self.closed = true;
                Ok(None)
            }
        }
    }

    fn give_back(&mut self, link: MemLink)
        requires { length self.old.back < (shown_of self.old).accepted }
        ensures { shown_of self.new ≡ with_back (shown_of self.old) link }
    {
        self.back.push_reserved(link);
        self.out -= 1;
    }

    ghost returned = { λ _. Prim.omega arith };
}
