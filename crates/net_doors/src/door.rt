//! What lies under the lock: the listener, the lender, how many links were accepted, and how accepting ended.
ghost use Rattle.std.specs.Prelude.{◌≡◌, ◌≤◌, ℕ, List, [], Option, None, IfSome, IsSome, is_some, length, option_to_list};
ghost use Rattle.net_doors.specs.Doors.{IsUntouched};
ghost use Rattle.net_doors.specs.Serving.{Serving, EndsBy, HasServed, IsServed};
ghost use Rattle.net_doors.specs.declared.ending.Ending.{Ending};

use crate::ending::{Ending, Served};
use crate::names::Opening;
use crate::{End, Lender, Listener};
use std::marker::{Model, PhantomData};
use std::sync::ledger::{Book, Share};

/// The listener of one call. Contracts see how accepting ended, if it has, and its type that the links are served.
#[derive(Drop)]
pub(crate) struct Door<N: End, P, L: Listener<N>, W: Lender<P>, J: Opening<N, P>> {
    listener: L,
    lender: W,
    most: u64,
    links: u64,
    ending: Option<Ending>,
    book: Book<J>,
    of: PhantomData<(N, P)>,
}

impl<N: End, P, L: Listener<N>, W: Lender<P>, J: Opening<N, P>> Model for Door<N, P, L, W, J> {
    ghost Value = { Option Ending };

    ghost view = { λ d. d.ending };

    ghost invariant = { λ d.
        (d.most ≡ J.most)
        × IfSome J.began.back (λ links. length links ≤ J.began.accepted)
        × ((lefts : List P) × W.holds d.lender d.links lefts
        × Serving (IsServed (λ link. IsUntouched (N.source_talk link) (N.source_faults link)) W.starts J.serves) J.began (L.shows d.listener)
        d.most d.links d.book.total lefts)
        × IfSome d.ending (λ how. EndsBy how J.began (L.shows d.listener) d.most d.links) };
}

impl<N: End, P, L: Listener<N>, W: Lender<P>, J: Opening<N, P>> Door<N, P, L, W, J> {
    /// Accepting begins.
    pub(crate) fn new(listener: L, lender: W, most: u64, book: Book<J>) -> Self
        requires began { J.began ≡ L.shows listener }
        requires most { J.most ≡ most }
        requires none { book.total ≡ 0 }
        requires holds { W.holds lender 0 [] }
    {
        Door {
            listener,
            lender,
            most,
            links: 0,
            ending: None,
            book,
            of: PhantomData,
        }
    }

    /// Accepts one more link, unless accepting has ended or ends, and hands out what it is served with. Who has the link has it on his share.
    pub(crate) fn next(&mut self, share: &mut Share<J>) -> Option<(N, P)>
        requires parts { share.old.parts ≡ 1 }
        requires none { share.old.amount ≡ 0 }
        ensures parts { share.new.parts ≡ 1 }
        ensures amount { share.new.amount ≡ length (option_to_list result) }
        ensures untouched { IfSome result (λ next. IsUntouched (N.source_talk next.0) (N.source_faults next.0)) }
        ensures starts { IfSome result (λ next. W.starts next.1) }
    {
        if self.ending.is_some() {
            return None;
        }
        if self.links == self.most {
            self.ending = Some(Ending::Enough);
            return None;
        }
        match self.listener.accept() {
            Ok(Some(link)) => {
                self.links += 1;
                self.book.add(share, 1);
                Some((link, self.lender.hand_out()))
            }
            Ok(None) => {
                self.ending = Some(Ending::Closed);
                None
            }
            Err(_) => {
                self.ending = Some(Ending::ListenFault);
                None
            }
        }
    }

    /// Takes back a link that was served, and what this left beside it.
    pub(crate) fn give_back(&mut self, share: &mut Share<J>, link: N, left: P)
        requires parts { share.old.parts ≡ 1 }
        requires one { share.old.amount ≡ 1 }
        requires served { IsServed (λ came. IsUntouched (N.source_talk came) (N.source_faults came)) W.starts J.serves link left }
        ensures parts { share.new.parts ≡ 1 }
        ensures none { share.new.amount ≡ 0 }
    {
        self.book.audit(share);
        self.book.sub(share, 1);
        self.lender.take_back(left);
        self.listener.give_back(link);
    }

    /// Whether accepting has ended.
    pub(crate) fn is_over(&self) -> bool
        ensures { result ≡ is_some self.now }
    {
        self.ending.is_some()
    }

    /// What came of it, once no worker has a link.
    pub(crate) fn finish(mut self, share: Share<J>) -> Served<L, W>
        requires over { IsSome self }
        requires all { share.parts ≡ J.parts }
        requires none { share.amount ≡ 0 }
        ensures { (lefts : List P) × W.holds result.lender result.links lefts
            × HasServed (IsServed (λ link. IsUntouched (N.source_talk link) (N.source_faults link)) W.starts J.serves) J.began
            (L.shows result.listener) J.most result.links result.ending lefts }
    {
        let mut share = share;
        self.book.audit(&mut share);
        let Door {
            listener,
            lender,
            most: _,
            links,
            ending,
            book: _,
            of: _,
        } = self;
        Served {
            listener,
            lender,
            links,
            ending: ending.unwrap(),
        }
    }
}
