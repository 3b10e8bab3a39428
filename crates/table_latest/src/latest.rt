//! The latest part.
ghost use Rattle.std.specs.Prelude.{◌≡◌, [], true, IfOk};
ghost use Rattle.std.specs.List.Sorted.{IsStrictlySortedBy};
ghost use Rattle.table_rows.specs.Store.{contents_in, is_store};
ghost use Rattle.table_latest.specs.Keys.{place_cmp};
ghost use Rattle.table_latest.specs.Latest as known;
ghost use Rattle.table_latest.specs.Later.{ChangesNothing};

use crate::places::{RegPlace, RowPlace, reg_place_of};
use crate::search::is_among;
use dh_base::memory::Memory;
use dh_base::uid::Uid;
use std::alloc::Global;
use std::marker::Model;
use table_rows::{EventRow, RegRow, Row};
use table_sums::{SummedRows, with_sums};

/// The keys that were touched, each list in its order.
pub struct TouchedKeys {
    pub rows: Vec<RowPlace>,
    /// Events by their identifiers.
    pub events: Vec<Uid>,
    pub regs: Vec<RegPlace>,
}

// By hand, so that it is proved here alone and not in each crate above.
impl Drop for TouchedKeys {
    fn drop(self) {
        let TouchedKeys {
            rows: _,
            events: _,
            regs: _,
        } = self;
    }
}

/// The keys that changes touched, and what each of them holds after the changes, or nothing where it is gone.
pub struct Latest {
    keys: TouchedKeys,
    store: SummedRows,
    from: u64,
    to: u64,
}

// By hand, so that it is proved here alone and not in each crate above.
impl Drop for Latest {
    fn drop(self) {
        let Latest {
            keys: _,
            store: _,
            from: _,
            to: _,
        } = self;
    }
}

impl Model for Latest {
    ghost use Rattle.table_rows.specs.Store.{contents_in};
    ghost use Rattle.table_latest.specs.Latest.{LatestPart, AreInOrder, touched_in};

    ghost Value = { LatestPart };

    ghost view = { λ latest. record { touched = touched_in latest.keys; holds = contents_in latest.store; from = latest.from; to = latest.to } };

    ghost invariant = { λ latest. AreInOrder (touched_in latest.keys) };
}

/// The store of these rows alone.
pub(crate) fn store_of(alloc: Global, rows: &[Row]) -> Result<SummedRows, Memory>
    requires { is_store rows.now [] [] [] ≡ true }
    ensures rows { IfOk result (λ store. store.rows ≡ rows.now) }
    ensures events { IfOk result (λ store. store.events ≡ []) }
    ensures regs { IfOk result (λ store. store.regs ≡ []) }
{
    with_sums(
        alloc,
        rows,
        Vec::new(alloc),
        Vec::new(alloc),
        Vec::new(alloc),
    )
}

impl Latest {
    /// The latest part of these keys and of the store of what they hold, of the changes after the first `from` up to the
    /// first `to`.
    pub fn of(keys: TouchedKeys, store: SummedRows, from: u64, to: u64) -> Latest
        requires { known.AreInOrder (known.touched_in keys) }
        ensures touched { result.touched ≡ known.touched_in keys }
        ensures holds { result.holds ≡ contents_in store }
        ensures from { result.from ≡ from }
        ensures to { result.to ≡ to }
    {
        Latest {
            keys,
            store,
            from,
            to,
        }
    }

    /// The latest part of no changes: it touches nothing.
    #[tactic(auto, unfolding(table_rows::specs::Store::is_store))]
    pub fn none(alloc: Global, at: u64) -> Result<Latest, Memory>
        ensures nothing { IfOk result (λ latest. ChangesNothing latest) }
        ensures from { IfOk result (λ latest. latest.from ≡ at) }
        ensures to { IfOk result (λ latest. latest.to ≡ at) }
    {
        let store = store_of(alloc, &[])?;
        let keys = TouchedKeys {
            rows: Vec::new(alloc),
            events: Vec::new(alloc),
            regs: Vec::new(alloc),
        };
        Ok(Latest::of(keys, store, at, at))
    }

    /// The keys of rows, in their order.
    pub fn places(&self) -> &[RowPlace]
        ensures places { result.now ≡ self.now.touched.rows }
        ensures rise { IsStrictlySortedBy place_cmp result.now }
    {
        &self.keys.rows
    }

    /// What the touched keys hold.
    pub(crate) fn store(&self) -> &SummedRows
        ensures { contents_in result.now ≡ self.now.holds }
    {
        &self.store
    }

    pub(crate) fn touches_event(&self, event: &EventRow) -> bool
        ensures { result ≡ known.is_event_touched self.now.touched event.now }
    {
        is_among(self.keys.events.as_slice(), &event.id)
    }

    pub(crate) fn touches_reg(&self, reg: &RegRow) -> bool
        ensures { result ≡ known.is_reg_touched self.now.touched reg.now }
    {
        is_among(self.keys.regs.as_slice(), &reg_place_of(reg))
    }
}
