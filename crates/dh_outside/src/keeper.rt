// Bytes that are kept for good, and a keeper in memory.
ghost use Rattle.std.specs.Prelude.{◌≡◌, refl, ◌≤◌, ◌<◌, ◌+◌, ◌++◌, ◌^◌, ℕ, List, Option, Some, length, IfOk, IfSome, OnOk, OnErr, IsErrOf};
ghost use Rattle.std.specs.Io.KnownBytes.{append_known};
ghost use Rattle.dh_outside.specs.Faults.{Rose, one_more};
ghost use Rattle.dh_outside.specs.Keeper.{KeeperSeen, is_keep_failed};
ghost use Rattle.dh_outside.specs.Memory.{is_listed};
ghost use Rattle.dh_outside.specs.declared.keeper.KeepFault.TheVariants.{Failed, TooLong, Memory};
ghost use Rattle.dh_base.specs.declared.limits.TheConstants.{MOST_LOG_BYTES};

use crate::calls::fails;
use std::alloc::{AllocError, Global};
use std::marker::Model;

/// Why bytes aren't kept, or those that are kept aren't given.
#[derive(Clone, Copy, Debug, Drop, PartialEq, Eq, thiserror::Error)]
pub enum KeepFault {
    /// A call outside failed, and the count of faults rose.
    #[error("the keeper failed")]
    Failed,
    /// More bytes are kept than asked for.
    #[error("too many bytes")]
    TooLong,
    /// No memory was found.
    #[error("out of memory")]
    Memory,
}

impl From<AllocError> for KeepFault {
    ghost from_gives = { λ _ e. e ≡ Memory };

    fn from(_: AllocError) -> Self {
        KeepFault::Memory
    }
}

/// What keeps bytes for good, as a journal. It says how many bytes it has acknowledged.
pub trait Keeper: Drop {
    /// How many bytes are acknowledged, 0 at a keeper that is empty.
    ghost acknowledged: { Self → ℕ };

    /// The bytes kept, where they are told.
    ghost kept: { Self → Option (List ℕ) };

    /// How many calls have failed, as a count of 64 bits shows it. It never falls.
    ghost keeper_faults: { Self → ℕ };

    /// Keeps these bytes after those that it holds. `at` is the number of bytes acknowledged.
    fn append(&mut self, alloc: Global, at: u64, bytes: &[u8]) -> Result<(), KeepFault>
        requires beyond { at ≡ acknowledged self.old }
        requires some { 0 < length bytes.now }
        requires room { at + length bytes.now ≤ MOST_LOG_BYTES }
        ensures acknowledged { OnOk result (acknowledged self.new ≡ acknowledged self.old + length bytes.now) }
        ensures kept { OnOk result (kept self.new ≡ append_known (kept self.old) bytes.now) }
        ensures unacknowledged { OnErr result (acknowledged self.new ≡ acknowledged self.old) }
        ensures unchanged { OnErr result (kept self.new ≡ kept self.old) }
        ensures short { IsErrOf result TooLong → ⊥ }
        ensures failed { IsErrOf result Failed → Rose (keeper_faults self.old) (keeper_faults self.new) }
        ensures memory { IsErrOf result Memory → keeper_faults self.new ≡ keeper_faults self.old }
        ensures keeps { keeper_faults self.old ≤ keeper_faults self.new };

    /// All the bytes that are kept, if there are at most `most`.
    fn read_all(&mut self, alloc: Global, most: u64) -> Result<Vec<u8>, KeepFault>
        requires { most < 2 ^ 63 }
        ensures bytes { IfOk result (λ v. IfSome (kept self.old) (λ bytes. v.items ≡ bytes)) }
        ensures fits { IfOk result (λ v. length v.items ≤ most) }
        ensures too_long { IsErrOf result TooLong → IfSome (kept self.old) (λ bytes. most < length bytes) }
        ensures acknowledged { acknowledged self.new ≡ acknowledged self.old }
        ensures kept { kept self.new ≡ kept self.old }
        ensures failed { IsErrOf result Failed → Rose (keeper_faults self.old) (keeper_faults self.new) }
        ensures keeps { keeper_faults self.old ≤ keeper_faults self.new };

    /// The bytes that are told are as many as are acknowledged.
    ghost told_len: { (keeper : Self) → IfSome (kept keeper) (λ bytes. acknowledged keeper ≡ length bytes) };
}

/// A keeper in memory.
#[derive(Drop)]
pub struct MemKeeper {
    bytes: Vec<u8>,
    failing: Vec<u64>,
    calls: u64,
    faults: u64,
}

impl Model for MemKeeper {
    ghost Value = { KeeperSeen };

    ghost view = { λ k. record { kept = k.bytes.items; failing = k.failing.items; calls = k.calls; faults = k.faults } };
}

impl MemKeeper {
    /// `kept` is held and acknowledged. `failing` lists the calls that fail, counted from 1.
    pub fn with(
        _alloc: Global,
        kept: Vec<u8>,
        failing: Vec<u64>,
    ) -> Result<Self, dh_base::memory::Memory>
        ensures { IfOk result (λ k. k ≡ record { kept = kept.items; failing = failing.items; calls = 0; faults = 0 }) }
    {
        Ok(MemKeeper {
            bytes: kept,
            failing,
            calls: 0,
            faults: 0,
        })
    }
}

impl Keeper for MemKeeper {
    ghost acknowledged = { λ k. length k.kept };

    ghost kept = { λ k. Some k.kept };

    ghost keeper_faults = { λ k. k.faults };

    fn append(&mut self, _alloc: Global, _at: u64, bytes: &[u8]) -> Result<(), KeepFault>
        ensures acknowledged { OnOk result (length self.new.kept ≡ length self.old.kept + length bytes.now) }
        ensures kept { OnOk result (Some self.new.kept ≡ Some (self.old.kept ++ bytes.now)) }
        ensures unacknowledged { OnErr result (length self.new.kept ≡ length self.old.kept) }
        ensures unchanged { OnErr result (Some self.new.kept ≡ Some self.old.kept) }
        ensures short { IsErrOf result TooLong → ⊥ }
        ensures failed { IsErrOf result Failed → Rose self.old.faults self.new.faults }
        ensures memory { IsErrOf result Memory → self.new.faults ≡ self.old.faults }
        ensures keeps { self.old.faults ≤ self.new.faults }
        ensures exact { is_keep_failed result ≡ is_listed self.old.failing self.old.calls }
        ensures unharmed { OnOk result (self.new.faults ≡ self.old.faults) }
        ensures calls { self.new.calls ≡ one_more self.old.calls }
        ensures failing { self.new.failing ≡ self.old.failing }
    {
        if fails(&self.failing, &mut self.calls, &mut self.faults) {
            return Err(KeepFault::Failed);
        }
        self.bytes.extend_from_slice(bytes)?;
        Ok(())
    }

    fn read_all(&mut self, alloc: Global, most: u64) -> Result<Vec<u8>, KeepFault>
        requires { most < 2 ^ 63 }
        ensures bytes { IfOk result (λ v. v.items ≡ self.old.kept) }
        ensures fits { IfOk result (λ v. length v.items ≤ most) }
        ensures too_long { IsErrOf result TooLong → most < length self.old.kept }
        ensures acknowledged { length self.new.kept ≡ length self.old.kept }
        ensures kept { Some self.new.kept ≡ Some self.old.kept }
        ensures failed { IsErrOf result Failed → Rose self.old.faults self.new.faults }
        ensures keeps { self.old.faults ≤ self.new.faults }
        ensures exact { is_keep_failed result ≡ is_listed self.old.failing self.old.calls }
        ensures unharmed { IfOk result (λ _. self.new.faults ≡ self.old.faults) }
        ensures calls { self.new.calls ≡ one_more self.old.calls }
        ensures failing { self.new.failing ≡ self.old.failing }
    {
        if fails(&self.failing, &mut self.calls, &mut self.faults) {
            return Err(KeepFault::Failed);
        }
        if self.bytes.len() as u64 > most {
            return Err(KeepFault::TooLong);
        }
        Ok(self.bytes.to_vec(alloc)?)
    }

    ghost told_len = { λ keeper. refl };
}
