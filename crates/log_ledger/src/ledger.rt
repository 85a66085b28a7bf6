//! The ledger, and how it begins.

ghost use Rattle.std.specs.Prelude.{◌≡◌, ◌↔◌, ◌+◌, ◌<◌, ◌≤◌, ◌^◌, ℕ, List, [], Contains, IfOk, get_or};
ghost use Rattle.log_model.specs.Files.{Files};
ghost use Rattle.log_model.specs.Recovered.{IsFlushed};
ghost use Rattle.recovery_laws.specs.Kept.{HasNoLogs};
ghost use Rattle.log_ledger.specs.History.{started_in};
ghost use Rattle.seq_accounting.specs.Accounts.{flushed_at};
ghost use Rattle.log_ledger.specs.Numbers.{IsServed, AreStoresFew};
ghost use Rattle.log_ledger.specs.Counted.{IsCounted};
ghost use Rattle.log_ledger.specs.Bases.{AreRegions, IsAmong, AreNumbersOf};

use crate::base::{RegionBase, flushed_of, marks_of, next_stores_of};
use kv_cell::NoMemory;
use log_trucks::Chains;
use seq_accounting::{Accounting, PLACES};
use std::alloc::Global;
use std::marker::Model;

/// The numbers of one log's device, and the trucks of its unflushed entries. Regions are 1 to 64; contracts see lists
/// of numbers by region, and what they say of the device's history.
pub struct Ledger {
    pub(crate) drawn: [u64; PLACES],
    pub(crate) synced: [u64; PLACES],
    pub(crate) stored: [u64; PLACES],
    pub(crate) closed: [u64; PLACES],
    pub(crate) next_store: [u64; PLACES],
    pub(crate) accounts: Accounting,
    pub(crate) chains: Chains,
}

/// By hand, as that of kv_cell's `Octets`: the crates above call it.
impl Drop for Ledger {
    fn drop(self) {
        let Ledger {
            drawn: _,
            synced: _,
            stored: _,
            closed: _,
            next_store: _,
            accounts: _,
            chains: _,
        } = self;
    }
}

impl Model for Ledger {
    ghost use Rattle.log_ledger.specs.Numbers.{Numbers, AreInOrder};

    ghost Value = { Numbers };

    ghost view = { λ l. record {
      drawn = l.drawn;
      synced = l.synced;
      stored = l.stored;
      closed = l.closed;
      next_store = l.next_store;
      accounts = l.accounts;
      chains = l.chains;
    } };

    ghost invariant = { λ l. AreInOrder (record {
      drawn = l.drawn;
      synced = l.synced;
      stored = l.stored;
      closed = l.closed;
      next_store = l.next_store;
      accounts = l.accounts;
      chains = l.chains;
    }) };
}

impl Ledger {
    /// The ledger of a device that serves these regions, before anything is staged.
    pub fn new(alloc: Global, regions: &[RegionBase]) -> Result<Ledger, NoMemory>
        requires { AreRegions regions.now }
        ensures counted { (F : Files) (flushed : ℕ → ℕ) → ((m : RegionBase) → Contains regions.now m → flushed m.region ≡ m.flushed)
            → HasNoLogs F → ((r : ℕ) (f : List ℕ) → IsFlushed F r f (flushed r)) → IfOk result (λ l. IsCounted l (started_in F flushed)) }
        ensures served { IfOk result (λ l. (r : ℕ) → IsServed l r ↔ IsAmong regions.now r) }
        ensures drawn { IfOk result (λ l. AreNumbersOf (λ m. m.flushed) regions.now l.drawn) }
        ensures synced { IfOk result (λ l. l.synced ≡ l.drawn) }
        ensures stored { IfOk result (λ l. l.stored ≡ l.drawn) }
        ensures closed { IfOk result (λ l. l.closed ≡ l.drawn) }
        ensures next_store { IfOk result (λ l. AreNumbersOf (λ m. m.next_store) regions.now l.next_store) }
        ensures files { IfOk result (λ l. l.accounts.closed ≡ []) }
        ensures last { IfOk result (λ l. l.accounts.last ≡ 0) }
        ensures flushed { IfOk result (λ l. (r : ℕ) (f : List ℕ) → flushed_at l.accounts r f ≡ get_or l.drawn r 0) }
        ensures few { IfOk result (λ l. (limit : ℕ) → ((m : RegionBase) → Contains regions.now m → m.next_store ≤ limit + 1)
            → AreStoresFew limit l) }
    {
        let marks = marks_of(alloc, regions)?;
        let accounts = match Accounting::new(alloc, &marks) {
            Ok(accounts) => accounts,
            Err(_) => return Err(NoMemory),
        };
        let chains = Chains::new(alloc)?;
        let flushed = flushed_of(regions);
        Ok(Ledger {
            drawn: flushed,
            synced: flushed,
            stored: flushed,
            closed: flushed,
            next_store: next_stores_of(regions),
            accounts,
            chains,
        })
    }

    /// The last sequence id staged of a region, or the one up to which it was flushed at the start.
    pub fn drawn(&self, region: u32) -> u64
        requires { region ≤ 64 }
        ensures number { result ≡ get_or self.now.drawn region 0 }
        ensures limit { result < 2 ^ 48 }
    {
        self.drawn[region as usize]
    }

    /// The last sequence id committed of a region.
    pub fn synced(&self, region: u32) -> u64
        requires { region ≤ 64 }
        ensures number { result ≡ get_or self.now.synced region 0 }
        ensures staged { result ≤ get_or self.now.drawn region 0 }
        ensures limit { result < 2 ^ 48 }
    {
        self.synced[region as usize]
    }

    /// The sequence id that the region's last flush of all families gave.
    pub fn stored(&self, region: u32) -> u64
        requires { region ≤ 64 }
        ensures number { result ≡ get_or self.now.stored region 0 }
        ensures synced { result ≤ get_or self.now.synced region 0 }
        ensures limit { result < 2 ^ 48 }
    {
        self.stored[region as usize]
    }

    /// The last sequence id of the region that was committed when the log was rolled.
    pub fn closed(&self, region: u32) -> u64
        requires { region ≤ 64 }
        ensures number { result ≡ get_or self.now.closed region 0 }
        ensures synced { result ≤ get_or self.now.synced region 0 }
        ensures limit { result < 2 ^ 48 }
    {
        self.closed[region as usize]
    }

    /// The sequence id up to which the whole region is flushed.
    pub fn whole(&self, region: u32) -> u64
        requires { region ≤ 64 }
        ensures number { result ≡ flushed_at self.now.accounts region [] }
        ensures synced { result ≤ get_or self.now.synced region 0 }
        ensures limit { result < 2 ^ 48 }
    {
        self.accounts.flushed(region, &[])
    }

    /// The sequence id up to which a family of the region is flushed; of the empty one, up to which the whole region is.
    pub fn flushed(&self, region: u32, family: &[u8]) -> u64
        requires { region ≤ 64 }
        ensures number { result ≡ flushed_at self.now.accounts region family.now }
        ensures synced { result ≤ get_or self.now.synced region 0 }
        ensures limit { result < 2 ^ 48 }
    {
        self.accounts.flushed(region, family)
    }

    /// The number of the region's next store file, 0 where the device doesn't serve it.
    pub fn next_store(&self, region: u32) -> u64
        requires { region ≤ 64 }
        ensures number { result ≡ get_or self.now.next_store region 0 }
        ensures bound { result < 2 ^ 63 + 1 + 2 ^ 58 }
    {
        self.next_store[region as usize]
    }
}
