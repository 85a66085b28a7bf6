//! The halves at the start, and what is counted of the calls of each seat from then on.
ghost use Rattle.std.specs.Prelude.{◌≡◌, ◌≤◌, ℕ, [], None, length, IsTrue};
ghost use Rattle.crossbeam_queue.specs.Passes.{view};
ghost use Rattle.append_ring.specs.Parts.{IsNew, AreNewAfter};
ghost use Rattle.log_model.specs.Files.{Files};
ghost use Rattle.log_ledger.specs.History.{History};
ghost use Rattle.log_device.specs.Whole.{disk_of};
ghost use Rattle.log_halves.specs.Begun.{IsFresh, BeginsAs};

use crate::chain::FrameChain;
use crate::committer::DeviceHalf;
use crate::consumer::ConsumerHalf;
use crate::item::Item;
use crate::name::ServiceNaming;
use append_ring::{ConsumerPass, RingKey, RingKeys};
use disk_images::Disk;
use log_device::Device;
use std::marker::PhantomData;

/// How many store files the flushes of a seat have written, and how many log files its rolls have closed. A count stands still at 2^64 - 1.
///
/// A seat has one, and a call that flushes or rolls has none but its seat's: one is made by `Tallies` alone, and nobody can copy a count, set
/// one or take one back. So what a call answers is said by what it did. No wrong body shows this, since none that counts elsewhere can be
/// written: that is why the fields and what makes one are private to this file.
#[derive(Drop)]
pub struct Written {
    stores: u64,
    logs: u64,
}

impl Written {
    ghost use Rattle.std.specs.Prelude.{◌≡◌};
    ghost use Rattle.log_halves.specs.Counts.{one_more, with_stores, with_closed};

    /// A flush has written a store file.
    pub(crate) fn count_store(&mut self)
        ensures { self.new ≡ with_stores self.old (one_more self.old.stores) }
    {
        self.stores = self.stores.saturating_add(1);
    }

    /// A roll has closed a log file.
    pub(crate) fn count_log(&mut self)
        ensures { self.new ≡ with_closed self.old (one_more self.old.logs) }
    {
        self.logs = self.logs.saturating_add(1);
    }
}

/// What makes the tallies of a service's seats. There is one for each service: it comes with the device's half, at the start alone.
#[derive(Drop)]
pub struct Tallies {
    seal: (),
}

impl Tallies {
    ghost use Rattle.std.specs.Prelude.{◌≡◌};
    ghost use Rattle.log_halves.specs.Counts.{nothing_written};

    /// That of a seat by which nothing was written yet.
    pub fn tally(&self) -> Written
        ensures { result ≡ nothing_written }
    {
        Written { stores: 0, logs: 0 }
    }
}

/// The consumer's half at the start.
pub fn first_half<N: ServiceNaming>(
    consumer: ConsumerPass<Item>,
    chain_key: RingKey<FrameChain>,
    idle: RingKeys<FrameChain>,
) -> ConsumerHalf<N>
    requires ring { consumer.pass.table_id ≡ N.ring }
    requires consumer { ((view consumer.pass).lasts ≡ N.lasts) × ((view consumer.pass).popped ≡ []) }
    requires came { N.came [] None }
    requires chain_key { IsNew N.chain_ring N.lasts 1 chain_key }
    requires idle { AreNewAfter N.chain_ring N.lasts 0 1 idle × (length idle ≡ length N.lasts) }
{
    ConsumerHalf {
        consumer,
        chain: FrameChain::new(),
        held: None,
        chain_key,
        idle,
        asked: false,
        requests: 0,
        of: PhantomData,
    }
}

/// The device's half at the start, and the tallies of its service's seats.
pub fn second_half<D: Disk, N: ServiceNaming>(
    device: Device<D>,
    consumer: ConsumerPass<FrameChain>,
    regions: u32,
) -> (DeviceHalf<D, N>, Tallies)
    requires regions { (regions ≡ length N.lasts) × (regions ≤ 64) }
    requires chain_ring { consumer.pass.table_id ≡ N.chain_ring }
    requires consumer { ((view consumer.pass).lasts ≡ N.lasts) × ((view consumer.pass).popped ≡ []) }
    requires device { IsFresh N.lasts device }
    requires whole { IsTrue D.told → ∥ ((h : History) × BeginsAs N.begun N.lasts device (D.view (disk_of device)) h) ∥₁ }
    requires start { IsTrue D.told → N.start ≡ (D.view (disk_of device)).clock }
    requires past { IsTrue D.told → (t : ℕ) (J : Files) → t ≤ N.start
        → ((D.view (disk_of device)).image t J → N.past t J) × (N.past t J → (D.view (disk_of device)).image t J) }
    requires faults { N.faults ≡ D.faults (disk_of device) }
    ensures { (result.0.device ≡ device) × (result.0.regions ≡ regions) }
{
    let half = DeviceHalf {
        device,
        consumer,
        regions,
        of: PhantomData,
    };
    (half, Tallies { seal: () })
}
