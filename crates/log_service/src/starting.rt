//! How a service is started: first its rings, without a name, and then the service, over a name that names them.
ghost use Rattle.std.specs.Prelude.{◌≡◌, ◌<◌, ◌≤◌, ◌*◌, ℕ, [], None, length, replicate, IsTrue, IfOk, IfErr};
ghost use Rattle.crossbeam_queue.specs.Passes.{view};
ghost use Rattle.log_berth.specs.Words.{starts};
ghost use Rattle.log_berth.specs.Standing.{fresh};
ghost use Rattle.log_model.specs.Files.{Files};
ghost use Rattle.log_ledger.specs.History.{History};
ghost use Rattle.log_device.specs.Whole.{disk_of, numbers_of};
ghost use Rattle.log_halves.specs.Begun.{IsFresh, BeginsAs, AreNewParts, AreParts};
ghost use Rattle.log_halves.specs.Numbers.{told_numbers};

use crate::joining::{Left, first_berth, given_back};
use crate::seats::LogSeats;
use crate::service::LogService;
use append_ring::{NoMemory, Ring, RingKeys, RingParts};
use disk_images::Disk;
use log_berth::Berth;
use log_device::Device;
use log_halves::{FrameChain, Item, ServiceNaming, second_half};
use std::alloc::Global;

/// How many chains the ring of chains holds.
const CHAINS: u32 = 2;

/// The two rings, with their passes: what a name names.
#[derive(Drop)]
pub struct Rings {
    pub items: RingParts<Item>,
    pub chains: RingParts<FrameChain>,
}

/// A service, the passes of its regions and its seats.
pub struct ServiceParts<D: Disk, N: ServiceNaming> {
    pub service: LogService<D, N>,
    pub passes: RingKeys<Item>,
    pub seats: LogSeats,
}

/// There was no memory. The device comes back.
#[derive(Drop)]
pub struct ServiceRefusal<D> {
    pub device: Device<D>,
}

impl Rings {
    /// The first part of a start: a ring of 1,024 items, and one of two chains. `lasts` has for each region, from 1 on, the number before
    /// its first drawn one.
    pub fn new(alloc: Global, lasts: &[u64]) -> Result<Rings, NoMemory>
        requires { (0 < length lasts.now) × (length lasts.now ≤ 64) }
        ensures items { IfOk result (λ r. (r.items.ring.capacity ≡ 1024)
            × AreNewParts r.items.ring.id lasts.now r.items.consumer.pass.table_id (view r.items.consumer.pass) r.items.passes) }
        ensures chains { IfOk result (λ r. (r.chains.ring.capacity ≡ 2)
            × AreNewParts r.chains.ring.id lasts.now r.chains.consumer.pass.table_id (view r.chains.consumer.pass) r.chains.passes) }
    {
        let items = Ring::new(alloc, lasts)?;
        let chains = Ring::of_capacity(alloc, lasts, CHAINS)?;
        Ok(Rings { items, chains })
    }
}

impl<D: Disk, N: ServiceNaming> LogService<D, N> {
    /// The second part of a start, over a device into which nothing was staged since it was started with the regions 1 to `regions`,
    /// whose numbers are those of the rings. Each seat has seen what the device tells. It refuses where it is out of memory.
    pub fn start(
        alloc: Global,
        rings: Rings,
        device: Device<D>,
        regions: u32,
        seats: u32,
    ) -> Result<ServiceParts<D, N>, ServiceRefusal<D>>
        requires seats { 0 < seats }
        requires regions { (regions ≡ length N.lasts) × (0 < regions) × (regions ≤ 64) }
        requires items { (rings.items.ring.capacity ≡ 1024)
            × AreParts N.ring N.lasts rings.items.ring.id rings.items.consumer.pass.table_id (view rings.items.consumer.pass) rings.items.passes }
        requires chains { (rings.chains.ring.capacity ≡ 2)
            × AreParts N.chain_ring N.lasts rings.chains.ring.id rings.chains.consumer.pass.table_id (view rings.chains.consumer.pass) rings.chains.passes }
        // Nothing came out of the ring of items yet.
        requires came { N.came [] None }
        requires device { IsFresh N.lasts device }
        requires whole { IsTrue D.told → ∥ ((h : History) × BeginsAs N.begun N.lasts device (D.view (disk_of device)) h) ∥₁ }
        requires start { IsTrue D.told → N.start ≡ (D.view (disk_of device)).clock }
        requires past { IsTrue D.told → (t : ℕ) (J : Files) → t ≤ N.start
            → ((D.view (disk_of device)).image t J → N.past t J) × (N.past t J → (D.view (disk_of device)).image t J) }
        requires faults { N.faults ≡ D.faults (disk_of device) }

        ensures service { IfOk result (λ p. (p.service.ring ≡ N.ring) × (p.service.regions ≡ regions) × (p.service.seats ≡ seats)) }
        ensures passes { IfOk result (λ p. p.passes ≡ rings.items.passes) }
        ensures consumers { IfOk result (λ p. (p.seats.consumers.seats ≡ replicate seats (fresh p.service.consumer (starts 1 [])))
            × (seats ≤ p.seats.consumers.room)) }
        ensures devices { IfOk result (λ p. (p.seats.devices.seats
            ≡ replicate seats (fresh p.service.device (starts (3 * regions) (told_numbers regions (numbers_of device)))))
            × (seats ≤ p.seats.devices.room)) }
        ensures refused { IfErr result (λ r. r.device ≡ device) }
    {
        let Rings { items, chains } = rings;
        let RingParts {
            ring,
            passes,
            consumer,
        } = items;
        let RingParts {
            ring: chain_ring,
            passes: idle,
            consumer: popper,
        } = chains;
        let left = Left {
            ring,
            chain_ring,
            passes,
        };
        let Ok(first) = first_berth::<N>(alloc, consumer, idle, seats) else {
            return Err(ServiceRefusal { device });
        };
        let (committer, tallies) = second_half(device, popper, regions);
        match Berth::new(alloc, committer, 3 * regions, seats) {
            Ok(second) => Ok(left.joined(first, second, tallies, regions)),
            Err(refusal) => Err(given_back(refusal, first)),
        }
    }
}
