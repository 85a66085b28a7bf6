//! What a start makes: the consumer's berth, and the service of its rings and berths.
ghost use Rattle.std.specs.Prelude.{◌≡◌, ◌<◌, ◌≤◌, ◌*◌, [], None, length, replicate, IfOk};
ghost use Rattle.crossbeam_queue.specs.Passes.{view};
ghost use Rattle.append_ring.specs.Parts.{AreNew};
ghost use Rattle.log_berth.specs.Words.{starts};
ghost use Rattle.log_berth.specs.Standing.{fresh};

use crate::company::{Commits, Company};
use crate::counting::{EventCount, Shows};
use crate::seats::LogSeats;
use crate::service::LogService;
use crate::starting::{ServiceParts, ServiceRefusal};
use append_ring::{ConsumerPass, NoMemory, Ring, RingKeys};
use disk_images::Disk;
use log_berth::{Berth, BerthParts, BerthRefusal};
use log_halves::{ConsumerHalf, DeviceHalf, FrameChain, Item, ServiceNaming, Tallies, first_half};
use std::alloc::Global;

/// What stays as it is while the berths are made.
pub(crate) struct Left {
    pub(crate) ring: Ring<Item>,
    pub(crate) chain_ring: Ring<FrameChain>,
    pub(crate) passes: RingKeys<Item>,
}

/// By hand, so that a start calls it: a derived one is written out there at each exit.
impl Drop for Left {
    fn drop(self) {
        let Left {
            ring: _,
            chain_ring: _,
            passes: _,
        } = self;
    }
}

/// The consumer's berth at the start, whose half has the keys of the ring of chains, and its seats.
pub(crate) fn first_berth<N: ServiceNaming>(
    alloc: Global,
    consumer: ConsumerPass<Item>,
    idle: RingKeys<FrameChain>,
    seats: u32,
) -> Result<BerthParts<ConsumerHalf<N>>, NoMemory>
    requires seats { 0 < seats }
    requires ring { consumer.pass.table_id ≡ N.ring }
    requires consumer { ((view consumer.pass).lasts ≡ N.lasts) × ((view consumer.pass).popped ≡ []) }
    requires came { N.came [] None }
    requires idle { (0 < length idle) × (length idle ≡ length N.lasts) × AreNew N.chain_ring N.lasts 0 idle }
    ensures berth { IfOk result (λ p. (p.berth.regions ≡ 1) × (p.berth.seats ≡ seats)) }
    ensures seats { IfOk result (λ p. (p.seats.seats ≡ replicate seats (fresh p.berth.id (starts 1 []))) × (seats ≤ p.seats.room)) }
{
    let mut idle = idle;
    let Some(chain_key) = idle.next() else {
        unreachable!()
    };
    let mover = first_half(consumer, chain_key, idle);
    match Berth::new(alloc, mover, 1, seats) {
        Ok(parts) => Ok(parts),
        Err(_) => Err(NoMemory),
    }
}

/// The device of a half for which there was no berth. The other berth is let go.
pub(crate) fn given_back<D: Disk, N: ServiceNaming>(
    refusal: BerthRefusal<DeviceHalf<D, N>>,
    first: BerthParts<ConsumerHalf<N>>,
) -> ServiceRefusal<D>
    ensures { result.device ≡ refusal.ware.device }
{
    let _first = first;
    ServiceRefusal {
        device: refusal.ware.into_device(),
    }
}

impl Left {
    /// The service of its rings and berths, the passes and the seats.
    pub(crate) fn joined<D: Disk, N: ServiceNaming>(
        self,
        first: BerthParts<ConsumerHalf<N>>,
        second: BerthParts<DeviceHalf<D, N>>,
        tallies: Tallies,
        regions: u32,
    ) -> ServiceParts<D, N>
        requires rings { (self.ring.id ≡ N.ring) × (self.chain_ring.id ≡ N.chain_ring) × (self.ring.capacity ≡ 1024) × (self.chain_ring.capacity ≡ 2) }
        requires regions { (regions ≡ length N.lasts) × (regions ≤ 64) }
        requires berths { (first.berth.regions ≡ 1) × (second.berth.regions ≡ 3 * regions) × (first.berth.seats ≡ second.berth.seats) }
        requires seats { length first.seats.seats ≡ length second.seats.seats }
        ensures service { (result.service.ring ≡ N.ring) × (result.service.regions ≡ regions) × (result.service.seats ≡ second.berth.seats) }
        ensures berths { (result.service.consumer ≡ first.berth.id) × (result.service.device ≡ second.berth.id) }
        ensures passes { result.passes ≡ self.passes }
        ensures seats { (result.seats.consumers ≡ first.seats) × (result.seats.devices ≡ second.seats) }
    {
        let Left {
            ring,
            chain_ring,
            passes,
        } = self;
        let BerthParts {
            berth: consumer,
            seats: consumers,
        } = first;
        let BerthParts {
            berth: device,
            seats: devices,
        } = second;
        ServiceParts {
            service: LogService {
                ring,
                chain_ring,
                consumer,
                device,
                regions,
                turns: EventCount::new(),
                commits: Commits::new(),
                company: Company::new(),
                shows: Shows::new(),
            },
            passes,
            seats: LogSeats {
                consumers,
                devices,
                tallies,
            },
        }
    }
}
