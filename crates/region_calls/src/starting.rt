//! How an opened store becomes a server.

ghost use Rattle.std.specs.Prelude.{◌≡◌, ◌≤◌, ◌+◌, [], length, IfOk, IfErr, vec_capacity};
ghost use Rattle.append_ring.specs.Parts.{AreNew, AreOut};
ghost use Rattle.pass_calls.specs.log_service.log_device.Whole.{disk_of};
ghost use Rattle.region_calls.specs.Hands.{AreDeals};
ghost use Rattle.region_calls.specs.Deals.{AreSeatsOf, AreRooms, ArePassesOf, passes_out, passes_back};
ghost use Rattle.region_calls.specs.Named.{AreFrom, AreNamedSeeds};
ghost use Rattle.region_calls.specs.Names.{IsNameOf};
ghost use Rattle.region_calls.specs.Seeds.{AreSeeds};
ghost use Rattle.region_calls.specs.Served.{IsBegun, AreNewSeats};
ghost use Rattle.region_calls.specs.Store.{IsStore, disk_now, regions_of, handlers_of};

use crate::hands::RegionHands;
use crate::helpers::Helpers;
use crate::naming::ServerNaming;
use crate::pass::Pass;
use crate::passes::Passes;
use crate::refusal::{StartRefusal, StartWhy};
use crate::room::{NamedRegions, make_rooms, name_regions};
use crate::seeds::RegionSeeds;
use crate::server::Server;
use crate::store::OpenedStore;
use crate::unlocked::Unlocked;
use append_ring::RingKeys;
use disk_images::Disk;
use kv_cell::NoMemory;
use pass_calls::log_service::log_device::Device;
use pass_calls::log_service::{Item, LogSeat, LogService, Rings, ServiceParts, ServiceRefusal};
use pass_calls::region_lock::{Locked, RegionPass};
use std::alloc::Global;
use std::sync::{Mutex, Wait};

/// A server, its handlers' passes and two seats for threads that help the log.
pub struct Started<
    'a,
    D: Disk,
    N: ServerNaming
        + pass_calls::region_lock::LockNaming
        + pass_calls::log_service::ServiceNaming
        + region_versions::VersionsNaming,
    R: Wait,
> {
    pub server: Server<'a, D, N, R>,
    pub passes: Passes<N>,
    pub helpers: Helpers,
}

/// All memory of a server under its name, but its log's.
struct NamedRoom<
    'a,
    N: ServerNaming
        + pass_calls::region_lock::LockNaming
        + pass_calls::log_service::ServiceNaming
        + region_versions::VersionsNaming,
    R: Wait,
> {
    unlocked: Vec<Unlocked<N, &'a R>>,
    hands: Vec<RegionHands<N>>,
    rooms: Vec<Vec<RegionPass<N>>>,
    locks: Vec<Mutex<Locked<N, &'a R>>>,
    back: Vec<Pass<N>>,
    helpers: Vec<LogSeat>,
}

/// By hand, so that who drops it calls it: a derived one is written out there.
impl<
    'a,
    N: ServerNaming
        + pass_calls::region_lock::LockNaming
        + pass_calls::log_service::ServiceNaming
        + region_versions::VersionsNaming,
    R: Wait,
> Drop for NamedRoom<'a, N, R> {
    fn drop(self) {
        let NamedRoom {
            unlocked: _,
            hands: _,
            rooms: _,
            locks: _,
            back: _,
            helpers: _,
        } = self;
    }
}

/// Takes the memory.
fn make_room<
    'a,
    N: ServerNaming
        + pass_calls::region_lock::LockNaming
        + pass_calls::log_service::ServiceNaming
        + region_versions::VersionsNaming,
    R: Wait,
>(
    rt: &'a R,
    alloc: Global,
    seeds: Vec<RegionSeeds>,
    handlers: u32,
) -> Result<NamedRoom<'a, N, R>, NoMemory>
    requires seeds { AreSeeds handlers 1 seeds.items }
    requires handlers { (1 ≤ handlers) × (handlers ≤ 16) × (handlers ≡ N.handlers) }
    requires named { AreNamedSeeds N.desk N.spent N.book N.region_base N.lasts seeds.items }
    ensures regions { IfOk result
        (λ r. AreFrom 1 r.unlocked.items × (length r.unlocked.items ≡ length seeds.items) × AreDeals 1 handlers r.hands.items
        × (length r.hands.items ≡ length seeds.items)) }
    ensures rooms { IfOk result (λ r. AreRooms (length seeds.items) r.rooms.items × (length r.rooms.items ≡ handlers)) }
    ensures locks { IfOk result (λ r. (r.locks.items ≡ []) × (length seeds.items ≤ vec_capacity r.locks)) }
    ensures back { IfOk result (λ r. (r.back.items ≡ []) × (handlers ≤ vec_capacity r.back)) }
    ensures helpers { IfOk result (λ r. (r.helpers.items ≡ []) × (2 ≤ vec_capacity r.helpers)) }
{
    let regions = seeds.len();
    let rooms = make_rooms::<N>(alloc, regions, handlers)?;
    let locks = Vec::with_capacity(alloc, regions)?;
    let back = Vec::with_capacity(alloc, handlers as usize)?;
    let helpers = Vec::with_capacity(alloc, 2)?;
    let NamedRegions { unlocked, hands } = name_regions::<N, R>(rt, alloc, seeds, handlers)?;
    Ok(NamedRoom {
        unlocked,
        hands,
        rooms,
        locks,
        back,
        helpers,
    })
}

/// Puts each region behind its lock, with its key of the ring.
fn lock_all<
    N: pass_calls::region_lock::LockNaming
        + pass_calls::log_service::ServiceNaming
        + region_versions::VersionsNaming,
    R: Wait + Drop,
>(
    passes: &mut RingKeys<Item>,
    unlocked: Vec<Unlocked<N, R>>,
    locks: Vec<Mutex<Locked<N, R>>>,
) -> Vec<Mutex<Locked<N, R>>>
    requires passes { AreNew N.ring N.lasts 0 passes.old × (length passes.old ≡ length unlocked.items) }
    requires regions { AreFrom 1 unlocked.items }
    requires room { (locks.items ≡ []) × (length unlocked.items ≤ vec_capacity locks) }
    ensures locks { length result.items ≡ length unlocked.items }
    ensures passes { AreOut (length passes.new) passes.new × (length passes.new ≡ length passes.old) }
{
    let mut locks = locks;
    'locking: for region in unlocked {
        let Some(pass) = passes.next() else {
            unreachable!()
        };
        locks.push_reserved(Mutex::new(region.with_pass(pass)));
    }
    locks
}

impl<
    'a,
    N: ServerNaming
        + pass_calls::region_lock::LockNaming
        + pass_calls::log_service::ServiceNaming
        + region_versions::VersionsNaming,
    R: Wait,
> NamedRoom<'a, N, R> {
    /// Joins the log's service and the regions.
    fn join<D: Disk>(
        self,
        rt: &'a R,
        parts: ServiceParts<D, N>,
        handlers: u32,
    ) -> Started<'a, D, N, R>
        requires handlers { (1 ≤ handlers) × (handlers ≤ 16) × (handlers ≡ N.handlers) }
        requires served { IsBegun D.told N.name N.found N.handlers N.flushes N.ring N.lasts N.begun N.region_base parts.service }
        requires passes { AreNew N.ring N.lasts 0 parts.passes × (length parts.passes ≡ parts.service.regions) }
        requires seats { AreNewSeats parts.service (handlers + 2) parts.seats }
        requires regions { AreFrom 1 self.unlocked.items × (length self.unlocked.items ≡ parts.service.regions)
            × AreDeals 1 handlers self.hands.items × (length self.hands.items ≡ parts.service.regions) }
        requires rooms { AreRooms parts.service.regions self.rooms.items × (length self.rooms.items ≡ handlers) }
        requires locks { (self.locks.items ≡ []) × (parts.service.regions ≤ vec_capacity self.locks) }
        requires back { (self.back.items ≡ []) × (handlers ≤ vec_capacity self.back) }
        requires helpers { (self.helpers.items ≡ []) × (2 ≤ vec_capacity self.helpers) }
        ensures server { result.server ≡ parts.service }
        ensures passes { (passes_out result.passes ≡ 0) × (passes_back result.passes ≡ []) × ArePassesOf parts.service N.handlers result.passes }
        ensures helpers { (length result.helpers ≡ 2) × AreSeatsOf parts.service result.helpers }
    {
        let ServiceParts {
            service,
            passes: mut places,
            mut seats,
        } = parts;
        let NamedRoom {
            unlocked,
            hands,
            rooms,
            locks,
            back,
            mut helpers,
        } = self;
        let regions = lock_all(&mut places, unlocked, locks);
        let Some(first) = seats.next() else {
            unreachable!()
        };
        let Some(second) = seats.next() else {
            unreachable!()
        };
        helpers.push_reserved(first);
        helpers.push_reserved(second);
        Started {
            server: Server {
                service,
                regions,
                places,
                rt,
            },
            passes: Passes {
                regions: hands,
                rooms,
                seats,
                handlers,
                out: 0,
                back,
            },
            helpers: Helpers { seats: helpers },
        }
    }
}

/// The refusal of a store for which there was no memory. The rings are let go.
fn refused<D: Disk>(device: Device<D>, rings: Rings) -> StartRefusal<D>
    ensures { (result.why ≡ StartWhy.Memory) × (result.disk ≡ disk_of device) }
{
    let _rings = rings;
    StartRefusal {
        why: StartWhy::Memory,
        disk: device.into_disk(),
    }
}

impl<D: Disk> OpenedStore<D> {
    /// The server of this store, by a name that is its: the store's tables, bases and files. It refuses where it is out of memory, and gives the
    /// disk back. The server keeps the handle `rt`, since its drop waits for those that view a region.
    pub fn named<
        'a,
        N: ServerNaming
            + pass_calls::region_lock::LockNaming
            + pass_calls::log_service::ServiceNaming
            + region_versions::VersionsNaming,
        R: Wait,
    >(self, rt: &'a R, alloc: Global) -> Result<Started<'a, D, N, R>, StartRefusal<D>>
        requires store { IsStore D.Disk self }
        requires name { IsNameOf D.Disk N.ServerNaming N.LockNaming N.ServiceNaming N.VersionsNaming self }

        ensures server { IfOk result (λ s. (s.server.regions ≡ regions_of self) × (s.server.seats ≡ handlers_of self + 2)) }
        ensures passes { IfOk result (λ s. (passes_out s.passes ≡ 0) × (passes_back s.passes ≡ []) × ArePassesOf s.server N.handlers s.passes) }
        ensures helpers { IfOk result (λ s. (length s.helpers ≡ 2) × AreSeatsOf s.server s.helpers) }
        ensures refused { IfErr result (λ e. (e.why ≡ StartWhy.Memory) × (e.disk ≡ disk_now self)) }
    {
        let OpenedStore {
            device,
            rings,
            seeds,
            regions,
            handlers,
            found: _,
            split: _,
        } = self;
        let Ok(room) = make_room::<N, R>(rt, alloc, seeds, handlers) else {
            return Err(refused(device, rings));
        };
        match LogService::start(alloc, rings, device, regions, handlers + 2) {
            Ok(parts) => Ok(room.join(rt, parts, handlers)),
            Err(ServiceRefusal { device }) => Err(StartRefusal {
                why: StartWhy::Memory,
                disk: device.into_disk(),
            }),
        }
    }
}
