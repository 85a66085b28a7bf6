//! How a server is closed.

ghost use Rattle.std.specs.Prelude.{◌≡◌, ◌≤◌, ◌<◌, ◌+◌, ◌*◌, ℕ, [], List, true, length, map, IsTrue, IfOk, IfErr, Contains, vec_capacity};
ghost use Rattle.std.specs.List.{range_with_len};
ghost use Rattle.append_ring.specs.Parts.{EachThere};
ghost use Rattle.append_ring.specs.Rules.{base_of};
ghost use Rattle.cell_model.specs.Order.{Content};
ghost use Rattle.log_model.specs.Entry.{Entry};
ghost use Rattle.disk_images.specs.Calls.{Rose};
ghost use Rattle.log_berth.specs.Standing.{AllSaw};
ghost use Rattle.pass_calls.specs.log_service.Closed.{CommitsRegion, CommitsSince, LeavesFiles, Pushed};
ghost use Rattle.pass_calls.specs.log_service.Moments.{GoesOnFrom, OthersSince};
ghost use Rattle.server_model.specs.Pass.{Pass as ThePass};
ghost use Rattle.server_model.specs.Closing.{IsClosedRegion, Survives, Leaves};
ghost use Rattle.region_calls.specs.Backs.{AllBack, AreAll, AreSeats, device_seats, seats_of};
ghost use Rattle.region_calls.specs.Closes.{HasElapsed, HasSurvived, IsLeft};
ghost use Rattle.region_calls.specs.Deals.{AllOf, AreSeatsOf, passes_back};
ghost use Rattle.region_calls.specs.Wordings.{region_of};

use crate::apart::{Taken, let_all_go, let_hands_go, sure, take_all};
use crate::closed::{CloseRefusal, ClosedRegion, ClosedServer};
use crate::giving::{give_passes, give_seats};
use crate::helpers::Helpers;
use crate::meeting::are_all;
use crate::naming::ServerNaming;
use crate::pass::Pass;
use crate::passes::Passes;
use crate::server::Server;
use crate::wording::{sure_stored, word_all};
use append_ring::RingKeys;
use disk_images::Disk;
use kv_cell::NoMemory;
use pass_calls::log_service::{Item, LogSeats, LogService, ServiceClosed};
use std::alloc::Global;
use std::sync::Wait;

/// Memory for the regions of a server that is closed.
#[derive(Drop)]
struct CloseRoom {
    taken: Vec<Taken>,
    regions: Vec<ClosedRegion>,
}

/// Takes the memory.
fn make_room(alloc: Global, regions: usize) -> Result<CloseRoom, NoMemory>
    ensures { IfOk result (λ r. (r.taken.items ≡ []) × (regions ≤ vec_capacity r.taken)
        × (r.regions.items ≡ []) × (regions ≤ vec_capacity r.regions)) }
{
    let taken = Vec::with_capacity(alloc, regions)?;
    let regions = Vec::with_capacity(alloc, regions)?;
    Ok(CloseRoom { taken, regions })
}

/// Gives all seats back, and closes the log.
fn shut<
    D: Disk,
    N: pass_calls::region_lock::LockNaming
        + pass_calls::log_service::ServiceNaming
        + region_versions::VersionsNaming,
    S: Wait,
>(
    rt: &S,
    service: LogService<D, N>,
    seats: LogSeats,
    back: Vec<Pass<N>>,
    helpers: Helpers,
    places: RingKeys<Item>,
) -> ServiceClosed<D>
    requires seats { AreSeats service (length back.items + 2) seats × (length seats.devices.seats + (length back.items + 2) ≡ service.seats) }
    requires back { AllOf service back.items }
    requires helpers { AreSeatsOf service helpers × (length helpers ≡ 2) }
    requires passes { EachThere (λ p. p.pass.table_id ≡ service.ring) places × (length places ≡ service.regions) }
    ensures words { length result.synced ≡ 3 * service.regions }
    ensures saw { AllSaw (device_seats (seats_of back.items)) result.synced result.broken }
    ensures commits { IsTrue D.told → (r : ℕ) (c : Content) (pushed : List Entry) → Pushed N.begun places r c pushed
        → ∥ CommitsRegion (D.view result.disk) result.broken service.regions result.synced N.lasts r c pushed ∥₁ }
    ensures since { IsTrue D.told → (r : ℕ) (c : Content) (pushed : List Entry) → Pushed N.begun places r c pushed
        → ∥ CommitsSince N.start (D.view result.disk) r (base_of N.lasts r) c pushed ∥₁ }
    ensures goes_on { IsTrue D.told → ∥ GoesOnFrom N.start N.past (D.view result.disk) ∥₁ }
    ensures others_since { IsTrue D.told → ∥ OthersSince N.start N.begun service.regions (D.view result.disk) ∥₁ }
    ensures leaves { IsTrue D.told → ∥ LeavesFiles N.begun (D.view result.disk) result.broken service.regions ∥₁ }
    ensures faults { N.faults ≤ D.faults result.disk }
    ensures cause { result.broken ≡ true → Rose N.faults (D.faults result.disk) }
{
    let mut seats = seats;
    give_passes(&mut seats, back, 2);
    give_seats(&mut seats, helpers.seats);
    service.close(rt, seats, places)
}

/// Closes a server whose passes are its handlers': takes each region out of its lock, where all passes meet its journal; gives the seats
/// back, and closes the service, which commits what is left in the ring; and joins each region with the words of the log.
fn finish<
    'a,
    D: Disk,
    N: ServerNaming
        + pass_calls::region_lock::LockNaming
        + pass_calls::log_service::ServiceNaming
        + region_versions::VersionsNaming,
    R: Wait,
    S: Wait,
>(
    server: Server<'a, D, N, R>,
    rt: &S,
    passes: Passes<N>,
    helpers: Helpers,
    room: CloseRoom,
) -> ClosedServer<D>
    requires back { AllBack server N.handlers passes helpers × AreAll N.handlers (passes_back passes) }
    requires room { (room.taken.items ≡ []) × (server.regions ≤ vec_capacity room.taken)
        × (room.regions.items ≡ []) × (server.regions ≤ vec_capacity room.regions) }
    ensures numbers { map (λ (x : ClosedRegion). x.region) result.regions.items ≡ range_with_len 1 N.name.regions }
    ensures regions { (x : ClosedRegion) → Contains result.regions.items x → IsClosedRegion N.name x.region (passes_back passes) (region_of x) }
    ensures survives { IsTrue D.told → (x : ClosedRegion) → Contains result.regions.items x
        → ∥ Survives (D.view result.disk) result.broken x.region (region_of x) ∥₁ }
    ensures survived { IsTrue D.told → (x : ClosedRegion) → Contains result.regions.items x
        → ∥ HasSurvived N.start (D.view result.disk) x.region (region_of x) ∥₁ }
    ensures elapsed { IsTrue D.told → ∥ HasElapsed N.start N.past N.found N.name.regions (D.view result.disk) ∥₁ }
    ensures leaves { IsTrue D.told → ∥ Leaves N.found (D.view result.disk) result.broken N.name.regions ∥₁ }
    ensures seen_broken { (p : ThePass) → Contains (passes_back passes) p → p.broken ≡ true → result.broken ≡ true }
    ensures cause { result.broken ≡ true → Rose N.faults (D.faults result.disk) }
    ensures later { N.faults ≤ D.faults result.disk }
{
    let Server {
        service,
        regions,
        mut places,
        rt: _,
    } = server;
    let Passes {
        regions: hands,
        rooms,
        seats,
        handlers: _,
        out: _,
        mut back,
    } = passes;
    let_hands_go(hands, rooms);
    let taken = take_all(rt, regions, &mut back, &mut places, room.taken);
    let ServiceClosed {
        disk,
        synced,
        broken,
    } = shut(rt, service, seats, back, helpers, places);
    let regions = word_all(rt, taken, synced.as_slice(), room.regions);
    ClosedServer {
        disk,
        regions,
        broken,
    }
}

impl<
    'a,
    D: Disk,
    N: ServerNaming
        + pass_calls::region_lock::LockNaming
        + pass_calls::log_service::ServiceNaming
        + region_versions::VersionsNaming,
    R: Wait,
> Server<'a, D, N, R> {
    /// Closes the server, once all passes and seats are back: commits what is left, unless the log is broken, and gives the disk, and each
    /// region's journal with the words of the log. It refuses where it is out of memory, or the passes aren't its handlers', which no run
    /// shows; it hands all back. Where what a pass knows doesn't meet in a region, which no run shows, it does not return.
    pub fn close<S: Wait>(
        self,
        rt: &S,
        alloc: Global,
        passes: Passes<N>,
        helpers: Helpers,
    ) -> Result<ClosedServer<D>, CloseRefusal<'a, D, N, R>>
        requires back { AllBack self N.handlers passes helpers }

        ensures numbers { IfOk result (λ c. map (λ (x : ClosedRegion). x.region) c.regions.items ≡ range_with_len 1 N.name.regions) }
        // All that passes know of a region meets in its journal.
        ensures regions { IfOk result (λ c. (x : ClosedRegion) → Contains c.regions.items x
            → IsClosedRegion N.name x.region (passes_back passes) (region_of x)) }
        // What a crash from now on may leave of it, and what one since the start could have.
        ensures survives { IsTrue D.told → IfOk result (λ c. (x : ClosedRegion) → Contains c.regions.items x
            → ∥ Survives (D.view c.disk) c.broken x.region (region_of x) ∥₁) }
        ensures survived { IsTrue D.told → IfOk result (λ c. (x : ClosedRegion) → Contains c.regions.items x
            → ∥ HasSurvived N.start (D.view c.disk) x.region (region_of x) ∥₁) }
        // The images of moments up to the start stay, and regions above these recovered alike at each moment since.
        ensures elapsed { IsTrue D.told → IfOk result (λ c. ∥ HasElapsed N.start N.past N.found N.name.regions (D.view c.disk) ∥₁) }
        ensures leaves { IsTrue D.told → IfOk result (λ c. ∥ Leaves N.found (D.view c.disk) c.broken N.name.regions ∥₁) }
        ensures seen_broken { IfOk result (λ c. (p : ThePass) → Contains (passes_back passes) p → p.broken ≡ true → c.broken ≡ true) }
        ensures cause { IfOk result (λ c. c.broken ≡ true → Rose N.faults (D.faults c.disk)) }
        ensures later { IfOk result (λ c. N.faults ≤ D.faults c.disk) }
        ensures same { IfErr result (λ e. (e.server ≡ self.entry) × (e.passes ≡ passes) × (e.helpers ≡ helpers)) }
    {
        let Ok(room) = make_room(alloc, self.regions.len()) else {
            return Err(CloseRefusal {
                server: self,
                passes,
                helpers,
            });
        };
        if !are_all(passes.back.as_slice(), passes.handlers) {
            return Err(CloseRefusal {
                server: self,
                passes,
                helpers,
            });
        }
        Ok(finish(self, rt, passes, helpers, room))
    }
}

impl<
    'a,
    D: Disk,
    N: ServerNaming
        + pass_calls::region_lock::LockNaming
        + pass_calls::log_service::ServiceNaming
        + region_versions::VersionsNaming,
    R: Wait,
> CloseRefusal<'a, D, N, R> {
    /// Closes the log and gives the disk. It takes no memory. Where what a pass knows doesn't meet in a region, which no run shows, it does
    /// not return.
    pub fn into_disk<S: Wait>(self, rt: &S) -> D
        requires back { AllBack self.server N.handlers self.passes self.helpers }

        // Each region has a journal in which all that passes know of it meets, and of which a crash leaves a beginning, and one at any moment
        // since the start would have.
        ensures left { IsTrue D.told → IsLeft N.name (passes_back self.entry.passes) N.start (D.view result) }
        ensures elapsed { IsTrue D.told → ∥ HasElapsed N.start N.past N.found N.name.regions (D.view result) ∥₁ }
        ensures leaves { IsTrue D.told → ∥ Leaves N.found (D.view result) true N.name.regions ∥₁ }
        ensures faults { N.faults ≤ D.faults result }
    {
        let CloseRefusal {
            server,
            passes,
            helpers,
        } = self;
        let Server {
            service,
            regions,
            mut places,
            rt: _,
        } = server;
        let Passes {
            regions: hands,
            rooms,
            seats,
            handlers,
            out: _,
            mut back,
        } = passes;
        let_hands_go(hands, rooms);
        let all = are_all(back.as_slice(), handlers);
        sure(rt, all);
        let count = regions.len();
        let mut lasts: [u64; 64] = [0; 64];
        let_all_go(rt, regions, &mut back, &mut places, &mut lasts);
        let ServiceClosed {
            disk,
            synced,
            broken: _,
        } = shut(rt, service, seats, back, helpers, places);
        sure_stored(rt, &lasts, synced.as_slice(), count);
        disk
    }
}
