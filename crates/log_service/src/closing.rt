//! How a service is closed.
ghost use Rattle.std.specs.Prelude.{◌≡◌, ◌≤◌, ◌*◌, ℕ, List, length, true, IsTrue};
ghost use Rattle.cell_model.specs.Order.{Content};
ghost use Rattle.log_model.specs.Entry.{Entry};
ghost use Rattle.disk_images.specs.Calls.{Rose};
ghost use Rattle.append_ring.specs.Rules.{base_of};
ghost use Rattle.append_ring.specs.Parts.{EachThere};
ghost use Rattle.log_berth.specs.Standing.{AreBack, AllSaw};
ghost use Rattle.log_service.specs.Closed.{CommitsRegion, CommitsSince, LeavesFiles, Pushed};
ghost use Rattle.log_halves.specs.Moments.{GoesOnFrom, OthersSince};

use crate::seats::LogSeats;
use crate::service::LogService;
use append_ring::RingKeys;
use disk_images::Disk;
use log_berth::{Berthed, SyncedList};
use log_halves::{Item, ServiceNaming, settle_chains, settle_items};
use std::sync::Wait;

/// What a service leaves: the disk, the synced word of each region, then the stored and the closed ones, and whether the log is broken.
#[derive(Drop)]
pub struct ServiceClosed<D> {
    pub disk: D,
    pub synced: SyncedList,
    pub broken: bool,
}

impl<D: Disk, N: ServiceNaming> LogService<D, N> {
    /// Moves and commits all that is left, unless the log is broken, and gives the disk, once all seats and passes are back. Of a broken
    /// log what is left is let go, and no disk call is made. It takes no memory.
    pub fn close<R: Wait>(self, rt: &R, seats: LogSeats, passes: RingKeys<Item>) -> ServiceClosed<D>
        requires consumers { AreBack self.consumer seats.consumers.seats }
        requires devices { AreBack self.device seats.devices.seats }
        requires all { length seats.devices.seats ≡ self.seats }
        requires passes { EachThere (λ p. p.pass.table_id ≡ self.ring) passes × (length passes ≡ self.regions) }

        ensures words { length result.synced ≡ 3 * self.regions }
        ensures saw { AllSaw seats.devices.seats result.synced result.broken }
        // Each image has each region's content at the start with the first of the entries pushed: all that the words tell of, and all of
        // them where the log isn't broken.
        ensures commits { IsTrue D.told → (r : ℕ) (c : Content) (pushed : List Entry) → Pushed N.begun passes r c pushed
            → ∥ CommitsRegion (D.view result.disk) result.broken self.regions result.synced N.lasts r c pushed ∥₁ }
        // So it was at each moment since the start.
        ensures since { IsTrue D.told → (r : ℕ) (c : Content) (pushed : List Entry) → Pushed N.begun passes r c pushed
            → ∥ CommitsSince N.start (D.view result.disk) r (base_of N.lasts r) c pushed ∥₁ }
        // The images of the moments up to the start stay, and at each moment since then each other region recovered as it did.
        ensures goes_on { IsTrue D.told → ∥ GoesOnFrom N.start N.past (D.view result.disk) ∥₁ }
        ensures others_since { IsTrue D.told → ∥ OthersSince N.start N.begun self.regions (D.view result.disk) ∥₁ }
        ensures leaves { IsTrue D.told → ∥ LeavesFiles N.begun (D.view result.disk) result.broken self.regions ∥₁ }
        ensures faults { N.faults ≤ D.faults result.disk }
        ensures cause { result.broken ≡ true → Rose N.faults (D.faults result.disk) }
    {
        let LogService {
            ring,
            chain_ring,
            consumer,
            device,
            regions: _,
            turns: _,
            commits: _,
            company: _,
            shows: _,
        } = self;
        let LogSeats {
            consumers,
            devices,
            tallies: _,
        } = seats;
        let Berthed {
            ware: mut mover,
            ..
        } = consumer.close(consumers);
        let Berthed {
            ware: mut committer,
            synced,
            broken: _,
        } = device.close(devices);
        settle_items(rt, &ring, &passes, &chain_ring, &mut mover, &mut committer);
        let (items, pass, mut idle) = mover.into_passes();
        idle.put_back(pass);
        settle_chains(rt, &chain_ring, &idle, &mut committer);
        let (device, chains) = committer.into_parts();
        ring.close(passes, items);
        chain_ring.close(idle, chains);
        let broken = device.broken();
        ServiceClosed {
            disk: device.into_disk(),
            synced,
            broken,
        }
    }
}
