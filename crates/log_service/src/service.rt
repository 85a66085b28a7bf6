//! The service.
ghost use Rattle.std.specs.Prelude.{◌≡◌, MatchResult};
ghost use Rattle.crossbeam_queue.specs.Passes.{view};
ghost use Rattle.append_ring.specs.Rules.{Follows, HasPushed};
ghost use Rattle.append_ring.specs.Parts.{last_pushed};
ghost use Rattle.log_halves.specs.Items.{region_of, number_of, IsWholeItem};
ghost use Rattle.log_halves.specs.Moves.{IsGivenBack};

use crate::company::{Commits, Company};
use crate::counting::{EventCount, Shows};
use append_ring::{Full, Ring, RingKey};
use disk_images::Disk;
use log_berth::Berth;
use log_halves::{ConsumerHalf, DeviceHalf, FrameChain, Item, ServiceNaming};
use std::marker::Model;
use std::sync::Wait;

/// The ring of items and that of chains, a berth for each half, and the count on which threads sleep. Contracts see which rings and berths
/// they are.
pub struct LogService<D: Disk, N: ServiceNaming> {
    pub(crate) ring: Ring<Item>,
    pub(crate) chain_ring: Ring<FrameChain>,
    pub(crate) consumer: Berth<ConsumerHalf<N>>,
    pub(crate) device: Berth<DeviceHalf<D, N>>,
    pub(crate) regions: u32,
    // How many turns of the device have ended.
    pub(crate) turns: EventCount,
    // On what puts sleep until a commit has ended, and how many of them one waits for.
    pub(crate) commits: Commits,
    pub(crate) company: Company,
    // How often puts have ended or shown an edit.
    pub(crate) shows: Shows,
}

impl<D: Disk, N: ServiceNaming> Model for LogService<D, N> {
    ghost use Rattle.std.specs.Prelude.{◌≡◌, ◌*◌, ◌≤◌, length};
    ghost use Rattle.log_service.specs.Places.{ServiceId};

    ghost Value = { ServiceId };

    ghost view = { λ s. record {
      ring = s.ring.id;
      chain_ring = s.chain_ring.id;
      consumer = s.consumer.id;
      device = s.device.id;
      regions = s.regions;
      seats = s.device.seats;
    } };

    ghost invariant = { λ s. (s.ring.id ≡ N.ring) × (s.chain_ring.id ≡ N.chain_ring) × (s.ring.capacity ≡ 1024) × (s.chain_ring.capacity ≡ 2)
        × (s.consumer.regions ≡ 1) × (s.device.regions ≡ 3 * s.regions) × (s.regions ≡ length N.lasts) × (s.regions ≤ 64)
        × (s.consumer.seats ≡ s.device.seats) };
}

impl<D: Disk, N: ServiceNaming> LogService<D, N> {
    /// Pushes an item under the pass of its region. An entry's number has to be one above the last one pushed under the pass. The item
    /// comes back only where the ring held 1,024 items at one moment of the call. It takes no memory.
    pub fn push<R: Wait>(
        &self,
        rt: &R,
        pass: &mut RingKey<Item>,
        item: Item,
    ) -> Result<(), Full<Item>>
        requires ring { pass.old.pass.table_id ≡ self.now.ring }
        requires region { region_of item ≡ pass.old.region }
        requires whole { IsWholeItem item }
        requires follows { Follows number_of (last_pushed number_of pass.old) item }
        ensures same { (pass.new.pass.table_id ≡ pass.old.pass.table_id) × (pass.new.region ≡ pass.old.region) }
        ensures pushed { MatchResult result (λ _. HasPushed (view pass.old.pass) item (view pass.new.pass))
            (λ full. IsGivenBack pass.old pass.new item full.item) }
    {
        let asks = matches!(item, Item::Sync { .. });
        let pushed = self.ring.push(rt, pass, item);
        if asks && pushed.is_ok() {
            self.company.push();
        }
        pushed
    }
}
