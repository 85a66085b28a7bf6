//! The device's half: what commits chains.
ghost use Rattle.std.specs.Prelude.{◌≡◌, ◌<◌, ◌≤◌, ◌-◌, ℕ, length, get_or, IsTrue, slice_index};
ghost use Rattle.crossbeam_queue.specs.Passes.{view};
ghost use Rattle.disk_images.specs.Crash.{Since};
ghost use Rattle.disk_images.specs.Calls.{HasCause};
ghost use Rattle.log_ledger.specs.Numbers.{IsServed};
ghost use Rattle.log_ledger.specs.History.{History};
ghost use Rattle.log_device.specs.Whole.{IsBroken, IsIdle, disk_of, log_of, numbers_of};
ghost use Rattle.log_halves.specs.Chains.{all_trucks};
ghost use Rattle.log_halves.specs.Numbers.{AreStoredSynced};
ghost use Rattle.append_ring.specs.Rules.{base_of};
ghost use Rattle.log_halves.specs.Trucks.{come_to};
ghost use Rattle.log_halves.specs.Halves.{Stands, Fell, RecoversHeld};
ghost use Rattle.log_halves.specs.Moments.{GoesOnFrom};

use crate::chain::FrameChain;
use crate::name::ServiceNaming;
use append_ring::ConsumerPass;
use disk_images::Disk;
use log_berth::Ware;
use log_device::Device;
use std::marker::PhantomData;

/// The device, and the pass that pops chains.
pub struct DeviceHalf<D: Disk, N: ServiceNaming> {
    pub(crate) device: Device<D>,
    pub(crate) consumer: ConsumerPass<FrameChain>,
    pub(crate) regions: u32,
    pub(crate) of: PhantomData<N>,
    ghost from: { (consumer.pass.table_id ≡ N.chain_ring) × ((view consumer.pass).lasts ≡ N.lasts) },
    ghost all: { (regions ≡ length N.lasts) × (regions ≤ 64) },
    ghost served: { (r : ℕ) → 0 < r → r ≤ length N.lasts → IsServed (numbers_of device) r },
    ghost idle: { IsIdle (log_of device) },
    // All that was drawn is committed.
    ghost drawn: { (IsBroken device → ⊥) → (r : ℕ) → 0 < r → r ≤ length N.lasts
        → get_or (numbers_of device).drawn r 0 ≡ come_to (base_of N.lasts) (all_trucks (view consumer.pass).popped) r },
    ghost synced: { (IsBroken device → ⊥) → (numbers_of device).synced ≡ (numbers_of device).drawn },
    ghost stored: { AreStoredSynced (numbers_of device) },
    // While the device isn't broken, all that was popped is committed.
    ghost stands: { IsTrue D.told → (IsBroken device → ⊥)
        → ∥ ((h : History) × Stands N.begun N.lasts device (D.view (disk_of device)) (all_trucks (view consumer.pass).popped) h) ∥₁ },
    ghost fell: { IsTrue D.told → IsBroken device → ∥ ((h : History)
        × Fell N.begun N.lasts device (D.view (disk_of device)) (all_trucks (view consumer.pass).popped) h) ∥₁ },
    // At each moment since the start each image recovers to the base with a beginning of what was popped.
    ghost since: { IsTrue D.told → ∥ Since N.start (RecoversHeld N.begun (all_trucks (view consumer.pass).popped)) (D.view (disk_of device)) ∥₁ },
    // The images of the moments up to the start are those that were.
    ghost goes_on: { IsTrue D.told → ∥ GoesOnFrom N.start N.past (D.view (disk_of device)) ∥₁ },
    ghost cause: { ∥ HasCause N.faults (D.faults (disk_of device)) (IsBroken device) ∥₁ },
}

impl<D: Disk + Drop, N: ServiceNaming> Drop for DeviceHalf<D, N> {
    fn drop(self) {
        let DeviceHalf {
            device: _,
            consumer: _,
            regions: _,
            of: _,
        } = self;
    }
}

impl<D: Disk, N: ServiceNaming> Ware for DeviceHalf<D, N> {
    ghost use Rattle.log_device.specs.Whole.{numbers_of};
    ghost use Rattle.log_halves.specs.Numbers.{told_numbers};
    ghost use Rattle.log_halves.specs.Halves.{broken_of};

    ghost numbers = { λ h. told_numbers h.regions (numbers_of h.device) };

    ghost is_broken = { λ h. broken_of h.device };

    fn durable(&self, region: u32) -> u64 {
        let word = region - 1;
        if word < self.regions {
            self.device.synced(word + 1)
        } else if word < 2 * self.regions {
            self.device.stored(word - self.regions + 1)
        } else if word < 3 * self.regions {
            self.device.closed(word - 2 * self.regions + 1)
        } else {
            0
        }
    }

    fn broken(&self) -> bool {
        self.device.broken()
    }
}

impl<D: Disk, N: ServiceNaming> DeviceHalf<D, N> {
    /// The synced number of a region.
    pub(crate) fn synced(&self, region: u32) -> u64
        requires { region ≤ 64 }
        ensures { result ≡ get_or (numbers_of self.now.device).synced region 0 }
    {
        self.device.synced(region)
    }

    /// The device alone.
    pub fn into_device(self) -> Device<D>
        ensures { result ≡ self.device }
    {
        let DeviceHalf {
            device,
            consumer: _,
            regions: _,
            of: _,
        } = self;
        device
    }

    /// The device, and the pass that pops chains.
    pub fn into_parts(self) -> (Device<D>, ConsumerPass<FrameChain>)
        ensures { (result.0 ≡ self.device) × (result.1 ≡ self.consumer) }
    {
        let DeviceHalf {
            device,
            consumer,
            regions: _,
            of: _,
        } = self;
        (device, consumer)
    }
}
