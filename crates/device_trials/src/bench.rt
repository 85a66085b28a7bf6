//! A device that is known by its type alone, as one behind a lock is: it is whole on its disk until it breaks, after each
//! call.

ghost use Rattle.std.specs.Prelude.{◌≡◌, ◌<◌, ◌≤◌, ℕ, List, [], length, IsTrue, IfSome, get_or};
ghost use Rattle.log_model.specs.Entry.{Entry};
ghost use Rattle.log_trucks.specs.Held.{Carries};
ghost use Rattle.log_ledger.specs.Bases.{AreRegions};
ghost use Rattle.log_ledger.specs.Numbers.{IsServed};
ghost use Rattle.log_ledger.specs.History.{History};
ghost use Rattle.log_device.specs.Opened.{IsOpened};
ghost use Rattle.log_device.specs.Whole.{IsWhole, IsBroken, disk_of, numbers_of};

use disk_images::Disk;
use log_device::{
    Device, DeviceFlush, DeviceRefusal, RegionBase, RollRefusal, Rolled, StageFull, Truck,
    WriteFault,
};
use std::alloc::Global;

/// A device, which is like some history on its disk until it breaks.
#[derive(Drop)]
pub(crate) struct Bench<D: Disk> {
    pub(crate) device: Device<D>,
    ghost kept: { IsTrue D.told → (IsBroken device → ⊥) → ∥ ((h : History) × IsWhole device (D.view (disk_of device)) h) ∥₁ },
}

impl<D: Disk> Bench<D> {
    pub(crate) fn start(
        alloc: Global,
        disk: D,
        regions: &[RegionBase],
    ) -> Result<Bench<D>, DeviceRefusal<D>>
        requires regions { AreRegions regions.now }
        requires opened { IsTrue D.told → ∥ ((flushed : ℕ → ℕ) × IsOpened (D.view disk) regions.now flushed) ∥₁ }
    {
        match Device::start(alloc, disk, regions) {
            Ok(device) => Ok(Bench { device }),
            Err(refusal) => Err(refusal),
        }
    }

    pub(crate) fn stage(&mut self, truck: Box<Truck>) -> Result<(), StageFull>
        requires served { IsServed (numbers_of self.old.device) truck.value.region }
        requires alone { truck.value.behind ≡ [] }
        requires entry { ∥ ((e : Entry) × Carries truck.value e) ∥₁ }
        requires above { get_or (numbers_of self.old.device).drawn truck.value.region 0 < truck.value.number }
    {
        self.device.stage(truck)
    }

    pub(crate) fn sync(&mut self) -> Result<u64, WriteFault> {
        self.device.sync()
    }

    pub(crate) fn roll(&mut self, alloc: Global) -> Result<Rolled, RollRefusal> {
        self.device.roll(alloc)
    }

    pub(crate) fn flush(
        &mut self,
        alloc: Global,
        region: u32,
        family: Option<&[u8]>,
    ) -> Result<u64, DeviceFlush>
        requires served { IsServed (numbers_of self.old.device) region }
        requires family { IfSome family (λ f. (1 ≤ length f.now) × (length f.now ≤ 127)) }
    {
        self.device.flush(alloc, region, family)
    }

    pub(crate) fn archive(&mut self) -> Result<u64, WriteFault> {
        self.device.archive()
    }
}
