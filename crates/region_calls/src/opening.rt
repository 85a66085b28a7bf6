//! The opening of a store for a server.

ghost use Rattle.std.specs.Prelude.{◌≡◌, ◌≤◌, length, IsTrue, IfOk, OnOk, IsErrAnd};
ghost use Rattle.log_model.specs.Files.{IsSound};
ghost use Rattle.log_model.specs.Damage.{IsDamage};
ghost use Rattle.disk_images.specs.Calls.{HasCause};
ghost use Rattle.region_replay.specs.wal_split.Moments.{During, WasOrAlike};
ghost use Rattle.region_calls.specs.Bases.{AreBasesOf};
ghost use Rattle.region_calls.specs.Opening.{disk_left, IfDamaged};
ghost use Rattle.region_calls.specs.Recovered.{WasRecovered};
ghost use Rattle.region_calls.specs.Store.{IsStore, disk_found, regions_of, handlers_of, bases_of};

use crate::refusal::{StartRefusal, StartWhy, device_why, split_why};
use crate::sowing::{Sown, sow};
use crate::store::OpenedStore;
use disk_images::Disk;
use kv_cell::NoMemory;
use pass_calls::log_service::log_device::{Device, DeviceRefusal};
use region_replay::{Recovered, recover_all};
use std::alloc::Global;
use std::snapshot::Snapshot;

/// Opens a store for regions 1 to `regions` and handlers 1 to `handlers`: recovers it, begins a log, and takes all the memory
/// that needs no name. A crash at any moment is answered by opening again.
pub fn open<D: Disk>(
    alloc: Global,
    disk: D,
    regions: u32,
    handlers: u32,
) -> Result<OpenedStore<D>, StartRefusal<D>>
    requires regions { (1 ≤ regions) × (regions ≤ 64) }
    requires handlers { (1 ≤ handlers) × (handlers ≤ 16) }

    ensures sizes { IfOk result (λ o. (regions_of o ≡ regions) × (handlers_of o ≡ handlers)) }
    ensures store { IfOk result (λ o. IsStore D.Disk o) }
    ensures found { IfOk result (λ o. disk_found o ≡ disk) }
    // At each moment each image is one of the first moment, or is fit and recovers alike for every region.
    ensures any_moment { IsTrue D.told → During (WasOrAlike (D.view disk)) (D.view disk) (D.view (disk_left result)) }
    ensures bases { IsTrue D.told → IfOk result (λ o. (length (bases_of o) ≡ regions) × AreBasesOf (D.view disk).files 1 (bases_of o)) }
    // Damage is told exactly where the files aren't sound.
    ensures sound { IsTrue D.told → OnOk result (IsSound (D.view disk).files) }
    ensures unsound { IsTrue D.told → IfDamaged result (λ damage left. ¬ IsSound (D.view disk).files) }
    ensures damaged { IsTrue D.told → IfDamaged result (λ damage left. IsDamage (D.view disk).files damage × ((D.view left).files ≡ (D.view disk).files)) }
    ensures cause { HasCause (D.faults disk) (D.faults (disk_left result)) (IsErrAnd result (λ e. e.why ≡ StartWhy.DiskFault)) }
{
    let found = Snapshot::of(&disk);
    let mut disk = disk;
    match recover_all(alloc, &mut disk) {
        Ok(recovered) => begin_recovered(alloc, found, disk, recovered, regions, handlers),
        Err(refusal) => Err(StartRefusal {
            why: split_why(refusal),
            disk,
        }),
    }
}

/// Opens a store on a disk that the caller recovered, for regions 1 to `regions` and handlers 1 to `handlers`: begins a log, and takes all
/// the memory that needs no name. `found` is a snapshot of the disk from before `recover_all`, and `recovered` what that gave for regions 1
/// to 64. It reads no file, and never tells damage, which the recovery looks for. Refused, it gives the disk back, which then recovers as it
/// did. Whoever has several disks can so recover them all before a log is begun on the first.
pub fn begin_recovered<D: Disk>(
    alloc: Global,
    found: Snapshot<D>,
    disk: D,
    recovered: Recovered,
    regions: u32,
    handlers: u32,
) -> Result<OpenedStore<D>, StartRefusal<D>>
    requires regions { (1 ≤ regions) × (regions ≤ 64) }
    requires handlers { (1 ≤ handlers) × (handlers ≤ 16) }
    requires recovered { WasRecovered D.Disk found.value disk recovered }

    ensures sizes { IfOk result (λ o. (regions_of o ≡ regions) × (handlers_of o ≡ handlers)) }
    ensures store { IfOk result (λ o. IsStore D.Disk o) }
    ensures found { IfOk result (λ o. disk_found o ≡ found.value) }
    // At each moment since it was found each image is one of the first moment, or is fit and recovers alike for every region.
    ensures any_moment { IsTrue D.told → During (WasOrAlike (D.view found.value)) (D.view found.value) (D.view (disk_left result)) }
    // It tells no damage.
    ensures whole { IfDamaged result (λ damage left. ⊥) }
    ensures cause { HasCause (D.faults disk) (D.faults (disk_left result)) (IsErrAnd result (λ e. e.why ≡ StartWhy.DiskFault)) }
{
    let mut replayed = recovered.into_regions();
    replayed.truncate(regions as usize);
    let sown = match sow(alloc, replayed, handlers) {
        Ok(sown) => sown,
        Err(NoMemory) => {
            return Err(StartRefusal {
                why: StartWhy::Memory,
                disk,
            });
        }
    };
    let split = Snapshot::of(&disk);
    match Device::start(alloc, disk, sown.marks.as_slice()) {
        Ok(device) => {
            let Sown {
                marks: _marks,
                rings,
                seeds,
            } = sown;
            Ok(OpenedStore {
                device,
                rings,
                seeds,
                regions,
                handlers,
                found,
                split,
            })
        }
        Err(DeviceRefusal { why, disk }) => Err(StartRefusal {
            why: device_why(why),
            disk,
        }),
    }
}
