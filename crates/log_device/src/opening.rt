//! A device is started on a store that was opened.

ghost use Rattle.std.specs.Prelude.{◌≡◌, ◌≤◌, ◌<◌, ◌+◌, ◌^◌, ◌↔◌, ℕ, List, [], Contains, IsTrue, IfOk, IfErr, IsErrOf, IsErrAnd, Some};
ghost use Rattle.log_model.specs.Files.{IsPresent};
ghost use Rattle.log_model.specs.Recovered.{IsGreatest};
ghost use Rattle.recovery_laws.specs.Change.{RecoversSome};
ghost use Rattle.disk_images.specs.Crash.{Throughout};
ghost use Rattle.disk_images.specs.Calls.{HasCause, Looks};
ghost use Rattle.chronicle_model.specs.Growth.{IsGoingOn};
ghost use Rattle.log_file.specs.Open.{OpenLog};
ghost use Rattle.log_ledger.specs.Bases.{AreRegions, IsAmong, AreNumbersOf};
ghost use Rattle.log_ledger.specs.Numbers.{IsServed, AreStoresFew};
ghost use Rattle.log_ledger.specs.History.{started_in};
ghost use Rattle.log_device.specs.Bears.{Bears};
ghost use Rattle.log_device.specs.Keeps.{Keeps, log_name};
ghost use Rattle.log_device.specs.Opened.{IsOpened, IsLastNumber, log_number, started_disk};
ghost use Rattle.log_device.specs.Whole.{IsBroken, IsIdle, log_of, numbers_of, files_of, HasHistory};

use crate::device::Device;
use crate::error::{DeviceRefusal, DeviceWhy};
use disk_images::{Disk, Name, NameKind};
use log_file::LogFile;
use log_ledger::{Ledger, RegionBase};
use std::alloc::Global;

/// The greatest number that a file's name has in a store that was opened.
const LAST_NUMBER: u64 = 0x8000_0000_0000_0000;

impl<D: Disk> Device<D> {
    /// Starts a device on a store that was opened: no log and no edits file stands there or in an image, and each store
    /// file is durable. It begins a new log, whose number is one above the greatest one of an old log, in four disk calls.
    /// `Memory` comes before any of them changes a file.
    pub fn start(
        alloc: Global,
        disk: D,
        regions: &[RegionBase],
    ) -> Result<Device<D>, DeviceRefusal<D>>
        requires regions { AreRegions regions.now }
        requires opened { IsTrue D.told → ∥ ((flushed : ℕ → ℕ) × IsOpened (D.view disk) regions.now flushed) ∥₁ }

        // At each moment each image is fit, and recovers to the files as they read.
        ensures any_moment { IsTrue D.told → (flushed : ℕ → ℕ) → IsOpened (D.view disk) regions.now flushed
            → Throughout (RecoversSome (D.view disk).files []) 4 (D.view disk) (D.view (started_disk result)) }
        ensures names { IsTrue D.told → (flushed : ℕ → ℕ) (last : ℕ) → IsOpened (D.view disk) regions.now flushed
            → IsLastNumber (D.view disk).files last
            → Throughout (Bears (D.view disk).files [] (last + 1)) 4 (D.view disk) (D.view (started_disk result)) }
        ensures started { IsTrue D.told → (flushed : ℕ → ℕ) → IsOpened (D.view disk) regions.now flushed → IfOk result
            (λ d. HasHistory D.Disk d (started_in (D.view disk).files flushed)) }
        ensures goes_on { IsTrue D.told → (flushed : ℕ → ℕ) → IsOpened (D.view disk) regions.now flushed
            → IfOk result (λ d. IsGoingOn (files_of D.Disk d)) }
        ensures served { IfOk result (λ d. (r : ℕ) → IsServed (numbers_of d) r ↔ IsAmong regions.now r) }
        ensures drawn { IfOk result (λ d. AreNumbersOf (λ m. m.flushed) regions.now (numbers_of d).drawn) }
        ensures next_store { IfOk result (λ d. AreNumbersOf (λ m. m.next_store) regions.now (numbers_of d).next_store) }
        ensures few { (limit : ℕ) → ((m : RegionBase) → Contains regions.now m → m.next_store ≤ limit + 1)
            → IfOk result (λ d. AreStoresFew limit (numbers_of d)) }
        ensures numbers { IfOk result (λ d. ((numbers_of d).synced ≡ (numbers_of d).drawn)
            × ((numbers_of d).stored ≡ (numbers_of d).drawn) × ((numbers_of d).closed ≡ (numbers_of d).drawn)) }
        ensures unbroken { IfOk result (λ d. IsBroken d → ⊥) }
        ensures number { IsTrue D.told → (flushed : ℕ → ℕ) (last : ℕ) → IsOpened (D.view disk) regions.now flushed
            → IsLastNumber (D.view disk).files last → IfOk result
            (λ d. (file : OpenLog) → log_of d ≡ Some file → file.name.number ≡ last + 1) }
        ensures empty { IfOk result
            (λ d. (file : OpenLog) → log_of d ≡ Some file → (file.entries ≡ 0) × (file.staged ≡ 0)) }
        ensures idle { IfOk result (λ d. IsIdle (log_of d)) }
        ensures refused { IsTrue D.told → IfErr result
            (λ e. e.why ≡ DeviceWhy.Memory → Looks (D.view disk) (D.view e.disk)) }
        ensures cause { HasCause (D.faults disk) (D.faults (started_disk result)) (IsErrAnd result
            (λ e. e.why ≡ DeviceWhy.DiskFault)) }
    {
        let mut disk = disk;
        let Ok(ledger) = Ledger::new(alloc, regions) else {
            return Err(DeviceRefusal {
                why: DeviceWhy::Memory,
                disk,
            });
        };
        let Ok(ledger) = Box::new(alloc, ledger) else {
            return Err(DeviceRefusal {
                why: DeviceWhy::Memory,
                disk,
            });
        };
        match first_log(alloc, &mut disk) {
            Ok(log) => Ok(Device {
                disk,
                log: Some(log),
                ledger,
            }),
            Err(why) => Err(DeviceRefusal { why, disk }),
        }
    }
}

/// Begins the first log of a device. The first of its four disk calls only looks, and memory is taken before the second.
fn first_log<D: Disk>(alloc: Global, disk: &mut D) -> Result<LogFile, DeviceWhy>
    requires { IsTrue D.told
        → ∥ ((regions : List RegionBase) × (flushed : ℕ → ℕ) × IsOpened (D.view disk.old) regions flushed) ∥₁ }

    ensures any_moment { IsTrue D.told → (regions : List RegionBase) (flushed : ℕ → ℕ)
        → IsOpened (D.view disk.old) regions flushed
        → Throughout (RecoversSome (D.view disk.old).files []) 4 (D.view disk.old) (D.view disk.new) }
    ensures names { IsTrue D.told → (regions : List RegionBase) (flushed : ℕ → ℕ) (last : ℕ)
        → IsOpened (D.view disk.old) regions flushed → IsLastNumber (D.view disk.old).files last
        → Throughout (Bears (D.view disk.old).files [] (last + 1)) 4 (D.view disk.old) (D.view disk.new) }
    ensures kept { IsTrue D.told → (regions : List RegionBase) (flushed : ℕ → ℕ) (next_store : List ℕ)
        → AreRegions regions → IsOpened (D.view disk.old) regions flushed → AreNumbersOf
        (λ m. m.next_store) regions next_store → IfOk result
        (λ log. Keeps log (D.view disk.new) (started_in (D.view disk.old).files flushed) next_store) }
    ensures name { IfOk result
        (λ log. (log.name ≡ log_name log.name.number) × (1 ≤ log.name.number) × (log.name.number ≤ 2 ^ 63 + 1)) }
    ensures number { IsTrue D.told → (regions : List RegionBase) (flushed : ℕ → ℕ) (last : ℕ)
        → IsOpened (D.view disk.old) regions flushed → IsLastNumber (D.view disk.old).files last → IfOk result
        (λ log. log.name.number ≡ last + 1) }
    ensures empty { IfOk result (λ log. (log.entries ≡ 0) × (log.staged ≡ 0) × (log.bytes ≡ [])) }
    ensures refused { IsTrue D.told → IsErrOf result DeviceWhy.Memory → Looks (D.view disk.old) (D.view disk.new) }
    ensures cause { HasCause (D.faults disk.old) (D.faults disk.new) (IsErrOf result DeviceWhy.DiskFault) }
{
    let number = next_number(alloc, disk)?;
    let name = Name {
        kind: NameKind::Log,
        region: 0,
        number,
    };
    let log = LogFile::begin(alloc, disk, name)?;
    Ok(log)
}

/// One above the greatest number of a log or of an old log, where none passes 2^63, as in a store that was opened.
fn next_number<D: Disk>(alloc: Global, disk: &mut D) -> Result<u64, DeviceWhy>
    ensures above { IsTrue D.told → ((m : Name) → IsPresent (D.view disk.old).files m → m.number ≤ 2 ^ 63) → (m : Name)
        → IsPresent (D.view disk.old).files m → IfOk result (λ n. log_number m < n) }
    ensures next { IsTrue D.told → ((m : Name) → IsPresent (D.view disk.old).files m → m.number ≤ 2 ^ 63) → (last : ℕ)
        → IsLastNumber (D.view disk.old).files last → IfOk result (λ n. n ≡ last + 1) }
    ensures reached { IsTrue D.told → (limit : ℕ)
        → ((m : Name) → IsPresent (D.view disk.old).files m → log_number m ≤ limit) → IfOk result (λ n. n ≤ limit + 1) }
    ensures low { IfOk result (λ n. (1 ≤ n) × (n ≤ 2 ^ 63 + 1)) }
    ensures looks { IsTrue D.told → Looks (D.view disk.old) (D.view disk.new) }
    ensures cause { HasCause (D.faults disk.old) (D.faults disk.new) (IsErrOf result DeviceWhy.DiskFault) }
{
    let names = disk.names(alloc)?;
    let last = last_number(names.as_slice());
    Ok(last.min(LAST_NUMBER) + 1)
}

/// The greatest number of a log or of an old log, 0 where there is none.
fn last_number(names: &[Name]) -> u64
    ensures { IsGreatest (λ n. (m : Name) × Contains names.now m × (log_number m ≡ n)) result }
{
    let mut last = 0;
    for name in names {
        let number = number_of_log(name);
        if number > last {
            last = number;
        }
    }
    last
}

/// The number of a log or of an old log, 0 of another file.
fn number_of_log(name: &Name) -> u64
    ensures { result ≡ log_number name.now }
{
    match name.kind {
        NameKind::Log | NameKind::Old => name.number,
        NameKind::Store | NameKind::Edits => 0,
    }
}
