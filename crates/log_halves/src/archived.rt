//! A device's roll and flush, with the closed logs that may go after them.
ghost use Rattle.std.specs.Prelude.{◌≡◌, ◌+◌, ◌<◌, ◌≤◌, ◌↔◌, ℕ, length, Some, Err, IsTrue, IfOk, IfSome, OnOk, IsErrOf};
ghost use Rattle.std.specs.Option.{option_map};
ghost use Rattle.crossbeam_queue.specs.Passes.{view};
ghost use Rattle.disk_images.specs.Calls.{Rose};
ghost use Rattle.log_file.specs.Open.{OpenLog};
ghost use Rattle.log_ledger.specs.History.{History};
ghost use Rattle.log_ledger.specs.Numbers.{IsServed};
ghost use Rattle.log_device.specs.Whole.{IsBroken, disk_of, log_of, numbers_of, HasHistory, CausesFault};
ghost use Rattle.log_halves.specs.Numbers.{TellsLater};
ghost use Rattle.log_halves.specs.Ties.{KeepsTies, KeepsNumbers};
ghost use Rattle.log_halves.specs.Ends.{HasRolled, HasNoEntry, IsFlushedTo, HasNoneAbove};
ghost use Rattle.log_halves.specs.Steps.{FlushesDevice};
ghost use Rattle.log_halves.specs.Counts.{flushed_by, rolled_by};

use crate::committer::DeviceHalf;
use crate::name::ServiceNaming;
use crate::starting::Written;
use disk_images::Disk;
use log_device::{Device, DeviceFlush, RollRefusal, Rolled};
use std::alloc::Global;

/// Rolls, and after Ok renames the closed logs that are wholly flushed.
pub(crate) fn roll_archived<D: Disk>(
    device: &mut Device<D>,
    alloc: Global,
    written: &mut Written,
) -> Result<Rolled, RollRefusal>
    requires unbroken { IsBroken device.old → ⊥ }
    requires whole { IsTrue D.told → ∥ ((h : History) × HasHistory D.Disk device.old h) ∥₁ }

    ensures ties { IsTrue D.told → KeepsTies device.old device.new (D.view (disk_of device.old)) (D.view (disk_of device.new)) }
    ensures numbers { KeepsNumbers device.old device.new }
    // Rolled is the file that was closed, and NothingToRoll comes exactly where it has no entry.
    ensures rolled { (file : OpenLog) → log_of device.old ≡ Some file → IfOk result (λ rolled. HasRolled file rolled (log_of device.new)) }
    ensures none { (file : OpenLog) (n : ℕ) → log_of device.old ≡ Some file → result ≡ Err (RollRefusal.NothingToRoll n) → HasNoEntry file n }
    ensures empty { (file : OpenLog) → log_of device.old ≡ Some file → file.entries + file.staged ≡ 0
        → (IsBroken device.new → ⊥) → result ≡ Err (RollRefusal.NothingToRoll file.name.number) }
    ensures closed { OnOk result ((numbers_of device.new).closed ≡ (numbers_of device.new).synced) }
    ensures nothing { (n : ℕ) → result ≡ Err (RollRefusal.NothingToRoll n) → (numbers_of device.new).closed ≡ (numbers_of device.new).synced }
    ensures counted { written.new ≡ rolled_by result written.old }
    ensures broken { IsErrOf result RollRefusal.WriteFault ↔ IsBroken device.new }
    ensures cause { CausesFault D.Disk device.old device.new (IsErrOf result RollRefusal.WriteFault) }
{
    let rolled = match device.roll(alloc) {
        Ok(rolled) => rolled,
        Err(refusal) => return Err(refusal),
    };
    match device.archive() {
        Ok(_) => {
            written.count_log();
            Ok(rolled)
        }
        Err(_) => Err(RollRefusal::WriteFault),
    }
}

/// Flushes a family of a region (1 to 127 bytes), or all of them where none is given, and after Ok renames the closed logs that are wholly flushed.
pub(crate) fn flush_archived<D: Disk>(
    device: &mut Device<D>,
    alloc: Global,
    region: u32,
    family: Option<&[u8]>,
    written: &mut Written,
) -> Result<u64, DeviceFlush>
    requires unbroken { IsBroken device.old → ⊥ }
    requires served { IsServed (numbers_of device.old) region }
    requires family { IfSome family (λ f. (1 ≤ length f.now) × (length f.now ≤ 127)) }
    requires whole { IsTrue D.told → ∥ ((h : History) × HasHistory D.Disk device.old h) ∥₁ }

    ensures ties { IsTrue D.told → KeepsTies device.old device.new (D.view (disk_of device.old)) (D.view (disk_of device.new)) }
    ensures numbers { KeepsNumbers device.old device.new }
    ensures flushed { IfOk result (λ n. IsFlushedTo region (option_map (λ f. f.now) family.entry) n (numbers_of device.old) (numbers_of device.new)) }
    ensures nothing { (n : ℕ) → result ≡ Err (DeviceFlush.Nothing n) → HasNoneAbove region (option_map (λ f. f.now) family.entry) n (numbers_of device.new) }
    ensures flush { FlushesDevice D.Disk region (option_map (λ f. f.now) family.entry) result device.old device.new }
    ensures counted { written.new ≡ flushed_by result written.old }
    ensures broken { IsErrOf result DeviceFlush.WriteFault ↔ IsBroken device.new }
    ensures cause { CausesFault D.Disk device.old device.new (IsErrOf result DeviceFlush.WriteFault) }
{
    let number = match device.flush(alloc, region, family) {
        Ok(number) => number,
        Err(refusal) => return Err(refusal),
    };
    match device.archive() {
        Ok(_) => {
            written.count_store();
            Ok(number)
        }
        Err(_) => Err(DeviceFlush::WriteFault),
    }
}

impl<D: Disk, N: ServiceNaming> DeviceHalf<D, N> {
    /// Rolls, and after Ok renames the closed logs that are wholly flushed.
    pub(crate) fn roll(
        &mut self,
        alloc: Global,
        written: &mut Written,
    ) -> Result<Rolled, RollRefusal>
        requires unbroken { IsBroken self.old.device → ⊥ }
        // Rolled is the file that was closed, and NothingToRoll comes exactly where it has no entry.
        ensures rolled { (file : OpenLog) → log_of self.old.device ≡ Some file → IfOk result (λ rolled. HasRolled file rolled (log_of self.new.device)) }
        ensures none { (file : OpenLog) (n : ℕ) → log_of self.old.device ≡ Some file → result ≡ Err (RollRefusal.NothingToRoll n) → HasNoEntry file n }
        ensures empty { (file : OpenLog) → log_of self.old.device ≡ Some file → file.entries + file.staged ≡ 0
            → (IsBroken self.new.device → ⊥) → result ≡ Err (RollRefusal.NothingToRoll file.name.number) }
        ensures closed { OnOk result ((numbers_of self.new.device).closed ≡ (numbers_of self.new.device).synced) }
        ensures nothing { (n : ℕ) → result ≡ Err (RollRefusal.NothingToRoll n) → (numbers_of self.new.device).closed ≡ (numbers_of self.new.device).synced }
        ensures counted { written.new ≡ rolled_by result written.old }
        ensures broken { IsErrOf result RollRefusal.WriteFault ↔ IsBroken self.new.device }
        ensures fault { IsErrOf result RollRefusal.WriteFault → Rose (D.faults (disk_of self.old.device)) (D.faults (disk_of self.new.device)) }
        ensures later { TellsLater self.old.regions self.old.device self.new.regions self.new.device }
        ensures same { (self.new.regions ≡ self.old.regions) × (view self.new.consumer.pass ≡ view self.old.consumer.pass) }
    {
        roll_archived(&mut self.device, alloc, written)
    }

    /// Flushes a family of a region (1 to 127 bytes), or all of them where none is given, and after Ok renames the closed logs that are
    /// wholly flushed.
    pub(crate) fn flush(
        &mut self,
        alloc: Global,
        region: u32,
        family: Option<&[u8]>,
        written: &mut Written,
    ) -> Result<u64, DeviceFlush>
        requires unbroken { IsBroken self.old.device → ⊥ }
        requires region { (0 < region) × (region ≤ self.old.regions) }
        requires family { IfSome family (λ f. (1 ≤ length f.now) × (length f.now ≤ 127)) }
        ensures flushed { IfOk result (λ n. IsFlushedTo region (option_map (λ f. f.now) family.entry) n
            (numbers_of self.old.device) (numbers_of self.new.device)) }
        // Nothing comes where, after the commit, the family has no cell that isn't flushed.
        ensures nothing { (n : ℕ) → result ≡ Err (DeviceFlush.Nothing n)
            → HasNoneAbove region (option_map (λ f. f.now) family.entry) n (numbers_of self.new.device) }
        ensures flush { FlushesDevice D.Disk region (option_map (λ f. f.now) family.entry) result self.old.device self.new.device }
        ensures counted { written.new ≡ flushed_by result written.old }
        ensures broken { IsErrOf result DeviceFlush.WriteFault ↔ IsBroken self.new.device }
        ensures fault { IsErrOf result DeviceFlush.WriteFault → Rose (D.faults (disk_of self.old.device)) (D.faults (disk_of self.new.device)) }
        ensures later { TellsLater self.old.regions self.old.device self.new.regions self.new.device }
        ensures same { (self.new.regions ≡ self.old.regions) × (view self.new.consumer.pass ≡ view self.old.consumer.pass) }
    {
        flush_archived(&mut self.device, alloc, region, family, written)
    }
}
