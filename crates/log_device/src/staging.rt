//! Entries are staged, and made durable.

ghost use Rattle.std.specs.Prelude.{◌≡◌, ◌≤◌, ◌<◌, ◌+◌, ◌↔◌, ◌++◌, ℕ, [], length, get_or, Some, None, Ok, IsTrue, IfOk, IfErr, OnOk, OnErr, IsErr};
ghost use Rattle.log_model.specs.Entry.{Entry};
ghost use Rattle.chronicle_model.specs.Growth.{AppendsTo, IsGoingOn, Prolongs};
ghost use Rattle.log_file.specs.Open.{OpenLog};
ghost use Rattle.log_trucks.specs.Held.{Carries};
ghost use Rattle.log_ledger.specs.History.{History, committed_in};
ghost use Rattle.log_ledger.specs.Numbers.{IsServed, AreInOrder};
ghost use Rattle.recovery_laws.specs.Kept.{committed};
ghost use Rattle.log_device.specs.Bears.{Bears};
ghost use Rattle.log_device.specs.Keeps.{Between};
ghost use Rattle.log_device.specs.Whole.{IsBroken, Breaks, IsCommitted, IsIdle, disk_of, log_of, numbers_of, files_of, HasHistory, EachImage, CausesFault};
ghost use Rattle.log_device.specs.Calls.{Stages, StagesNumbers, Syncs, SyncsNumbers};

use crate::device::Device;
use crate::error::{StageFull, WriteFault};
use disk_images::Disk;
use log_trucks::Truck;

impl<D: Disk> Device<D> {
    /// Stages an entry of a region that the device serves, with a number above all that the region had. No file changes,
    /// and no memory is taken. It is refused exactly where the staged bytes, these and one gate byte pass 4,194,304, and
    /// on a broken device, which has no stage; then nothing changes, and the truck comes back.
    pub fn stage(&mut self, truck: Box<Truck>) -> Result<(), StageFull>
        requires served { IsServed (numbers_of self.old) truck.value.region }
        requires alone { truck.value.behind ≡ [] }
        requires entry { ∥ ((e : Entry) × Carries truck.value e) ∥₁ }
        requires above { get_or (numbers_of self.old).drawn truck.value.region 0 < truck.value.number }

        // What the device has after it, and what its numbers and its file say, on any disk.
        ensures stages { IsTrue D.told → (h : History) → HasHistory D.Disk self.old h
            → Stages D.Disk h truck.value result self.old self.new }
        ensures numbers { StagesNumbers truck.value result self.old self.new }

        // What stays.
        ensures same { OnErr result (self.new ≡ self.old) }
        ensures truck { IfErr result (λ full. full.truck ≡ truck) }

        // When it fails.
        ensures full { (file : OpenLog) → log_of self.old ≡ Some file
            → IsErr result ↔ (4194304 < length file.bytes + length truck.value.bytes + 1) }
        ensures broken { IsBroken self.old → IsErr result }
    {
        let Some(log) = &mut self.log else {
            return Err(StageFull { truck });
        };
        match log.stage(&truck.bytes) {
            Ok(()) => {
                self.ledger.stage(truck);
                Ok(())
            }
            Err(_) => Err(StageFull { truck }),
        }
    }

    /// Makes all that is staged durable, in four disk calls however many entries there are, and in none where there are
    /// none; it gives their number, and takes no memory.
    pub fn sync(&mut self) -> Result<u64, WriteFault>
        requires { IsTrue D.told → (IsBroken self.old → ⊥) → ∥ ((h : History) × HasHistory D.Disk self.old h) ∥₁ }

        // What the disk and each crash image hold, and what the numbers and the file say, on any disk.
        ensures syncs { IsTrue D.told → (h : History) → HasHistory D.Disk self.old h
            → Syncs D.Disk h result self.old self.new }
        ensures numbers { SyncsNumbers result self.old self.new }

        ensures order { OnOk result (AreInOrder (numbers_of self.old)) }

        // The current log is longer by what was committed, the lower ones stay; so the logs' chronicle before the call begins the one after
        // it, whatever it answers.
        ensures appends { IsTrue D.told → (h : History) (file : OpenLog) → HasHistory D.Disk self.old h
            → log_of self.old ≡ Some file
            → AppendsTo file.name.number (files_of D.Disk self.old) (files_of D.Disk self.new) }
        ensures chronicle { IsTrue D.told → (h : History) → HasHistory D.Disk self.old h
            → Prolongs (files_of D.Disk self.old) (files_of D.Disk self.new) }

        // Unless the device is broken now, the highest log isn't ended: the chronicle goes on in it.
        ensures goes_on { IsTrue D.told → (h : History) → HasHistory D.Disk self.old h → (IsBroken self.new → ⊥)
            → IsGoingOn (files_of D.Disk self.new) }

        // What stays, and when it fails.
        ensures stays { IsBroken self.old → self.new ≡ self.old }
        ensures broken { IsErr result ↔ IsBroken self.new }
        ensures cause { CausesFault D.Disk self.old self.new ((IsBroken self.old → ⊥) × IsErr result) }
    {
        let Some(log) = &mut self.log else {
            return Err(WriteFault);
        };
        match log.commit(&mut self.disk) {
            Ok(count) => {
                self.ledger.commit();
                Ok(count)
            }
            Err(_) => {
                self.log = None;
                Err(WriteFault)
            }
        }
    }
}
