//! Closed logs that are wholly flushed go.

ghost use Rattle.std.specs.Prelude.{◌≡◌, ◌↔◌, IsTrue, IsErr};
ghost use Rattle.chronicle_model.specs.Growth.{IsGoingOn, Prolongs};
ghost use Rattle.log_ledger.specs.History.{History};
ghost use Rattle.log_device.specs.Whole.{IsBroken, files_of, HasHistory, CausesFault};
ghost use Rattle.log_device.specs.Calls.{Archives, ArchivesNumbers};

use crate::device::Device;
use crate::error::WriteFault;
use crate::renaming::rename_flushed;
use disk_images::Disk;

impl<D: Disk> Device<D> {
    /// Renames each closed log that is wholly flushed from Log to Old, the oldest first, and gives their number. It goes over
    /// the closed logs once, and takes no memory. After a fault some of the logs that may go were renamed.
    pub fn archive(&mut self) -> Result<u64, WriteFault>
        requires { IsTrue D.told → (IsBroken self.old → ⊥) → ∥ ((h : History) × HasHistory D.Disk self.old h) ∥₁ }

        // What the disk and each crash image hold, and what the numbers and the file say, on any disk.
        ensures archives { IsTrue D.told → (h : History) → HasHistory D.Disk self.old h
            → Archives D.Disk h result self.old self.new }
        ensures numbers { ArchivesNumbers result self.old self.new }

        // The logs' chronicle before the call begins the one after it, whatever it answers.
        ensures chronicle { IsTrue D.told → (h : History) → HasHistory D.Disk self.old h
            → Prolongs (files_of D.Disk self.old) (files_of D.Disk self.new) }

        // Unless the device is broken now, the highest log isn't ended: the chronicle goes on in it.
        ensures goes_on { IsTrue D.told → (h : History) → HasHistory D.Disk self.old h → (IsBroken self.new → ⊥)
            → IsGoingOn (files_of D.Disk self.new) }

        // What stays, and when it fails.
        ensures stays { IsBroken self.old → self.new ≡ self.old }
        ensures broken { IsErr result ↔ IsBroken self.new }
        ensures cause { CausesFault D.Disk self.old self.new ((IsBroken self.old → ⊥) × IsErr result) }
    {
        if self.log.is_none() {
            return Err(WriteFault);
        }
        match rename_flushed(&mut self.disk, &self.ledger) {
            Ok(()) => Ok(self.ledger.forget_flushed()),
            Err(_) => {
                self.log = None;
                Err(WriteFault)
            }
        }
    }
}
