//! From one log file to the next.

ghost use Rattle.std.specs.Prelude.{◌≡◌, ◌⊎◌, ◌≤◌, ◌<◌, ◌+◌, ◌^◌, ◌↔◌, ℕ, [], sum, Some, None, Ok, Err, IsTrue, IfOk, OnOk, OnErr, IsErr, IsErrOf};
ghost use Rattle.chronicle_model.specs.Growth.{AppendsTo, IsGoingOn, Prolongs};
ghost use Rattle.log_file.specs.Open.{OpenLog};
ghost use Rattle.log_ledger.specs.History.{History, closed_in};
ghost use Rattle.log_device.specs.Bears.{Bears};
ghost use Rattle.log_device.specs.Keeps.{Between, IsInOrder, log_name};
ghost use Rattle.log_device.specs.Whole.{IsBroken, IsAtRest, Breaks, IsIdle, IsBegunAfter, log_of, numbers_of, files_of, HasHistory, EachImage, CausesFault, OnlyCommits, disk_of};
ghost use Rattle.log_device.specs.Calls.{Rolls, RollsFrom, RollsNumbers, BeginsNext, BeginsNextNumbers};

use crate::device::Device;
use crate::error::{RollRefusal, Rolled, WriteFault};
use crate::next::next_log;
use disk_images::{Disk, Name, NameKind};
use log_file::Stage;
use std::alloc::Global;

impl<D: Disk> Device<D> {
    /// Commits all that is staged, ends the current file, and begins the next one, in eleven disk calls at most. The closed
    /// file holds exactly the entries staged into it, all durable, and its end frame, before the next file's first byte is
    /// written. `NothingToRoll` comes exactly where the file has no entry after the commit, `Memory` after the commit and
    /// before any other disk call.
    pub fn roll(&mut self, alloc: Global) -> Result<Rolled, RollRefusal>
        requires { IsTrue D.told → (IsBroken self.old → ⊥) → ∥ ((h : History) × HasHistory D.Disk self.old h) ∥₁ }

        // What the disk and each crash image hold, and what the numbers and the file say, on any disk.
        ensures rolls { IsTrue D.told → (h : History) → HasHistory D.Disk self.old h
            → Rolls D.Disk h result self.old self.new }
        ensures numbers { RollsNumbers result self.old self.new }

        // The logs' chronicle before the call begins the one after it, whatever it answers.
        ensures chronicle { IsTrue D.told → (h : History) → HasHistory D.Disk self.old h
            → Prolongs (files_of D.Disk self.old) (files_of D.Disk self.new) }

        // Unless the device is broken now, the highest log isn't ended: the chronicle goes on in it.
        ensures goes_on { IsTrue D.told → (h : History) → HasHistory D.Disk self.old h → (IsBroken self.new → ⊥)
            → IsGoingOn (files_of D.Disk self.new) }

        // What stays, and when it fails.
        ensures stays { IsBroken self.old → self.new ≡ self.old }
        ensures memory { IsErrOf result RollRefusal.Memory → OnlyCommits D.Disk self.old self.new }
        ensures broken { IsErrOf result RollRefusal.WriteFault ↔ IsBroken self.new }
        ensures cause { CausesFault D.Disk self.old self.new ((IsBroken self.old → ⊥)
            × IsErrOf result RollRefusal.WriteFault) }
    {
        self.sync()?;
        self.roll_committed(alloc)
    }

    /// Rolls a log in which nothing is staged.
    fn roll_committed(&mut self, alloc: Global) -> Result<Rolled, RollRefusal>
        requires { IsAtRest D.Disk self.old }

        ensures rolls { IsTrue D.told → (h : History) → HasHistory D.Disk self.old h → h.kept.staged ≡ []
            → RollsFrom D.Disk 7 [] h result self.old self.new }
        ensures numbers { RollsNumbers result self.old self.new }
        ensures appends { IsTrue D.told → (h : History) (file : OpenLog) → HasHistory D.Disk self.old h
            → log_of self.old ≡ Some file → h.kept.staged ≡ []
            → AppendsTo file.name.number (files_of D.Disk self.old) (files_of D.Disk self.new) }
        ensures memory { IsErrOf result RollRefusal.Memory → disk_of self.new ≡ disk_of self.old }
        ensures breaks { Breaks D.Disk (IsErrOf result RollRefusal.WriteFault) self.old self.new }
    {
        let (file, entries) = self.current();
        let ledger = &mut *self.ledger;
        if entries == 0 {
            ledger.close_empty();
            return Err(RollRefusal::NothingToRoll { file });
        }
        let stage = Stage::new(alloc)?;
        ledger.reserve_file()?;
        self.begin_next(stage)?;
        Ok(Rolled {
            closed: file,
            entries,
        })
    }

    /// The number of the current file, and how many entries it has.
    fn current(&self) -> (u64, u64)
        ensures { (file : OpenLog) → log_of self.now ≡ Some file → result ≡ (file.name.number, file.entries) }
    {
        match &self.log {
            Some(log) => (log.name().number, log.entries()),
            None => (0, 0),
        }
    }

    /// Ends the current file, which has an entry, and begins the next one with this stage.
    fn begin_next(&mut self, stage: Stage) -> Result<(), WriteFault>
        requires rest { IsAtRest D.Disk self.old }
        requires some { (file : OpenLog) → log_of self.old ≡ Some file → 0 < file.entries }
        requires room { 1 ≤ (numbers_of self.old).accounts.room }
        requires small { sum (numbers_of self.old).drawn < 2 ^ 55 }

        ensures begins { IsTrue D.told → (h : History) (file : OpenLog) → HasHistory D.Disk self.old h → log_of self.old ≡ Some file
            → h.kept.staged ≡ [] → BeginsNext D.Disk h file result self.old self.new }
        ensures numbers { BeginsNextNumbers result self.old self.new }
        ensures breaks { Breaks D.Disk (IsErr result) self.old self.new }
    {
        let Some(log) = self.log.take() else {
            return Err(WriteFault);
        };
        let number = log.name().number;
        let next = Name {
            kind: NameKind::Log,
            region: 0,
            number: number + 1,
        };
        match next_log(&mut self.disk, log, next, stage) {
            Ok(log) => {
                self.log = Some(log);
                self.ledger.close(number);
                Ok(())
            }
            Err(_) => Err(WriteFault),
        }
    }
}
