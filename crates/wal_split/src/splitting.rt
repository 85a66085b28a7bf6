//! The steps of a split that change files.

ghost use Rattle.std.specs.Prelude.{◌≡◌, ℕ, Contains, None, IsTrue, OnOk, IsErrOf};
ghost use Rattle.log_model.specs.declared.name.Name.{Name as TheName};
ghost use Rattle.log_model.specs.Entry.{Entry as TheEntry};
ghost use Rattle.log_model.specs.Files.{Files, IsAbsent, content};
ghost use Rattle.recovery_laws.specs.Change.{HasText};
ghost use Rattle.disk_images.specs.Crash.{Throughout};
ghost use Rattle.disk_images.specs.Calls.{HasCause};
ghost use Rattle.recovery_laws.specs.Alike.{AllAlike};
ghost use Rattle.wal_split.specs.Held.{IsHeld};
ghost use Rattle.wal_split.specs.declared.job.EditsJob.{EditsJob as TheJob};
ghost use Rattle.wal_split.specs.Jobs.{AreJobs, AreFreeNames, AllLogged, IsNoJob};
ghost use Rattle.wal_split.specs.Logs.{AreFree, AreRising, IsOther, log_name, old_name};
ghost use Rattle.wal_split.specs.Covered.{LogsCovered};

use crate::every::write_all;
use crate::job::EditsJob;
use crate::renaming::rename_logs;
use disk_images::Disk;
use log_file::FileRefusal;
use std::alloc::Global;

/// Writes the edits files, and then renames the logs, whose entries are each flushed or stand in one of these files.
pub fn split_found<D: Disk>(
    alloc: Global,
    disk: &mut D,
    jobs: &[EditsJob],
    logs: &[u64],
) -> Result<(), FileRefusal>
    requires jobs { AreJobs jobs.now }
    requires free { IsTrue D.told → AreFreeNames (D.view disk.old) jobs.now }
    requires logs { IsTrue D.told → ∥ AreFree (D.view disk.old) logs.now ∥₁ }
    requires rising { IsTrue D.told → AreRising logs.now }

    ensures any_moment { IsTrue D.told → (base : Files) → IsHeld base (D.view disk.old) → AllLogged (D.view disk.old).files jobs.now
        → LogsCovered (D.view disk.old).files jobs.now logs.now
        → (by : ℕ) × Throughout (AllAlike base) by (D.view disk.old) (D.view disk.new) }
    ensures held { IsTrue D.told → (base : Files) → IsHeld base (D.view disk.old) → AllLogged (D.view disk.old).files jobs.now
        → LogsCovered (D.view disk.old).files jobs.now logs.now → OnOk result (IsHeld base (D.view disk.new)) }
    ensures gone { IsTrue D.told → OnOk result ((n : ℕ) → Contains logs.now n → IsAbsent (D.view disk.new).files (log_name n)) }
    ensures moved { IsTrue D.told → OnOk result ((n : ℕ) → Contains logs.now n
        → content (D.view disk.new).files (old_name n) ≡ content (D.view disk.old).files (log_name n)) }
    ensures written { IsTrue D.told → OnOk result ((j : TheJob) (e : TheEntry) → Contains jobs.now j → Contains j.entries.items e
        → HasText j.name j.entries.items None (content (D.view disk.new).files j.name)) }
    ensures others { IsTrue D.told → OnOk result ((m : TheName) → IsNoJob jobs.now m → IsOther logs.now m
        → content (D.view disk.new).files m ≡ content (D.view disk.old).files m) }
    ensures cause { HasCause (D.faults disk.old) (D.faults disk.new) (IsErrOf result FileRefusal.DiskFault) }
{
    write_all(alloc, disk, jobs)?;
    match rename_logs(disk, logs) {
        Ok(()) => Ok(()),
        Err(_) => Err(FileRefusal::DiskFault),
    }
}
