//! The edits files of a split.

ghost use Rattle.std.specs.Prelude.{◌≡◌, ◌+◌, [], ◌*◌, ℕ, length, Contains, None, IsTrue, OnOk, IsErrOf};
ghost use Rattle.log_model.specs.declared.name.Name.{Name as TheName};
ghost use Rattle.log_model.specs.declared.name.NameKind.TheVariants as kinds;
ghost use Rattle.log_model.specs.Entry.{Entry as TheEntry};
ghost use Rattle.log_model.specs.Files.{Files, content, IsAbsent, IsLogged};
ghost use Rattle.recovery_laws.specs.Change.{HasText};
ghost use Rattle.disk_images.specs.Crash.{Throughout};
ghost use Rattle.disk_images.specs.OneFile.{Touches};
ghost use Rattle.disk_images.specs.Calls.{HasCause};
ghost use Rattle.log_file.specs.Open.{AreEntriesOf};
ghost use Rattle.recovery_laws.specs.Alike.{AllAlike};
ghost use Rattle.wal_split.specs.Held.{IsHeld};
ghost use Rattle.wal_split.specs.declared.job.EditsJob.{EditsJob as TheJob};
ghost use Rattle.wal_split.specs.Jobs.{AreJobs, AreFreeNames, AllLogged, IsNoJob};

use crate::copying::write_edits;
use crate::job::EditsJob;
use disk_images::{Disk, Name};
use entry_frame::Entry;
use log_file::FileRefusal;
use std::alloc::Global;

/// Writes these edits files, but none without entries. Where each entry is logged, each image recovers as before.
pub fn write_all<D: Disk>(alloc: Global, disk: &mut D, jobs: &[EditsJob]) -> Result<(), FileRefusal>
    requires jobs { AreJobs jobs.now }
    requires free { IsTrue D.told → AreFreeNames (D.view disk.old) jobs.now }

    ensures any_moment { IsTrue D.told → (base : Files) → IsHeld base (D.view disk.old) → AllLogged (D.view disk.old).files jobs.now
        → (by : ℕ) × Throughout (AllAlike base) by (D.view disk.old) (D.view disk.new) }
    ensures held { IsTrue D.told → (base : Files) → IsHeld base (D.view disk.old) → AllLogged (D.view disk.old).files jobs.now
        → OnOk result (IsHeld base (D.view disk.new)) }
    ensures written { IsTrue D.told
        → OnOk result ((j : TheJob) (e : TheEntry) → Contains jobs.now j → Contains j.entries.items e
        → HasText j.name j.entries.items None (content (D.view disk.new).files j.name)) }
    ensures others { IsTrue D.told → OnOk result ((m : TheName) → IsNoJob jobs.now m → content (D.view disk.new).files m ≡ content (D.view disk.old).files m) }
    ensures gone { IsTrue D.told → OnOk result ((m : TheName) → (D.view disk.new).gone m → (D.view disk.old).gone m) }
    ensures cause { HasCause (D.faults disk.old) (D.faults disk.new) (IsErrOf result FileRefusal.DiskFault) }
{
    for job in jobs {
        write_some(alloc, disk, job.name, job.entries.as_slice())?;
    }
    Ok(())
}

/// Writes these entries as a new edits file, none where there are no entries.
fn write_some<D: Disk>(
    alloc: Global,
    disk: &mut D,
    name: Name,
    entries: &[Entry],
) -> Result<(), FileRefusal>
    requires absent { IsTrue D.told → IsAbsent (D.view disk.old).files name × (¬ (D.view disk.old).gone name) }
    requires kind { name.kind ≡ kinds.Edits }
    requires of { AreEntriesOf name entries.now }

    ensures any_moment { IsTrue D.told → (base : Files) → IsHeld base (D.view disk.old)
        → ((e : TheEntry) → Contains entries.now e → IsLogged (D.view disk.old).files e)
        → Throughout (AllAlike base) (7 + 4 * length entries.now) (D.view disk.old) (D.view disk.new) }
    ensures held { IsTrue D.told → (base : Files) → IsHeld base (D.view disk.old)
        → ((e : TheEntry) → Contains entries.now e → IsLogged (D.view disk.old).files e) → OnOk result (IsHeld base (D.view disk.new)) }
    ensures written { IsTrue D.told
        → OnOk result ((e : TheEntry) → Contains entries.now e → HasText name entries.now None (content (D.view disk.new).files name)) }
    ensures none { IsTrue D.told → entries.now ≡ [] → (D.view disk.new).files ≡ (D.view disk.old).files }
    ensures touches { IsTrue D.told → Touches name (D.view disk.old) (D.view disk.new) }
    ensures cause { HasCause (D.faults disk.old) (D.faults disk.new) (IsErrOf result FileRefusal.DiskFault) }
{
    if entries.is_empty() {
        return Ok(());
    }
    write_edits(alloc, disk, name, entries)
}
