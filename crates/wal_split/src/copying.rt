//! Copies of logged entries go into an edits file.

ghost use Rattle.std.specs.Prelude.{◌≡◌, ◌+◌, ◌*◌, ◌++◌, ◌∷◌, [], List, Contains, None, length, IsTrue, OnOk, IsErr, IsErrOf};
ghost use Rattle.log_model.specs.declared.name.NameKind.TheVariants as kinds;
ghost use Rattle.log_model.specs.Entry.{Entry as TheEntry};
ghost use Rattle.log_model.specs.LogText.{IsEntryOf, in_version};
ghost use Rattle.log_model.specs.Files.{Files, content, IsAbsent, IsLogged, key_of};
ghost use Rattle.recovery_laws.specs.Change.{HasText};
ghost use Rattle.disk_images.specs.Crash.{Throughout, OnlyAt};
ghost use Rattle.disk_images.specs.OneFile.{Touches};
ghost use Rattle.disk_images.specs.Calls.{HasCause};
ghost use Rattle.log_file.specs.Open.{AreEntriesOf, IsOpen, IsStaged};
ghost use Rattle.log_file.specs.Calls.{IsSameFile};
ghost use Rattle.recovery_laws.specs.Alike.{AllAlike};
ghost use Rattle.wal_split.specs.Held.{IsHeld};
ghost use Rattle.wal_split.specs.Some.{HasSome};
ghost use Rattle.wal_split.specs.Copied.{AreIn};

use disk_images::{Disk, Name};
use entry_frame::Entry;
use log_file::{DiskFault, FileRefusal, LogFile};
use std::alloc::Global;

/// Writes these entries as a new edits file. Where each of them is logged, each image recovers as before.
pub fn write_edits<D: Disk>(
    alloc: Global,
    disk: &mut D,
    name: Name,
    entries: &[Entry],
) -> Result<(), FileRefusal>
    requires absent { IsTrue D.told → IsAbsent (D.view disk.old).files name × (¬ (D.view disk.old).gone name) }
    requires kind { name.kind ≡ kinds.Edits }
    requires of { AreEntriesOf name entries.now }

    ensures any_moment { IsTrue D.told → (base : Files) → IsHeld base (D.view disk.old)
        → ((e : TheEntry) → Contains entries.now e → IsLogged (D.view disk.old).files e)
        → Throughout (AllAlike base) (7 + 4 * length entries.now) (D.view disk.old) (D.view disk.new) }
    ensures held { IsTrue D.told → (base : Files) → IsHeld base (D.view disk.old)
        → ((e : TheEntry) → Contains entries.now e → IsLogged (D.view disk.old).files e) → OnOk result (IsHeld base (D.view disk.new)) }
    ensures written { IsTrue D.told → OnOk result (HasText name entries.now None (content (D.view disk.new).files name)) }
    ensures touches { IsTrue D.told → Touches name (D.view disk.old) (D.view disk.new) }
    ensures cause { HasCause (D.faults disk.old) (D.faults disk.new) (IsErrOf result FileRefusal.DiskFault) }
{
    let mut log = LogFile::begin(alloc, disk, name)?;
    add_entries(disk, &mut log, entries)?;
    log.commit(disk)?;
    Ok(())
}

/// Puts entries into a file that has none, each as the bytes that it was read from. It takes no memory.
fn add_entries<D: Disk>(disk: &mut D, log: &mut LogFile, entries: &[Entry]) -> Result<(), DiskFault>
    requires of { AreEntriesOf log.old.name entries.now }
    requires empty { IsStaged log.old [] }
    requires open { IsTrue D.told → IsOpen log.old (D.view disk.old) [] }

    ensures added { IsTrue D.told → OnOk result (AreIn log.new (D.view disk.new) entries.now) }
    ensures any_moment { IsTrue D.told
        → Throughout (OnlyAt log.old.name (HasSome log.old.name entries.now) (D.view disk.old)) (4 * length entries.now) (D.view disk.old) (D.view disk.new) }
    ensures name { log.new.name ≡ log.old.name }
    ensures touches { IsTrue D.told → Touches log.old.name (D.view disk.old) (D.view disk.new) }
    ensures cause { HasCause (D.faults disk.old) (D.faults disk.new) (IsErr result) }
{
    for entry in entries {
        add_entry(disk, log, entry)?;
    }
    Ok(())
}

/// Puts one more entry in. Where it doesn't fit the stage, what is staged is committed first.
fn add_entry<D: Disk>(disk: &mut D, log: &mut LogFile, entry: &Entry) -> Result<(), DiskFault>
    requires of { IsEntryOf (in_version 2 (key_of log.old.name)) entry.now }
    requires open { IsTrue D.told → ∥ ((entries : List TheEntry) × AreIn log.old (D.view disk.old) entries) ∥₁ }

    ensures added { IsTrue D.told → (entries : List TheEntry) → AreIn log.old (D.view disk.old) entries
        → OnOk result (AreIn log.new (D.view disk.new) (entries ++ entry.now ∷ [])) }
    ensures any_moment { IsTrue D.told → (entries : List TheEntry) → AreIn log.old (D.view disk.old) entries
        → Throughout (OnlyAt log.old.name (HasSome log.old.name entries) (D.view disk.old)) 4 (D.view disk.old) (D.view disk.new) }
    ensures name { log.new.name ≡ log.old.name }
    ensures touches { IsTrue D.told → Touches log.old.name (D.view disk.old) (D.view disk.new) }
    ensures cause { HasCause (D.faults disk.old) (D.faults disk.new) (IsErr result) }
{
    match log.stage(entry.bytes()) {
        Ok(()) => Ok(()),
        Err(_) => add_behind(disk, log, entry),
    }
}

/// Commits what is staged, and puts one more entry in.
fn add_behind<D: Disk>(disk: &mut D, log: &mut LogFile, entry: &Entry) -> Result<(), DiskFault>
    requires of { IsEntryOf (in_version 2 (key_of log.old.name)) entry.now }
    requires open { IsTrue D.told → ∥ ((entries : List TheEntry) × AreIn log.old (D.view disk.old) entries) ∥₁ }

    ensures added { IsTrue D.told → (entries : List TheEntry) → AreIn log.old (D.view disk.old) entries
        → OnOk result (AreIn log.new (D.view disk.new) (entries ++ entry.now ∷ [])) }
    ensures any_moment { IsTrue D.told → (entries : List TheEntry) → AreIn log.old (D.view disk.old) entries
        → Throughout (OnlyAt log.old.name (HasSome log.old.name entries) (D.view disk.old)) 4 (D.view disk.old) (D.view disk.new) }
    ensures name { log.new.name ≡ log.old.name }
    ensures touches { IsTrue D.told → Touches log.old.name (D.view disk.old) (D.view disk.new) }
    ensures cause { HasCause (D.faults disk.old) (D.faults disk.new) (IsErr result) }
{
    log.commit(disk)?;
    stage_into_empty(log, entry);
    Ok(())
}

/// Stages an entry where nothing is staged, so that it fits.
fn stage_into_empty(log: &mut LogFile, entry: &Entry)
    requires of { IsEntryOf (in_version 2 (key_of log.old.name)) entry.now }
    requires empty { IsStaged log.old [] }
    ensures staged { IsStaged log.new (entry.now ∷ []) }
    ensures same_file { IsSameFile log.old log.new }
{
    match log.stage(entry.bytes()) {
        Ok(()) => {}
        Err(_) => unreachable!(),
    }
}
