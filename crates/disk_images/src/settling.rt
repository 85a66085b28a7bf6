//! The barrier: what reads find is what every crash leaves.

ghost use Rattle.std.specs.Prelude.{◌≡◌, ◌≢◌, ◌≤◌, ◌+◌, ℕ, List, Contains, length, IsTrue, IfOk, OnOk, IsErr, IsErrOf};
ghost use Rattle.std.specs.FinMap.{keys};
ghost use Rattle.log_model.specs.declared.name.Name.{Name as TheName};
ghost use Rattle.log_model.specs.declared.name.NameKind.TheVariants as kinds;
ghost use Rattle.log_model.specs.Files.{Files, Reads, content};
ghost use Rattle.disk_images.specs.Crash.{IsImageNow};
ghost use Rattle.disk_images.specs.Calls.{HasCause};
ghost use Rattle.disk_images.specs.Settled.{Watches, AreStanding, IsSettled};

use crate::{Disk, Failed, Name, NameKind, NameList, NamesError};
use std::alloc::Global;

/// Makes the names durable, and each file but old logs, and gives the names. No file changes. It makes two disk calls, and
/// one for each file but old logs.
pub fn barrier<D: Disk>(alloc: Global, disk: &mut D) -> Result<NameList, NamesError>
    ensures names { IsTrue D.told → IfOk result (λ names. names ≡ keys (D.view disk.old).files) }
    ensures settled { IsTrue D.told → OnOk result (IsSettled (D.view disk.new)) }
    ensures watches { IsTrue D.told → (by : ℕ) × Watches by (D.view disk.old) (D.view disk.new) }
    ensures cause { HasCause (D.faults disk.old) (D.faults disk.new) (IsErrOf result NamesError.Failed) }
{
    disk.settle()?;
    let names = disk.names(alloc)?;
    sync_files(disk, names.as_slice())?;
    Ok(names)
}

/// Syncs each of these files but old logs.
fn sync_files<D: Disk>(disk: &mut D, names: &[Name]) -> Result<(), Failed>
    requires there { IsTrue D.told → (m : TheName) → Contains names.now m → ∥ ((c : List ℕ) × Reads (D.view disk.old).files m c) ∥₁ }
    ensures standing { IsTrue D.told → OnOk result (AreStanding (D.view disk.new) names.now) }
    ensures watches { IsTrue D.told → Watches (length names.now) (D.view disk.old) (D.view disk.new) }
    ensures cause { HasCause (D.faults disk.old) (D.faults disk.new) (IsErr result) }
{
    for name in names {
        sync_file(disk, *name)?;
    }
    Ok(())
}

/// Syncs a file, unless it is an old log.
fn sync_file<D: Disk>(disk: &mut D, name: Name) -> Result<(), Failed>
    requires { IsTrue D.told → ∥ ((c : List ℕ) × Reads (D.view disk.old).files name c) ∥₁ }
    ensures standing { IsTrue D.told
        → OnOk result (name.kind ≢ kinds.Old → (J : Files) → IsImageNow (D.view disk.new) J
        → content J name ≡ content (D.view disk.new).files name) }
    ensures watches { IsTrue D.told → Watches 1 (D.view disk.old) (D.view disk.new) }
    ensures cause { HasCause (D.faults disk.old) (D.faults disk.new) (IsErr result) }
{
    match name.kind {
        NameKind::Old => Ok(()),
        NameKind::Log | NameKind::Store | NameKind::Edits => disk.sync(name),
    }
}
