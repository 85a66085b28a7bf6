//! The whole opening of a store.

ghost use Rattle.std.specs.Prelude.{◌≡◌, ◌≤◌, ◌+◌, ℕ, Contains, length, IsTrue, IfOk, OnOk, IsErrOf};
ghost use Rattle.log_model.specs.declared.name.Name.{Name as TheName};
ghost use Rattle.log_model.specs.declared.name.NameKind.TheVariants as kinds;
ghost use Rattle.log_model.specs.Files.{Files, IsPresent, IsSound, content};
ghost use Rattle.log_model.specs.Damage.{IsDamage};
ghost use Rattle.disk_images.specs.Calls.{HasCause};
ghost use Rattle.recovery_laws.specs.Alike.{AllAlike, StoresStand};
ghost use Rattle.found_files.specs.Refusal.{IfDamage};
ghost use Rattle.wal_split.specs.Held.{IsSplit};
ghost use Rattle.wal_split.specs.Left.{IsInRange, AreLeft};
ghost use Rattle.wal_split.specs.Logs.{LogsAreOld};
ghost use Rattle.wal_split.specs.Moments.{During, WasOrAlike};
ghost use Rattle.region_replay.specs.Cleared.{IsReady};
ghost use Rattle.region_replay.specs.Opened.{AreOf, AreStoresReplayed, AtMostOneHigher};

use crate::found::Recovered;
use crate::grouping::regions_of;
use crate::whole::replay_all;
use disk_images::Disk;
use found_files::SplitRefusal;
use log_file::FileRefusal;
use std::alloc::Global;
use wal_split::{SplitFiles, split_read};

/// Opens a store: makes its files durable and checks them, splits its logs, replays each region, and makes durable that no
/// log and no edits file is left. Each file is read once. A crash at any moment is answered by opening again.
pub fn recover_all<D: Disk>(alloc: Global, disk: &mut D) -> Result<Recovered, SplitRefusal>
    // At each moment each image is one of the first moment, or is fit and recovers alike for every region.
    ensures any_moment { IsTrue D.told → During (WasOrAlike (D.view disk.old)) (D.view disk.old) (D.view disk.new) }
    ensures ready { IsTrue D.told → OnOk result (IsReady (D.view disk.new)) }
    ensures alike { IsTrue D.told → OnOk result (AllAlike (D.view disk.old).files (D.view disk.new).files) }
    // Each log is an old log now, with its bytes.
    ensures olds { IsTrue D.told → OnOk result (LogsAreOld (D.view disk.old).files (D.view disk.new).files) }
    // A name's number is at most one above the greatest one found.
    ensures names { IsTrue D.told → OnOk result (AtMostOneHigher (D.view disk.old).files (D.view disk.new).files) }
    ensures regions { IfOk result (λ xs. length xs ≡ 64) }
    ensures recovered { IsTrue D.told → IfOk result (λ xs. AreOf (D.view disk.old).files (D.view disk.new).files 1 xs) }
    // What it stores of a region goes from one above the region's flushed sequence id to the last one, under the region's
    // next number.
    ensures stored { IsTrue D.told → IfOk result (λ xs. AreStoresReplayed (D.view disk.old).files (D.view disk.new).files 1 xs) }
    // Damage is told exactly where the files aren't sound.
    ensures sound { IsTrue D.told → OnOk result (IsSound (D.view disk.old).files) }
    ensures unsound { IsTrue D.told → IfDamage result (λ damage. ¬ IsSound (D.view disk.old).files) }
    ensures damaged { IsTrue D.told
        → IfDamage result (λ damage. IsDamage (D.view disk.old).files damage × ((D.view disk.new).files ≡ (D.view disk.old).files)) }
    ensures cause { HasCause (D.faults disk.old) (D.faults disk.new) (IsErrOf result SplitRefusal.DiskFault) }
{
    match split_read(alloc, disk) {
        Ok(split) => recover_split(alloc, disk, split),
        Err(e) => Err(e),
    }
}

/// Replays each region of a store that was split, from what the split handed on.
fn recover_split<D: Disk>(
    alloc: Global,
    disk: &mut D,
    split: SplitFiles,
) -> Result<Recovered, SplitRefusal>
    requires range { IsInRange split }
    requires left { IsTrue D.told → AreLeft (D.view disk.old).files split }
    requires split { IsTrue D.told → IsSplit (D.view disk.old) }

    ensures any_moment { IsTrue D.told → During (AllAlike (D.view disk.old).files) (D.view disk.old) (D.view disk.new) }
    ensures ready { IsTrue D.told → OnOk result (IsReady (D.view disk.new)) }
    ensures alike { IsTrue D.told → OnOk result (AllAlike (D.view disk.old).files (D.view disk.new).files) }
    ensures olds { IsTrue D.told → OnOk result ((m : TheName) → m.kind ≡ kinds.Old
        → content (D.view disk.new).files m ≡ content (D.view disk.old).files m) }
    ensures names { IsTrue D.told → OnOk result ((n : ℕ) → ((m : TheName) → IsPresent (D.view disk.old).files m → m.number ≤ n + 1)
        → ((m : TheName) → Contains split.names m → m.number ≤ n)
        → (m : TheName) → IsPresent (D.view disk.new).files m → m.number ≤ n + 1) }
    ensures regions { IfOk result (λ xs. length xs ≡ 64) }
    ensures recovered { IsTrue D.told → (old : Files) → AllAlike old (D.view disk.old).files
        → IfOk result (λ xs. AreOf old (D.view disk.new).files 1 xs) }
    ensures stored { IsTrue D.told → (old : Files) → StoresStand old (D.view disk.old).files
        → IfOk result (λ xs. AreStoresReplayed old (D.view disk.new).files 1 xs) }
    ensures undamaged { IfDamage result (λ damage. ⊥) }
    ensures cause { HasCause (D.faults disk.old) (D.faults disk.new) (IsErrOf result SplitRefusal.DiskFault) }
{
    let regions = regions_of(alloc, split)?;
    match replay_all(alloc, disk, regions) {
        Ok(replayed) => Ok(Recovered::of(replayed)),
        Err(FileRefusal::Memory) => Err(SplitRefusal::Memory),
        Err(FileRefusal::DiskFault) => Err(SplitRefusal::DiskFault),
    }
}
