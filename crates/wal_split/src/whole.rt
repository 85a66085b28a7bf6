//! The split of a store.

ghost use Rattle.std.specs.Prelude.{◌≡◌, IsTrue, IfOk, OnOk, IsErrOf};
ghost use Rattle.std.specs.FinMap.{keys};
ghost use Rattle.log_model.specs.Files.{IsFit, IsSound};
ghost use Rattle.log_model.specs.Damage.{IsDamage};
ghost use Rattle.disk_images.specs.Calls.{HasCause};
ghost use Rattle.disk_images.specs.Settled.{IsSettled};
ghost use Rattle.recovery_laws.specs.Alike.{AllAlike, StoresStand};
ghost use Rattle.found_files.specs.Found.{AreRead};
ghost use Rattle.found_files.specs.Sorted.{AreOrdered, AllAgree};
ghost use Rattle.found_files.specs.Refusal.{IfDamage};
ghost use Rattle.wal_split.specs.Held.{IsSplit};
ghost use Rattle.wal_split.specs.Moments.{During, WasOrAlike};
ghost use Rattle.wal_split.specs.Copies.{EditsCopied};
ghost use Rattle.wal_split.specs.Logs.{LogsAreOld};
ghost use Rattle.wal_split.specs.Left.{IsInRange, AreLeft, AtMostOneHigher};
ghost use Rattle.wal_split.specs.Told.{log_count, Counts, IsCounted};

use crate::planning::plan_split;
use crate::split_files::SplitFiles;
use crate::splitting::split_found;
use disk_images::Disk;
use found_files::{Finding, FoundFiles, SplitRefusal, counting_stores, find_files};
use log_file::FileRefusal;
use std::alloc::Global;

/// What a split did.
#[derive(Clone, Copy, Debug, PartialEq, Eq)]
pub struct SplitReport {
    /// How many logs were renamed.
    pub logs: u64,
    /// How many entries of logs had a cell that is not flushed, each counted once.
    pub entries: u64,
}

/// Makes the files durable and checks them, writes each entry of a log that has a cell above its family's flushed number,
/// whole, into one edits file for each region that has any, and renames the logs to old ones. Nothing is written before
/// each file was read and checked. Memory is taken for all that is read.
pub fn split<D: Disk>(alloc: Global, disk: &mut D) -> Result<SplitReport, SplitRefusal>
    // At each moment each image is one of the first moment, or is fit and recovers alike for every region.
    ensures any_moment { IsTrue D.told → During (WasOrAlike (D.view disk.old)) (D.view disk.old) (D.view disk.new) }
    ensures split { IsTrue D.told → OnOk result (IsSplit (D.view disk.new)) }
    ensures alike { IsTrue D.told → OnOk result (AllAlike (D.view disk.old).files (D.view disk.new).files) }
    ensures stores { IsTrue D.told → OnOk result (StoresStand (D.view disk.old).files (D.view disk.new).files) }
    // The edits files that are new have one number, the next one, and the entries of logs that aren't flushed.
    ensures edits { IsTrue D.told → OnOk result (EditsCopied (D.view disk.old).files (D.view disk.new).files) }
    ensures olds { IsTrue D.told → OnOk result (LogsAreOld (D.view disk.old).files (D.view disk.new).files) }
    ensures report { IsTrue D.told → IfOk result (λ report. (report.logs ≡ log_count (D.view disk.old).files) × Counts (D.view disk.old).files report.entries) }
    // Damage is told exactly where the files aren't sound.
    ensures sound { IsTrue D.told → OnOk result (IsSound (D.view disk.old).files) }
    ensures unsound { IsTrue D.told → IfDamage result (λ damage. ¬ IsSound (D.view disk.old).files) }
    ensures damaged { IsTrue D.told
        → IfDamage result (λ damage. IsDamage (D.view disk.old).files damage × ((D.view disk.new).files ≡ (D.view disk.old).files)) }
    ensures cause { HasCause (D.faults disk.old) (D.faults disk.new) (IsErrOf result SplitRefusal.DiskFault) }
{
    match split_read(alloc, disk) {
        Ok(files) => Ok(SplitReport {
            logs: files.plan.logs.len() as u64,
            entries: files.plan.entries,
        }),
        Err(e) => Err(e),
    }
}

/// The same, which hands on what was read and what was made of it.
pub fn split_read<D: Disk>(alloc: Global, disk: &mut D) -> Result<SplitFiles, SplitRefusal>
    ensures any_moment { IsTrue D.told → During (WasOrAlike (D.view disk.old)) (D.view disk.old) (D.view disk.new) }
    ensures split { IsTrue D.told → OnOk result (IsSplit (D.view disk.new)) }
    ensures alike { IsTrue D.told → OnOk result (AllAlike (D.view disk.old).files (D.view disk.new).files) }
    ensures stores { IsTrue D.told → OnOk result (StoresStand (D.view disk.old).files (D.view disk.new).files) }
    ensures edits { IsTrue D.told → OnOk result (EditsCopied (D.view disk.old).files (D.view disk.new).files) }
    ensures olds { IsTrue D.told → OnOk result (LogsAreOld (D.view disk.old).files (D.view disk.new).files) }
    ensures counts { IsTrue D.told → IfOk result (λ x. IsCounted (D.view disk.old).files x.plan) }
    // What it hands on is what the files had, and where it stands now.
    ensures in_range { IfOk result (λ x. IsInRange x) }
    ensures left { IsTrue D.told → IfOk result (λ x. AreLeft (D.view disk.new).files x) }
    ensures found { IsTrue D.told → IfOk result (λ x. x.names ≡ keys (D.view disk.old).files) }
    ensures names { IsTrue D.told → OnOk result (AtMostOneHigher (D.view disk.old).files (D.view disk.new).files) }
    ensures sound { IsTrue D.told → OnOk result (IsSound (D.view disk.old).files) }
    ensures unsound { IsTrue D.told → IfDamage result (λ damage. ¬ IsSound (D.view disk.old).files) }
    ensures damaged { IsTrue D.told
        → IfDamage result (λ damage. IsDamage (D.view disk.old).files damage × ((D.view disk.new).files ≡ (D.view disk.old).files)) }
    ensures cause { HasCause (D.faults disk.old) (D.faults disk.new) (IsErrOf result SplitRefusal.DiskFault) }
{
    match find_files(alloc, disk) {
        Ok(found) => split_files(alloc, disk, found),
        Err(e) => Err(e),
    }
}

/// Writes the edits files and renames the logs of a store whose files were read.
fn split_files<D: Disk>(
    alloc: Global,
    disk: &mut D,
    found: Finding,
) -> Result<SplitFiles, SplitRefusal>
    requires settled { IsTrue D.told → IsSettled (D.view disk.old) }
    requires fit { IsTrue D.told → IsFit (D.view disk.old).files }
    requires names { IsTrue D.told → found.names ≡ keys (D.view disk.old).files }
    requires read { AreRead (IsTrue D.told) (D.view disk.old).files found.names found.names found.files.entries.items found.files.stores.items }
    requires ordered { AreOrdered found.files.entries.items }
    requires agree { AllAgree found.files.entries.items }

    ensures any_moment { IsTrue D.told → During (AllAlike (D.view disk.old).files) (D.view disk.old) (D.view disk.new) }
    ensures split { IsTrue D.told → OnOk result (IsSplit (D.view disk.new)) }
    ensures alike { IsTrue D.told → OnOk result (AllAlike (D.view disk.old).files (D.view disk.new).files) }
    ensures stores { IsTrue D.told → OnOk result (StoresStand (D.view disk.old).files (D.view disk.new).files) }
    ensures edits { IsTrue D.told → OnOk result (EditsCopied (D.view disk.old).files (D.view disk.new).files) }
    ensures olds { IsTrue D.told → OnOk result (LogsAreOld (D.view disk.old).files (D.view disk.new).files) }
    ensures counts { IsTrue D.told → IfOk result (λ x. IsCounted (D.view disk.old).files x.plan) }
    ensures in_range { IfOk result (λ x. IsInRange x) }
    ensures left { IsTrue D.told → IfOk result (λ x. AreLeft (D.view disk.new).files x) }
    ensures found { IsTrue D.told → IfOk result (λ x. x.names ≡ keys (D.view disk.old).files) }
    ensures names { IsTrue D.told → OnOk result (AtMostOneHigher (D.view disk.old).files (D.view disk.new).files) }
    ensures undamaged { IfDamage result (λ damage. ⊥) }
    ensures cause { HasCause (D.faults disk.old) (D.faults disk.new) (IsErrOf result SplitRefusal.DiskFault) }
{
    let Finding { names, files } = found;
    let FoundFiles { entries, stores } = files;
    let stores = counting_stores(alloc, stores)?;
    let plan = plan_split(alloc, names.as_slice(), entries, &stores)?;
    match split_found(alloc, disk, &plan.jobs, &plan.logs) {
        Ok(()) => Ok(SplitFiles {
            names,
            stores,
            plan,
        }),
        Err(FileRefusal::Memory) => Err(SplitRefusal::Memory),
        Err(FileRefusal::DiskFault) => Err(SplitRefusal::DiskFault),
    }
}
