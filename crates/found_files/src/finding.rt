//! What an opening finds.

ghost use Rattle.std.specs.Prelude.{◌≡◌, ◌↔◌, Contains, IsTrue, IfOk, IfErr, OnOk, IsErrOf};
ghost use Rattle.std.specs.FinMap.{keys};
ghost use Rattle.log_model.specs.Files.{IsSound};
ghost use Rattle.log_model.specs.Damage.{IsDamage};
ghost use Rattle.disk_images.specs.Calls.{HasCause};
ghost use Rattle.disk_images.specs.Settled.{IsSettled};
ghost use Rattle.found_files.specs.declared.found.FoundEntry.{FoundEntry as TheFound};
ghost use Rattle.found_files.specs.Found.{AreRead};
ghost use Rattle.found_files.specs.Sorted.{AreOrdered, AllAgree, IsFirstPairOf};
ghost use Rattle.found_files.specs.Refusal.{IfDamage};
ghost use Rattle.found_files.specs.Watching.{OnlyWatches};

use crate::agreeing::{first_disagreement, sort_entries};
use crate::by_region::by_region;
use crate::checking::read_checked;
use crate::found::{Finding, FoundFiles};
use crate::refusal::SplitRefusal;
use disk_images::{Disk, barrier};
use std::alloc::Global;

/// Makes the names and the files but old logs durable, and reads and checks each file. Nothing is written. Damage is told
/// exactly where the files aren't sound.
pub fn find_files<D: Disk>(alloc: Global, disk: &mut D) -> Result<Finding, SplitRefusal>
    ensures settled { IsTrue D.told → OnOk result (IsSettled (D.view disk.new)) }
    ensures names { IsTrue D.told → IfOk result (λ found. found.names ≡ keys (D.view disk.old).files) }
    ensures read { IfOk result
        (λ found. AreRead (IsTrue D.told) (D.view disk.old).files found.names found.names found.files.entries.items found.files.stores.items) }
    ensures ordered { IfOk result (λ found. AreOrdered found.files.entries.items) }
    ensures agree { IfOk result (λ found. AllAgree found.files.entries.items) }
    ensures sound { IsTrue D.told → OnOk result (IsSound (D.view disk.old).files) }
    ensures unsound { IsTrue D.told → IfDamage result (λ damage. ¬ IsSound (D.view disk.old).files) }
    ensures damaged { IsTrue D.told → IfDamage result (IsDamage (D.view disk.old).files) }
    ensures watches { IsTrue D.told → OnlyWatches (D.view disk.old) (D.view disk.new) }
    ensures cause { HasCause (D.faults disk.old) (D.faults disk.new) (IsErrOf result SplitRefusal.DiskFault) }
{
    let names = barrier(alloc, disk)?;
    let files = read_checked(alloc, disk, names.as_slice())?;
    let files = in_agreement(alloc, files)?;
    Ok(Finding { names, files })
}

/// The same files with their entries in order, or the first two of them that differ.
pub(crate) fn in_agreement(alloc: Global, files: FoundFiles) -> Result<FoundFiles, SplitRefusal>
    ensures ordered { IfOk result (λ found. AreOrdered found.entries.items) }
    ensures agree { IfOk result (λ found. AllAgree found.entries.items) }
    ensures same { IfOk result (λ found. (x : TheFound) → Contains found.entries.items x ↔ Contains files.entries.items x) }
    ensures stores { IfOk result (λ found. found.stores.items ≡ files.stores.items) }
    ensures differ { IfDamage result (IsFirstPairOf files.entries.items) }
    ensures no_fault { IsErrOf result SplitRefusal.DiskFault → ⊥ }
{
    let files = in_order(alloc, files)?;
    match first_disagreement(&files.entries) {
        Some(damage) => Err(SplitRefusal::Damaged(damage)),
        None => Ok(files),
    }
}

/// The same files with their entries in the order of regions, numbers and names.
fn in_order(alloc: Global, files: FoundFiles) -> Result<FoundFiles, SplitRefusal>
    ensures ordered { IfOk result (λ found. AreOrdered found.entries.items) }
    ensures same { IfOk result (λ found. (x : TheFound) → Contains found.entries.items x ↔ Contains files.entries.items x) }
    ensures stores { IfOk result (λ found. found.stores.items ≡ files.stores.items) }
    ensures memory { IfErr result (λ e. e ≡ SplitRefusal.Memory) }
{
    let FoundFiles { entries, stores } = files;
    let mut entries = by_region(alloc, entries)?;
    sort_entries(&mut entries)?;
    Ok(FoundFiles { entries, stores })
}
