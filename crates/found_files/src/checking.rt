//! Reading and checking the files of a store.

ghost use Rattle.std.specs.Prelude.{◌≡◌, ℕ, List, IsTrue, IfOk, OnOk, IsErrOf};
ghost use Rattle.std.specs.FinMap.{keys};
ghost use Rattle.log_model.specs.declared.name.Name.{Name as TheName};
ghost use Rattle.log_model.specs.Files.{Reads, IsSound};
ghost use Rattle.log_model.specs.Damage.{IsDamage};
ghost use Rattle.disk_images.specs.Calls.{HasCause};
ghost use Rattle.found_files.specs.Names.{AreOldNumbers};
ghost use Rattle.found_files.specs.Found.{AreRead};
ghost use Rattle.found_files.specs.Checked.{ReadsFile, ReadsOne, TellsOne};
ghost use Rattle.found_files.specs.Refusal.{IfDamage, IsDamageAt};
ghost use Rattle.found_files.specs.Watching.{OnlyWatches};

use crate::found::FoundFiles;
use crate::names::{is_bad, old_numbers};
use crate::reading::{read_entries, read_found_store};
use crate::refusal::SplitRefusal;
use disk_images::{Disk, Name, NameKind};
use log_model::Damage;
use std::alloc::Global;

/// Reads each log, edits and store file once, in the order of their names, up to the first that is damaged.
pub(crate) fn read_checked<D: Disk>(
    alloc: Global,
    disk: &mut D,
    names: &[Name],
) -> Result<FoundFiles, SplitRefusal>
    requires names { IsTrue D.told → names.now ≡ keys (D.view disk.old).files }

    ensures read { IfOk result (λ found. AreRead (IsTrue D.told) (D.view disk.old).files names.now names.now found.entries.items found.stores.items) }
    ensures damaged { IsTrue D.told → IfDamage result (IsDamage (D.view disk.old).files) }
    ensures unsound { IsTrue D.told → IfDamage result (λ damage. ¬ IsSound (D.view disk.old).files) }
    ensures watches { IsTrue D.told → OnlyWatches (D.view disk.old) (D.view disk.new) }
    ensures cause { HasCause (D.faults disk.old) (D.faults disk.new) (IsErrOf result SplitRefusal.DiskFault) }
{
    let olds = old_numbers(alloc, names)?;
    let mut found = FoundFiles::new(alloc);
    for name in names {
        read_one(alloc, disk, *name, &olds, &mut found)?;
    }
    Ok(found)
}

/// Reads and checks one file: its name first. Of an old log the name alone is checked.
fn read_one<D: Disk>(
    alloc: Global,
    disk: &mut D,
    name: Name,
    olds: &[u64],
    found: &mut FoundFiles,
) -> Result<(), SplitRefusal>
    requires there { IsTrue D.told → ∥ ((c : List ℕ) × Reads (D.view disk.old).files name c) ∥₁ }

    ensures read { (names : List TheName) → AreOldNumbers names olds.now
        → OnOk result (ReadsOne (IsTrue D.told) (D.view disk.old).files names name found.old found.new) }
    ensures damaged { IsTrue D.told → (names : List TheName) → AreOldNumbers names olds.now → IfDamage result (TellsOne (D.view disk.old).files names name) }
    ensures watches { IsTrue D.told → OnlyWatches (D.view disk.old) (D.view disk.new) }
    ensures cause { HasCause (D.faults disk.old) (D.faults disk.new) (IsErrOf result SplitRefusal.DiskFault) }
{
    if is_bad(name, olds) {
        return Err(SplitRefusal::Damaged(Damage::Bytes { name, at: 0 }));
    }
    read_file(alloc, disk, name, found)
}

/// Reads and checks the bytes of one file, but of an old log.
pub(crate) fn read_file<D: Disk>(
    alloc: Global,
    disk: &mut D,
    name: Name,
    found: &mut FoundFiles,
) -> Result<(), SplitRefusal>
    requires there { IsTrue D.told → ∥ ((c : List ℕ) × Reads (D.view disk.old).files name c) ∥₁ }

    ensures read { OnOk result (ReadsFile (IsTrue D.told) (D.view disk.old).files name found.old found.new) }
    ensures damaged { IsTrue D.told → IfDamage result (IsDamageAt (D.view disk.old).files name) }
    ensures watches { IsTrue D.told → OnlyWatches (D.view disk.old) (D.view disk.new) }
    ensures cause { HasCause (D.faults disk.old) (D.faults disk.new) (IsErrOf result SplitRefusal.DiskFault) }
{
    match name.kind {
        NameKind::Log | NameKind::Edits => { read_entries(alloc, disk, name, &mut found.entries) }
        NameKind::Store => read_found_store(alloc, disk, name, &mut found.stores),
        NameKind::Old => Ok(()),
    }
}
