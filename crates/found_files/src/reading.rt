//! Reading one file of a store.

ghost use Rattle.std.specs.Prelude.{◌≡◌, ◌<◌, ◌+◌, ◌^◌, ◌++◌, ℕ, List, length, IsTrue, OnOk, IsErr, IsErrOf};
ghost use Rattle.log_model.specs.declared.name.NameKind.TheVariants as kinds;
ghost use Rattle.log_model.specs.Files.{Reads, HoldsEntries};
ghost use Rattle.disk_images.specs.Calls.{HasCause};
ghost use Rattle.found_files.specs.Found.{placed, ReadsEntries, ReadsStore};
ghost use Rattle.found_files.specs.Refusal.{IfDamage, IsDamageAt};
ghost use Rattle.found_files.specs.Watching.{OnlyWatches};

use crate::found::{FoundEntry, FoundStore};
use crate::refusal::SplitRefusal;
use disk_images::{Disk, Failed, Name};
use entry_frame::Entry;
use kv_cell::NoMemory;
use log_file::{ReadRefusal, read_log};
use log_model::Damage;
use std::alloc::Global;
use store_file::read_store;

/// Reads a log or edits file that is there, and adds its entries.
pub(crate) fn read_entries<D: Disk>(
    alloc: Global,
    disk: &mut D,
    name: Name,
    into: &mut Vec<FoundEntry>,
) -> Result<(), SplitRefusal>
    requires there { IsTrue D.told → ∥ ((c : List ℕ) × Reads (D.view disk.old).files name c) ∥₁ }
    requires kind { HoldsEntries name.kind }

    ensures read { OnOk result (ReadsEntries (IsTrue D.told) (D.view disk.old).files name into.old.items into.new.items) }
    ensures damaged { IsTrue D.told → IfDamage result (IsDamageAt (D.view disk.old).files name) }
    ensures watches { IsTrue D.told → OnlyWatches (D.view disk.old) (D.view disk.new) }
    ensures cause { HasCause (D.faults disk.old) (D.faults disk.new) (IsErrOf result SplitRefusal.DiskFault) }
{
    match read_log(alloc, disk, name) {
        Ok(text) => {
            add_entries(into, name, text.entries.into_vec())?;
            Ok(())
        }
        Err(ReadRefusal::Memory) => Err(SplitRefusal::Memory),
        Err(ReadRefusal::DiskFault) => Err(SplitRefusal::DiskFault),
        Err(ReadRefusal::Damaged { at }) => {
            Err(SplitRefusal::Damaged(Damage::Bytes { name, at }))
        }
    }
}

/// Adds the entries of one file.
fn add_entries(into: &mut Vec<FoundEntry>, name: Name, entries: Vec<Entry>) -> Result<(), NoMemory>
    ensures { OnOk result (into.new.items ≡ into.old.items ++ placed name entries.items) }
{
    for entry in entries {
        into.push(FoundEntry { name, entry })?;
    }
    Ok(())
}

/// Reads a store file, and adds it where it is there.
pub(crate) fn read_found_store<D: Disk>(
    alloc: Global,
    disk: &mut D,
    name: Name,
    into: &mut Vec<FoundStore>,
) -> Result<(), SplitRefusal>
    requires there { IsTrue D.told → ∥ ((c : List ℕ) × Reads (D.view disk.old).files name c) ∥₁ }
    requires kind { name.kind ≡ kinds.Store }

    ensures read { OnOk result (ReadsStore (IsTrue D.told) (D.view disk.old).files name into.old.items into.new.items) }
    ensures damaged { IsTrue D.told → IfDamage result (IsDamageAt (D.view disk.old).files name) }
    ensures watches { IsTrue D.told → OnlyWatches (D.view disk.old) (D.view disk.new) }
    ensures cause { HasCause (D.faults disk.old) (D.faults disk.new) (IsErrOf result SplitRefusal.DiskFault) }
{
    let _size = size_of_file(disk, name)?;
    match read_store(alloc, disk, name) {
        Ok(Some(text)) => {
            into.push(FoundStore { name, text })?;
            Ok(())
        }
        Ok(None) => Ok(()),
        Err(ReadRefusal::Memory) => Err(SplitRefusal::Memory),
        Err(ReadRefusal::DiskFault) => Err(SplitRefusal::DiskFault),
        Err(ReadRefusal::Damaged { at }) => {
            Err(SplitRefusal::Damaged(Damage::Bytes { name, at }))
        }
    }
}

/// The length of a file in bytes, 0 where it isn't there.
fn size_of_file<D: Disk>(disk: &mut D, name: Name) -> Result<u64, Failed>
    ensures small { IsTrue D.told → (c : List ℕ) → Reads (D.view disk.old).files name c → OnOk result (length c < 2 ^ 64) }
    ensures watches { IsTrue D.told → OnlyWatches (D.view disk.old) (D.view disk.new) }
    ensures files { IsTrue D.told → (D.view disk.new).files ≡ (D.view disk.old).files }
    ensures cause { HasCause (D.faults disk.old) (D.faults disk.new) (IsErr result) }
{
    let size = disk.size(name)?.unwrap_or(0);
    Ok(size)
}
