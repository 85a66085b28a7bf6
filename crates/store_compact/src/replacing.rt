//! One store file takes the place of a region's others.

ghost use Rattle.std.specs.Prelude.{◌≡◌, ◌≢◌, ◌≤◌, ℕ, Contains, length, IsTrue, IfOk, OnOk, IsErrOf};
ghost use Rattle.log_model.specs.declared.name.Name.{Name as TheName};
ghost use Rattle.log_model.specs.Files.{Files, IsFit, content};
ghost use Rattle.disk_images.specs.Crash.{IsImageNow};
ghost use Rattle.disk_images.specs.Calls.{HasCause};
ghost use Rattle.wal_split.specs.Moments.{During};
ghost use Rattle.store_compact.specs.Compacting.{WasOrCompacted, WasOrCompactedIn, IsCompacted, IsCompactedIn, HasOneStore, AreCounts, IsOtherFile};
ghost use Rattle.store_compact.specs.Ready.{IsAtRest};
ghost use Rattle.store_compact.specs.Plan.{AreCovered, AreToReplace};

use crate::kind::{CompactKind, Compacted};
use crate::merging::merged_cells;
use crate::removing::remove_stores;
use crate::writing::write_kept;
use disk_images::{Disk, Name};
use found_files::FoundStore;
use std::alloc::Global;
use store_file::FileRefusal;

/// Writes what is kept of these stores' cells under the name, which is above all of the region's, and then removes the
/// region's store files with these names. Memory is taken before the first disk call.
pub(crate) fn replace_stores<D: Disk>(
    alloc: Global,
    disk: &mut D,
    name: Name,
    from: u64,
    to: u64,
    kind: CompactKind,
    names: &[Name],
    stores: Vec<FoundStore>,
) -> Result<Compacted, FileRefusal>
    requires rest { IsTrue D.told → IsAtRest (D.view disk.old) }
    requires these { AreToReplace (IsTrue D.told) (D.view disk.old).files name names.now stores.items }
    requires covered { AreCovered stores.items from to }

    ensures any_moment { IsTrue D.told → IsFit (D.view disk.old).files
        → During (WasOrCompacted (D.view disk.old).files name.region kind) (D.view disk.old) (D.view disk.new) }
    ensures compacted { IsTrue D.told → IsFit (D.view disk.old).files → OnOk result ((J : Files) → IsImageNow (D.view disk.new) J
        → IsCompacted (D.view disk.old).files name.region kind J × HasOneStore (D.view disk.old).files name.region J) }
    ensures region { IsTrue D.told
        → During (WasOrCompactedIn (D.view disk.old).files name.region kind) (D.view disk.old) (D.view disk.new) }
    ensures region_compacted { IsTrue D.told → OnOk result ((J : Files) → IsImageNow (D.view disk.new) J
        → IsCompactedIn (D.view disk.old).files name.region kind J × HasOneStore (D.view disk.old).files name.region J) }
    ensures others { IsTrue D.told → (m : TheName) → IsOtherFile name.region m
        → content (D.view disk.new).files m ≡ content (D.view disk.old).files m }
    ensures counts { IsTrue D.told → IfOk result (AreCounts (D.view disk.old).files name.region kind) }
    ensures memory { IsErrOf result FileRefusal.Memory → disk.new ≡ disk.old }
    ensures cause { HasCause (D.faults disk.old) (D.faults disk.new) (IsErrOf result FileRefusal.DiskFault) }
{
    let merged = merged_cells(alloc, stores)?;
    let before = merged.len() as u64;
    let after = write_kept(alloc, disk, name, from, to, kind, &merged)?;
    match remove_stores(disk, names) {
        Ok(()) => Ok(Compacted { before, after }),
        Err(_) => Err(FileRefusal::DiskFault),
    }
}
