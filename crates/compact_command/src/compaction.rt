//! A region of a store is compacted, once the store was opened.

ghost use Rattle.std.specs.Prelude.{◌≡◌, ◌≤◌, ◌<◌, ◌^◌, List, ℕ, length, IsTrue, IfOk, IfErr, OnOk, IsErr, IsErrOf};
ghost use Rattle.log_model.specs.Files.{IsFit, Reads};
ghost use Rattle.log_model.specs.Damage.{HasDamage};
ghost use Rattle.disk_images.specs.Calls.{HasCause};
ghost use Rattle.found_files.specs.Watching.{OnlyWatches};
ghost use Rattle.wal_split.specs.Moments.{During};
ghost use Rattle.region_replay.specs.Cleared.{IsReady};
ghost use Rattle.store_compact.specs.Compacting.{WasOrCompacted};
ghost use Rattle.command_base.specs.Status.{IsDamageOf};
ghost use Rattle.compact_command.specs.Compacted.{IsCompaction};
ghost use Rattle.compact_command.specs.Refusals.{IsOpeningRefusal};

use command_base::{Damage, Status};
use disk_images::{Disk, Failed, Name};
use std::alloc::Global;
use store_compact::{CompactKind, CompactRefusal, Compacted, compact};

/// What came of it.
#[derive(Clone, Copy)]
pub enum Compaction {
    /// One store file took the place of the others.
    Made { counts: Compacted },
    /// So few store files count that there was nothing to do.
    Nothing { files: u64 },
}

/// Compacts a region, 1 to 64, of a store that was opened.
pub(crate) fn compact_opened<D: Disk>(
    alloc: Global,
    disk: &mut D,
    region: u32,
    kind: CompactKind,
) -> Result<Compaction, Status>
    requires region { (1 ≤ region) × (region ≤ 64) }
    requires ready { IsTrue D.told → IsReady (D.view disk.old) }

    ensures done { IsTrue D.told → IfOk result (IsCompaction (D.view disk.old).files region kind (D.view disk.new)) }
    ensures any_moment { IsTrue D.told → During (WasOrCompacted (D.view disk.old).files region kind) (D.view disk.old) (D.view disk.new) }
    ensures memory { IsTrue D.told → IsErrOf result Status.Memory → OnlyWatches (D.view disk.old) (D.view disk.new) }
    ensures refused { IfErr result IsOpeningRefusal }
    // An opening found all files whole.
    ensures undamaged { IsTrue D.told → IfErr result (λ status. IsDamageOf status (λ damage. ⊥)) }
    ensures cause { HasCause (D.faults disk.old) (D.faults disk.new) (IsErrOf result Status.DiskFault) }
{
    match compact(alloc, disk, region, kind) {
        Ok(counts) => Ok(Compaction::Made { counts }),
        Err(CompactRefusal::NothingToCompact { files }) => Ok(Compaction::Nothing { files }),
        Err(CompactRefusal::Memory) => Err(Status::Memory),
        Err(CompactRefusal::DiskFault) => Err(Status::DiskFault),
        Err(CompactRefusal::Damaged { name, at }) => Err(looked_again(disk, name, at)),
    }
}

/// The status where a store file is damaged that was whole when it was opened. Only a disk that doesn't tell what it holds can
/// have become so: a file that has a size and is whole has no damage.
fn looked_again<D: Disk>(disk: &mut D, name: Name, at: u64) -> Status
    requires { IsTrue D.told → IsFit (D.view disk.old).files × HasDamage (D.view disk.old).files name at }
    ensures refused { IsOpeningRefusal result }
    ensures faulty { IsTrue D.told → result ≡ Status.DiskFault }
    ensures watches { IsTrue D.told → OnlyWatches (D.view disk.old) (D.view disk.new) }
    ensures cause { HasCause (D.faults disk.old) (D.faults disk.new) (result ≡ Status.DiskFault) }
{
    match size_of_file(disk, name) {
        Ok(_) => Status::Damaged(Damage::Bytes { name, at }),
        Err(_) => Status::DiskFault,
    }
}

/// The length of a file in bytes, 0 where it isn't there.
fn size_of_file<D: Disk>(disk: &mut D, name: Name) -> Result<u64, Failed>
    ensures small { IsTrue D.told → (c : List ℕ) → Reads (D.view disk.old).files name c → OnOk result (length c < 2 ^ 64) }
    ensures watches { IsTrue D.told → OnlyWatches (D.view disk.old) (D.view disk.new) }
    ensures cause { HasCause (D.faults disk.old) (D.faults disk.new) (IsErr result) }
{
    let size = disk.size(name)?.unwrap_or(0);
    Ok(size)
}
