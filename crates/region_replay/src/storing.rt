//! What is unflushed of a region goes into a store file.

ghost use Rattle.std.specs.Prelude.{◌≡◌, ◌≤◌, ◌<◌, ◌^◌, ℕ, List, IsTrue, IfOk, OnOk, IsErrOf};
ghost use Rattle.std.specs.FinMap.{empty};
ghost use Rattle.cell_model.specs.Merge.{put_numbered};
ghost use Rattle.log_model.specs.declared.name.NameKind.TheVariants as kinds;
ghost use Rattle.log_model.specs.Files.{Files, IsAbsent};
ghost use Rattle.log_model.specs.Recovered.{FlushesTo};
ghost use Rattle.disk_images.specs.Crash.{Throughout};
ghost use Rattle.disk_images.specs.OneFile.{Touches};
ghost use Rattle.disk_images.specs.Calls.{HasCause};
ghost use Rattle.flush_snapshot.specs.Cut.{IsWithin};
ghost use Rattle.recovery_laws.specs.Alike.{AllAlike};
ghost use Rattle.recovery_laws.specs.Kept.{IsNotReplaced};
ghost use Rattle.wal_split.specs.Held.{IsHeld};
ghost use Rattle.region_replay.specs.Cuts.{IsUnflushedCut};
ghost use Rattle.region_replay.specs.Stored.{HasReplayStore};

use disk_images::{Disk, Name};
use flush_snapshot::store_cut;
use kv_cell::NumberedCells;
use log_file::FileRefusal;
use mem_segments::Segment;
use std::alloc::Global;

/// Writes the region's unflushed cells as its next store file, of all families, and hands them back in order. Each image recovers as before.
pub(crate) fn store_unflushed<D: Disk>(
    alloc: Global,
    disk: &mut D,
    name: Name,
    from: u64,
    to: u64,
    cut: NumberedCells,
) -> Result<Segment, FileRefusal>
    requires absent { IsTrue D.told → IsAbsent (D.view disk.old).files name × (¬ (D.view disk.old).gone name) }
    requires kind { name.kind ≡ kinds.Store }
    requires range { (1 ≤ from) × (from ≤ to) × (to < 2 ^ 48) }
    requires within { IsWithin from to cut }

    ensures any_moment { IsTrue D.told → (base : Files) → IsHeld base (D.view disk.old)
        → IsUnflushedCut (D.view disk.old).files name to cut → (by : ℕ)
        × Throughout (AllAlike base) by (D.view disk.old) (D.view disk.new) }
    ensures held { IsTrue D.told → (base : Files) → IsHeld base (D.view disk.old)
        → IsUnflushedCut (D.view disk.old).files name to cut → OnOk result (IsHeld base (D.view disk.new)) }
    ensures flushed { IsTrue D.told → IsNotReplaced (D.view disk.old).files name
        → OnOk result ((f : List ℕ) → FlushesTo (D.view disk.new).files name.region f to) }
    ensures stored { IsTrue D.told → OnOk result (HasReplayStore (D.view disk.new).files name from to) }
    ensures cells { IfOk result (λ segment. segment ≡ put_numbered empty cut) }
    ensures memory { IsErrOf result FileRefusal.Memory → disk.new ≡ disk.old }
    ensures touches { IsTrue D.told → Touches name (D.view disk.old) (D.view disk.new) }
    ensures cause { HasCause (D.faults disk.old) (D.faults disk.new) (IsErrOf result FileRefusal.DiskFault) }
{
    // For the proof, which goes by the branches: each is answered as it came.
    match store_cut(alloc, disk, name, &[], from, to, cut) {
        Ok(segment) => Ok(segment),
        Err(FileRefusal::Memory) => Err(FileRefusal::Memory),
        Err(FileRefusal::DiskFault) => Err(FileRefusal::DiskFault),
    }
}
