//! The steps of a replay that change files.

ghost use Rattle.std.specs.Prelude.{◌≡◌, ◌≢◌, ◌≤◌, ◌<◌, ◌^◌, ℕ, List, Contains, IsTrue, IfOk, OnOk, IsErrOf};
ghost use Rattle.std.specs.FinMap.{empty};
ghost use Rattle.cell_model.specs.Merge.{put_numbered};
ghost use Rattle.log_model.specs.declared.name.Name.{Name as TheName};
ghost use Rattle.log_model.specs.declared.name.NameKind.TheVariants as kinds;
ghost use Rattle.log_model.specs.Files.{Files, IsAbsent, content};
ghost use Rattle.log_model.specs.Recovered.{FlushesTo};
ghost use Rattle.disk_images.specs.Crash.{Throughout};
ghost use Rattle.disk_images.specs.Calls.{HasCause};
ghost use Rattle.flush_snapshot.specs.Cut.{IsWithin};
ghost use Rattle.recovery_laws.specs.Alike.{AllAlike};
ghost use Rattle.recovery_laws.specs.Kept.{IsNotReplaced};
ghost use Rattle.wal_split.specs.Held.{IsHeld};
ghost use Rattle.region_replay.specs.Cuts.{IsUnflushedCut, AreEdits, EditsUpTo};
ghost use Rattle.region_replay.specs.Names.{AreThere};
ghost use Rattle.region_replay.specs.Stored.{HasReplayStore};

use crate::removing::remove_all;
use crate::storing::store_unflushed;
use disk_images::{Disk, Name};
use kv_cell::NumberedCells;
use log_file::FileRefusal;
use mem_segments::Segment;
use std::alloc::Global;

/// Writes the region's unflushed cells as a store, removes its edits files, and hands the cells back in order.
pub(crate) fn replay_found<D: Disk>(
    alloc: Global,
    disk: &mut D,
    name: Name,
    from: u64,
    to: u64,
    cut: NumberedCells,
    names: &[Name],
) -> Result<Segment, FileRefusal>
    requires absent { IsTrue D.told → IsAbsent (D.view disk.old).files name × (¬ (D.view disk.old).gone name) }
    requires kind { name.kind ≡ kinds.Store }
    requires range { (1 ≤ from) × (from ≤ to) × (to < 2 ^ 48) }
    requires within { IsWithin from to cut }
    requires edits { AreEdits (IsTrue D.told) names.now }
    requires there { IsTrue D.told → AreThere (D.view disk.old).files names.now }

    ensures any_moment { IsTrue D.told → (base : Files) → IsHeld base (D.view disk.old)
        → IsUnflushedCut (D.view disk.old).files name to cut
        → EditsUpTo (D.view disk.old).files name.region to names.now → (by : ℕ)
        × Throughout (AllAlike base) by (D.view disk.old) (D.view disk.new) }
    ensures held { IsTrue D.told → (base : Files) → IsHeld base (D.view disk.old)
        → IsUnflushedCut (D.view disk.old).files name to cut
        → EditsUpTo (D.view disk.old).files name.region to names.now → OnOk result (IsHeld base (D.view disk.new)) }
    ensures flushed { IsTrue D.told → IsNotReplaced (D.view disk.old).files name
        → OnOk result ((f : List ℕ) → FlushesTo (D.view disk.new).files name.region f to) }
    ensures gone { IsTrue D.told → OnOk result ((m : TheName) → Contains names.now m
        → IsAbsent (D.view disk.new).files m) }
    ensures others { IsTrue D.told → OnOk result ((m : TheName) → m ≢ name → ((n : TheName) → Contains names.now n
        → m ≢ n) → content (D.view disk.new).files m ≡ content (D.view disk.old).files m) }
    ensures stored { IsTrue D.told → OnOk result (HasReplayStore (D.view disk.new).files name from to) }
    ensures cells { IfOk result (λ segment. segment ≡ put_numbered empty cut) }
    ensures cause { HasCause (D.faults disk.old) (D.faults disk.new) (IsErrOf result FileRefusal.DiskFault) }
{
    let segment = store_unflushed(alloc, disk, name, from, to, cut)?;
    match remove_all(disk, names) {
        Ok(()) => Ok(segment),
        Err(_) => Err(FileRefusal::DiskFault),
    }
}
