//! The end of an opening, from what was read of the regions.

ghost use Rattle.std.specs.Prelude.{◌≡◌, Contains, length, IsTrue, IfOk, OnOk, IsErrOf};
ghost use Rattle.log_model.specs.declared.name.Name.{Name as TheName};
ghost use Rattle.log_model.specs.declared.name.NameKind.TheVariants as kinds;
ghost use Rattle.log_model.specs.Files.{Files, content};
ghost use Rattle.disk_images.specs.Calls.{HasCause};
ghost use Rattle.recovery_laws.specs.Alike.{AllAlike};
ghost use Rattle.wal_split.specs.Held.{IsHeld};
ghost use Rattle.wal_split.specs.Moments.{During};
ghost use Rattle.region_replay.specs.declared.found.RegionFiles.{RegionFiles as TheFiles};
ghost use Rattle.region_replay.specs.Cleared.{IsReady};
ghost use Rattle.region_replay.specs.Regions.{IsInOrder};
ghost use Rattle.region_replay.specs.Whole.{AreApart, AreFound, AreAllFound, AllOf, AllStoresReplayed, NoNewNames};

use crate::clearing::clear;
use crate::found::{RegionFiles, Replayed};
use crate::regions::replay_regions;
use disk_images::Disk;
use log_file::FileRefusal;
use std::alloc::Global;

/// Replays all regions of a store that was split, and makes durable that its edits files are gone: then a device may start.
/// At each moment a crash leaves files that recover as before for every region. `Memory` may come after some regions: what
/// was done for them stands, and the opening may be begun again.
pub(crate) fn replay_all<D: Disk>(
    alloc: Global,
    disk: &mut D,
    regions: Vec<RegionFiles>,
) -> Result<Vec<Replayed>, FileRefusal>
    requires order { (x : TheFiles) → Contains regions.items x → IsInOrder (IsTrue D.told) x }
    requires apart { AreApart regions.items }
    requires found { IsTrue D.told → ∥ ((base : Files) × IsHeld base (D.view disk.old)
        × AreFound (D.view disk.old).files regions.items) ∥₁ }

    ensures any_moment { IsTrue D.told → (base : Files) → IsHeld base (D.view disk.old)
        → AreAllFound (D.view disk.old).files regions.items
        → During (AllAlike base) (D.view disk.old) (D.view disk.new) }
    ensures alike { IsTrue D.told → (base : Files) → IsHeld base (D.view disk.old)
        → AreAllFound (D.view disk.old).files regions.items → OnOk result (AllAlike base (D.view disk.new).files) }
    ensures ready { IsTrue D.told → (base : Files) → IsHeld base (D.view disk.old)
        → AreAllFound (D.view disk.old).files regions.items → OnOk result (IsReady (D.view disk.new)) }
    ensures names { IsTrue D.told → (base : Files) → IsHeld base (D.view disk.old)
        → AreAllFound (D.view disk.old).files regions.items
        → OnOk result (NoNewNames (D.view disk.old).files (D.view disk.new).files regions.items) }
    ensures olds { IsTrue D.told → OnOk result ((m : TheName) → m.kind ≡ kinds.Old
        → content (D.view disk.new).files m ≡ content (D.view disk.old).files m) }
    ensures replayed { IsTrue D.told → (base : Files) → IsHeld base (D.view disk.old)
        → AreAllFound (D.view disk.old).files regions.items
        → IfOk result (λ xs. AllOf (D.view disk.old).files (D.view disk.new).files regions.items xs.items) }
    ensures stored { IsTrue D.told → (base : Files) → IsHeld base (D.view disk.old)
        → AreAllFound (D.view disk.old).files regions.items
        → IfOk result (λ xs. AllStoresReplayed (D.view disk.old).files (D.view disk.new).files regions.items xs.items) }
    ensures count { IfOk result (λ xs. length xs.items ≡ length regions.items) }
    ensures cause { HasCause (D.faults disk.old) (D.faults disk.new) (IsErrOf result FileRefusal.DiskFault) }
{
    let replayed = replay_regions(alloc, disk, regions)?;
    match clear(disk) {
        Ok(()) => Ok(replayed),
        Err(_) => Err(FileRefusal::DiskFault),
    }
}
